// The walk on a guide's blocks: definitions and their laws.
// specs/Walk.antt says what the walk of a block is; specs/Call.antt what the call `walk` answers and leaves in the lent buffer. Worked cases stand
// beside them, and the law that the walk waits exactly where a question's line is the last and no answer is left for it.
#![tactic(auto)]
