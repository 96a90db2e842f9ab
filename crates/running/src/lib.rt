// The run on a plate's instructions: definitions and their laws.
// specs/Run.antt says what the run of instructions is; specs/Call.antt what the call `run` answers and leaves in the lent buffer. The laws say
// the run by the instructions' numbers, as document 01 does, that it makes no more steps than instructions and two for each inputs
// (specs/Steps.antt), and that more answers only lengthen the record (specs/More.antt).
#![tactic(auto)]
