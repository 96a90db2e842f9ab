// The translation of a guide, and what the call translate answers and leaves in the lent buffer: definitions, laws and worked cases, no code.
// specs/Translation.antt says which instructions a block becomes, specs/Call.antt the call. Crate translate is the code.
#![tactic(auto)]
