// The plate as it was before request f): the old rules of a text, a book and a plate, and the laws that every earlier plate keeps its bits
// and its meaning; no code. What request f) left alone is that of crates text, phrases and plate.
#![tactic(auto)]
