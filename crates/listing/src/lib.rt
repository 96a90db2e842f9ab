// The listing: a plate's instructions as lines, and the converter between listing and plate.
// specs/Listing.antt says which text a program is and which program a text; specs/Calls.antt what write_plate and read_plate answer
// and leave in the lent buffer.
#![tactic(auto)]
