// The plate: a program as bits. Definitions and their laws, and whether a constant takes 16 bits, in code.
// specs/Program.antt says what a plate holds, specs/Writing.antt which bits it is, specs/Reading.antt what a reader of bits is, and
// specs/Plate.antt how a plate is read, with causes 8, 10 and 12 to 15 at the exact bit. proofs/RoundTrip.antt: what was written is
// read, and what was read is written.
// Crates text_bits, writer and plate_room write the bits; fields, instructions and reader read them.
#![tactic(auto)]

ghost use Rattle.std.specs.Prelude.{◌≡◌};
ghost use Rattle.plate.specs.Writing.{is_short};

// Whether 16 bits are enough for a constant.
pub fn is_short(constant: i32) -> bool
    ensures { result ≡ is_short constant }
{
    if -32768 <= constant {
        return constant <= 32767;
    }
    false
}
