// What a plate has besides its instructions, for the translator and the converter: its front, which is the own phrases and the number of
// instructions; the filling behind the last one; the room that a plate takes in a lent buffer; and a plate that was made in an array, in a
// lent buffer.
// `put_front` and `put_fill` store their bits as the writers of crate text_bits do. `own` is a text whose first `count` lines are
// `phrase,TEXT`.
#![tactic(auto)]

mod lent;
mod own;
mod sizes;

ghost use Rattle.std.specs.Prelude.{◌≡◌, ◌-◌, ◌%◌};
ghost use Rattle.bits.specs.Bits.{bits_of, bytes_bits};
ghost use Rattle.output.specs.Pour.{poured};

pub use lent::lend;
pub use own::put_front;

// The zero bits that fill the last byte.
pub fn put_fill(out: &mut [u8], at: usize) -> usize
    ensures { (result, bytes_bits out.new) ≡ poured at (bits_of ((8 - at % 8) % 8) 0) (bytes_bits out.old) }
{
    bits_out::put_bits(out, at, (8 - at % 8) % 8, 0)
}
