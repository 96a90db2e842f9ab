// The fields of a line, each behind a comma: a number from 0 on, an operator, a constant.
ghost use Rattle.std.specs.Prelude.{◌≡◌, ◌∷◌, ◌<◌};
ghost use Rattle.causes.specs.Limits.{skips};
ghost use Rattle.text.specs.Parts.{comma};
ghost use Rattle.decimals.specs.Number.{decimalℕ, decimal};
ghost use Rattle.output.specs.Pour.{poured};
ghost use Rattle.listing.specs.Listing.{operator_word};

use transcript::Op;

// A register or a skip.
pub fn put_natural(out: &mut [u8], at: usize, n: usize) -> usize
    requires { n < skips }
    ensures { (result, out.new) ≡ poured at (comma ∷ decimalℕ n) out.old }
{
    let end = text_out::put_byte(out, at, b',');
    text_out::put_natural(out, end, n)
}

// OP.
pub fn put_operator(out: &mut [u8], at: usize, op: Op) -> usize
    ensures { (result, out.new) ≡ poured at (comma ∷ operator_word op) out.old }
{
    let end = text_out::put_byte(out, at, b',');
    match op {
        Op::Eq => text_out::put(out, end, b"eq"),
        Op::Ne => text_out::put(out, end, b"ne"),
        Op::Lt => text_out::put(out, end, b"lt"),
        Op::Le => text_out::put(out, end, b"le"),
        Op::Gt => text_out::put(out, end, b"gt"),
        Op::Ge => text_out::put(out, end, b"ge"),
    }
}

// A constant.
pub fn put_constant(out: &mut [u8], at: usize, constant: i32) -> usize
    ensures { (result, out.new) ≡ poured at (comma ∷ decimal constant) out.old }
{
    let end = text_out::put_byte(out, at, b',');
    text_out::put_number(out, end, constant)
}
