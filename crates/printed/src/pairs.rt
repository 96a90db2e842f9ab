// Bytes in upper-case hexadecimal.
ghost use Rattle.std.specs.Prelude.{◌≡◌, [], ◌∷◌, ◌<◌, ◌/◌, ◌%◌};
ghost use Rattle.output.specs.Pour.{poured};
ghost use Rattle.printed.specs.Pairs.{hexadecimal, pairs};

// A digit.
fn digit(n: u8) -> u8
    requires { n < 16 }
    ensures { result ≡ hexadecimal n }
{
    if n < 10 { b'0' + n } else { b'A' + n - 10 }
}

// The two digits of a byte, the high one first.
fn put_pair(out: &mut [u8], at: usize, b: u8) -> usize
    ensures { (result, out.new) ≡ poured at (hexadecimal (b / 16) ∷ hexadecimal (b % 16) ∷ []) out.old }
{
    let end = text_out::put_byte(out, at, digit(b / 16));
    text_out::put_byte(out, end, digit(b % 16))
}

// The pairs of digits of the bytes.
pub fn put_pairs(out: &mut [u8], at: usize, bytes: &[u8]) -> usize
    ensures { (result, out.new) ≡ poured at (pairs bytes.now) out.old }
{
    let mut end = at;
    for &b in bytes {
        end = put_pair(out, end, b);
    }
    end
}
