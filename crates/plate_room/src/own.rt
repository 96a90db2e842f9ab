// A plate's front: the own phrases, and how many instructions come behind it.
ghost use Rattle.std.specs.Prelude.{◌≡◌, ◌++◌, ◌≤◌, length};
ghost use Rattle.causes.specs.Limits.{most_plate_bytes};
ghost use Rattle.output.specs.Pour.{poured};
ghost use Rattle.bits.specs.Bits.{bits_of, bytes_bits};
ghost use Rattle.phrases.specs.Lookup.{own_texts};
ghost use Rattle.plate.specs.Writing.{phrases_bits, own_bits};

use text_bits::put_spelled;

// The texts of the first `count` lines `phrase,TEXT`, each spelled.
fn put_phrases(out: &mut [u8], at: usize, own: &[u8], count: usize) -> usize
    requires { length out.old ≤ most_plate_bytes }
    ensures { (result, bytes_bits out.new) ≡ poured at (phrases_bits (own_texts count own.now)) (bytes_bits out.old) }
{
    let mut end = at;
    let mut a = 0;
    for _ in 0..count {
        if own.len() < a {
            return end;
        }
        let e = text::find(own, a, b'\n');
        end = put_spelled(out, end, 7, text_parts::part(&own[a..e], b',', 1));
        a = e + 1;
    }
    end
}

// The own phrases: a bit that is 1 where there are some, then 5 bits for their number less one, and each phrase.
pub fn put_own(out: &mut [u8], at: usize, own: &[u8], count: usize) -> usize
    requires { (length out.old ≤ most_plate_bytes) × (length (own_texts count own.now) ≡ count) }
    ensures { (result, bytes_bits out.new) ≡ poured at (own_bits (own_texts count own.now)) (bytes_bits out.old) }
{
    if count == 0 {
        return bits_out::put_bits(out, at, 1, 0);
    }
    let end = bits_out::put_bits(out, at, 1, 1);
    let end = bits_out::put_bits(out, end, 5, count - 1);
    put_phrases(out, end, own, count)
}

// A plate's front, from its first bit on: the own phrases, then 10 bits for the number of instructions.
pub fn put_front(out: &mut [u8], own: &[u8], count: usize, n: usize) -> usize
    requires { (length out.old ≤ most_plate_bytes) × (length (own_texts count own.now) ≡ count) }
    ensures { (result, bytes_bits out.new) ≡ poured 0 (own_bits (own_texts count own.now) ++ bits_of 10 n) (bytes_bits out.old) }
{
    let end = put_own(out, 0, own, count);
    bits_out::put_bits(out, end, 10, n)
}
