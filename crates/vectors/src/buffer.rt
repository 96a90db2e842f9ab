// A lent buffer of a vector program: how many bytes a case lends, their content before a call, and how the whole of them is written after
// it. model/README.md has the format.
ghost use Rattle.std.specs.Prelude.{◌≡◌, ◌<◌, ◌≤◌, ◌*◌, length};
ghost use Rattle.output.specs.Pour.{poured};
ghost use Rattle.vectors.specs.Front.{Front};
ghost use Rattle.vectors.specs.Lent.{content, lent_of};
ghost use Rattle.vectors.specs.Sums.{sum_of, buffer_text};

// How many elements of `space` are lent: as many as a case says, at most all. Callers lend them by the second clause.
pub fn lent<T>(space: &[T], length: usize) -> usize
    ensures value { result ≡ lent_of space.now length }
    ensures prefix_len { Front result space.now }
{
    length.min(space.len())
}

// The content of a lent buffer before a call: byte i is (i * 7 + 13) mod 256.
pub fn fill(out: &mut [u8])
    ensures { out.new ≡ content (length out.old) }
{
    for (i, byte) in out.iter_mut().enumerate() {
        *byte = ((i % 256 * 7 + 13) % 256) as u8;
    }
}

// A checksum of the bytes. The sum so far stays below the modulus.
fn sum(bytes: &[u8], factor: usize, modulus: usize) -> usize
    requires modulus_nonzero { 0 < modulus }
    requires factor_bound { modulus * factor ≤ 18446744073709551359 }
    ensures { result ≡ sum_of factor modulus bytes.now }
{
    let mut sum = 0;
    for byte in bytes {
        sum = (sum * factor + *byte as usize + 1) % modulus;
    }
    sum
}

// The whole of a lent buffer after a call: up to 64 bytes in full, more by their checksums.
pub fn put_buffer(out: &mut [u8], at: usize, bytes: &[u8]) -> usize
    ensures { (result, out.new) ≡ poured at (buffer_text bytes.now) out.old }
{
    if bytes.len() <= 64 {
        return printed::put_pairs(out, at, bytes);
    }
    let end = text_out::put_natural(out, at, sum(bytes, 48271, 2147483647));
    let end = text_out::put_byte(out, end, b',');
    text_out::put_natural(out, end, sum(bytes, 69643, 4294967291))
}
