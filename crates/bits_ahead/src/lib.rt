// Several short numbers, one behind the other, as parts of 25 bits that are read ahead once.
// specs/Ahead.antt of crate bits has the definitions.
#![tactic(auto)]

ghost use Rattle.std.specs.Prelude.{◌≡◌, ◌+◌, ◌-◌, ◌≤◌, ◌<◌, length, drop, get_or};
ghost use Rattle.bits.specs.Bits.{value_of, bytes_bits};
ghost use Rattle.bits.specs.Number.{number_in};
ghost use Rattle.bits.specs.Ahead.{four_from, ahead_in, part_ahead};

// A byte, or 0 behind the last one.
fn byte_at(bytes: &[u8], index: usize) -> u8
    ensures { result ≡ get_or bytes.now index 0 }
{
    bytes.get(index).copied().unwrap_or(0)
}

// The number that four bytes are, from a byte on, zeros behind the last one.
fn last_bytes(bytes: &[u8], index: usize) -> usize
    requires { index + 3 < 18446744073709551616 }
    ensures { result ≡ value_of (bytes_bits (four_from bytes.now index)) }
{
    u32::from_be_bytes([
        byte_at(bytes, index),
        byte_at(bytes, index + 1),
        byte_at(bytes, index + 2),
        byte_at(bytes, index + 3),
    ]) as usize
}

// The 25 bits from the bit `at` on, zeros behind the last byte, as a number.
pub fn read_ahead(bytes: &[u8], at: usize) -> usize
    ensures { result ≡ ahead_in bytes.now at }
{
    let index = at / 8;
    let word = if index + 3 < bytes.len() {
        bits::half_word(bytes, index)
    } else {
        last_bytes(bytes, index)
    };
    (word >> (7 - at % 8)) % (1 << 25)
}

// The number that `width` of 25 bits are, behind the first k.
pub fn part_ahead(ahead: usize, k: usize, width: usize) -> usize
    requires { k + width ≤ 25 }
    ensures { (result ≡ part_ahead k width ahead) × (result < 33554432) }
{
    (ahead >> (25 - k - width)) % bits::two_to(width)
}

// The number that `width` bits of the bytes are, k bits behind the bit `at`, whose 25 bits were read ahead.
pub fn number_ahead(bytes: &[u8], ahead: usize, at: usize, k: usize, width: usize) -> Option<u32>
    requires { (ahead ≡ ahead_in bytes.now at) × (k + width ≤ 25) × (at + k < 18446744073709551616) × (length bytes.now < 1152921504606846976) }
    ensures { result ≡ number_in width (drop (at + k) (bytes_bits bytes.now)) }
{
    if (bytes.len() * 8).saturating_sub(at + k) < width {
        return None;
    }
    Some(part_ahead(ahead, k, width) as u32)
}
