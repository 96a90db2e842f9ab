// Numbers, bytes and the filling of the last byte as bits: definitions and their laws, in code what reading and writing them share.
// specs/Bits.antt says what the bits of numbers and of bytes are, and how they are filled up to whole bytes. The crates above read numbers at any
// bit of a byte buffer, highest bit first (bits_in), read 25 bits ahead (bits_ahead), and write numbers (bits_out).
#![tactic(auto)]

ghost use Rattle.std.specs.Prelude.{◌≡◌, ◌+◌, ◌-◌, ◌*◌, ◌^◌, ◌≤◌, ◌<◌, min, length, take, drop};
ghost use Rattle.bits.specs.Bits.{value_of, bytes_bits};

// A power of two.
pub fn two_to(k: usize) -> usize
    requires { k ≤ 63 }
    ensures { (result ≡ 2 ^ k) × (0 < result) }
{
    1 << k
}

// How many of `width` bits from the bit `at` on have room in so many bytes. Eight bytes have room for 56 bits from any bit on.
pub fn room(bytes: usize, at: usize, width: usize) -> usize
    requires { width ≤ 56 }
    ensures { result ≡ min width (bytes * 8 - at) }
{
    let bits = bytes.saturating_sub(at / 8).min(8) * 8;
    bits.saturating_sub(at % 8).min(width)
}

// The number that four bytes are, from a byte on.
pub fn half_word(bytes: &[u8], index: usize) -> usize
    requires { index + 3 < length bytes.now }
    ensures { result ≡ value_of (take 32 (drop (index * 8) (bytes_bits bytes.now))) }
{
    u32::from_be_bytes([
        bytes[index],
        bytes[index + 1],
        bytes[index + 2],
        bytes[index + 3],
    ]) as usize
}

// The number that eight bytes are, from a byte on.
pub fn word(bytes: &[u8], index: usize) -> usize
    requires { index + 7 < length bytes.now }
    ensures { result ≡ value_of (take 64 (drop (index * 8) (bytes_bits bytes.now))) }
{
    usize::from_be_bytes([
        bytes[index],
        bytes[index + 1],
        bytes[index + 2],
        bytes[index + 3],
        bytes[index + 4],
        bytes[index + 5],
        bytes[index + 6],
        bytes[index + 7],
    ])
}
