// Numbers of 0 to 32 bits or of 56, read in a byte buffer at any bit of it, highest bit first.
// Reading finds the number, or that the buffer ends inside it.
#![tactic(auto)]

ghost use Rattle.std.specs.Prelude.{◌≡◌, ◌+◌, ◌≤◌, take, drop};
ghost use Rattle.bits.specs.Bits.{bits_of, value_of, bytes_bits};
ghost use Rattle.bits.specs.Number.{number_in, wide_in};

// The number that `size` bits of a byte are, from the bit `bit` on.
fn field(byte: u8, bit: usize, size: usize) -> usize
    requires { bit + size ≤ 8 }
    ensures { result ≡ value_of (take size (drop bit (bits_of 8 byte))) }
{
    (usize::from(byte) >> (8 - bit - size)) % bits::two_to(size)
}

// The number that 56 bits are, from the bit `at` on, where eight bytes begin at that bit's byte.
pub fn read_eight(bytes: &[u8], at: usize) -> Option<usize>
    ensures { result ≡ wide_in bytes.now at }
{
    let index = at / 8;
    if index + 7 < bytes.len() {
        Some((bits::word(bytes, index) >> (8 - at % 8)) % (1 << 56))
    } else {
        None
    }
}

// The number that `width` bits of the bytes are, from the bit `at` on. Up to 25 bits lie in four bytes, which are read as one number: with
// eight bytes this function would be too long to be inlined.
pub fn read_number(bytes: &[u8], at: usize, width: usize) -> Option<u32>
    requires { width ≤ 32 }
    ensures { result ≡ number_in width (drop at (bytes_bits bytes.now)) }
{
    let index = at / 8;
    if width <= 25 && index + 3 < bytes.len() {
        let above = bits::half_word(bytes, index) >> (32 - at % 8 - width);
        return Some((above % bits::two_to(width)) as u32);
    }
    read_bytes(bytes, at, width)
}

// The same, byte by byte: a number of more bits, or at the end of the bytes.
fn read_bytes(bytes: &[u8], at: usize, width: usize) -> Option<u32>
    requires { width ≤ 32 }
    ensures { result ≡ number_in width (drop at (bytes_bits bytes.now)) }
{
    if bits::room(bytes.len(), at, width) < width {
        return None;
    }
    // A `while`: each turn goes on by as many bits as are left in the byte.
    let mut value = 0;
    let mut index = at / 8;
    let mut bit = at % 8;
    let mut left = width;
    while 0 < left {
        let size = left.min(8 - bit);
        let part = field(bytes[index], bit, size);
        value = value * bits::two_to(size) + part;
        index += (bit + size) / 8;
        bit = (bit + size) % 8;
        left -= size;
    }
    Some(value as u32)
}
