// Numbers of 0 to 56 bits, written into a byte buffer at any bit of it, highest bit first.
// Writing stores each bit that has room, changes no other bit, and returns the place behind the bits, with room or without: a first pass
// over no buffer at all counts the bits of the whole.
#![tactic(auto)]

ghost use Rattle.std.specs.Prelude.{◌≡◌, ◌+◌, ◌-◌, ◌*◌, ◌≤◌, ◌<◌, length};
ghost use Rattle.output.specs.Pour.{pour, poured};
ghost use Rattle.bits.specs.Bits.{bits_of, bytes_bits};

// A byte with the lowest `size` bits of a number in place of its own, from the bit `bit` on.
fn with_field(byte: u8, bit: usize, size: usize, value: usize) -> u8
    requires { bit + size ≤ 8 }
    ensures { bits_of 8 result ≡ pour bit (bits_of size value) (bits_of 8 byte) }
{
    let unit = bits::two_to(8 - bit - size);
    let values = bits::two_to(size);
    let old = usize::from(byte);
    ((old / unit / values * values + value % values) * unit + old % unit) as u8
}

// The lowest `width` bits of a number, stored from the bit `at` on, where all of them have room.
fn store(out: &mut [u8], at: usize, width: usize, value: usize)
    requires { (width ≤ 56) × (width ≤ length out.old * 8 - at) }
    ensures { bytes_bits out.new ≡ pour at (bits_of width value) (bytes_bits out.old) }
{
    // A `while`: each turn goes on by as many bits as are left in the byte.
    let mut index = at / 8;
    let mut bit = at % 8;
    let mut left = width;
    while 0 < left {
        let size = left.min(8 - bit);
        left -= size;
        out[index] = with_field(out[index], bit, size, value >> left);
        index += (bit + size) / 8;
        bit = (bit + size) % 8;
    }
}

// The lowest `width` bits of a number, stored from the bit `at` on as far as the buffer goes.
fn put_room(out: &mut [u8], at: usize, width: usize, value: usize)
    requires { width ≤ 56 }
    ensures { bytes_bits out.new ≡ pour at (bits_of width value) (bytes_bits out.old) }
{
    let count = bits::room(out.len(), at, width);
    store(out, at, count, value >> (width - count));
}

// The number of eight bytes with the lowest `width` bits of another in place of its own, from the bit `bit` on.
fn with_bits(word: usize, bit: usize, width: usize, value: usize) -> usize
    requires { (bit + width ≤ 64) × (0 < width) × (width < 64) }
    ensures { bits_of 64 result ≡ pour bit (bits_of width value) (bits_of 64 word) }
{
    let unit = bits::two_to(64 - bit - width);
    let values = bits::two_to(width);
    (word / unit / values * values + value % values) * unit + word % unit
}

// The number of eight bytes, stored from a byte on.
fn store_word(out: &mut [u8], index: usize, word: usize)
    requires { index + 7 < length out.old }
    ensures { bytes_bits out.new ≡ pour (index * 8) (bits_of 64 word) (bytes_bits out.old) }
{
    out[index..index + 8].copy_from_slice(&word.to_be_bytes());
}

// As `put_room`. Up to 56 bits lie in eight bytes, which are read and stored as one number.
fn put_word(out: &mut [u8], at: usize, width: usize, value: usize)
    requires { width ≤ 56 }
    ensures { bytes_bits out.new ≡ pour at (bits_of width value) (bytes_bits out.old) }
{
    let index = at / 8;
    if 0 < width && index + 7 < out.len() {
        let old = bits::word(out, index);
        store_word(out, index, with_bits(old, at % 8, width, value));
    } else {
        put_room(out, at, width, value);
    }
}

// The lowest `width` bits of a number, stored from the bit `at` on as far as the buffer goes, and the place behind them.
pub fn put_bits(out: &mut [u8], at: usize, width: usize, value: usize) -> usize
    requires { width ≤ 56 }
    ensures { (result, bytes_bits out.new) ≡ poured at (bits_of width value) (bytes_bits out.old) }
{
    if at / 8 < out.len() {
        put_word(out, at, width, value);
    }
    output::sum(at, width)
}
