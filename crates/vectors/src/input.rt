// Numbers and slices at a place of the input of a vector program. model/README.md has the format.
// What stands past the input's end counts as 0 or as empty, and a place past the end is a place too. So a program that is given an
// input that ends inside a case needs no test of its own. A place so many bytes on is at most the greatest number (`saturating_add`).
ghost use Rattle.std.specs.Prelude.{◌≡◌, ◌<◌};
ghost use Rattle.vectors.specs.Input.{byte_at, number_at, long_at, signed_of, slice_at, slice_end};

// The byte at a place.
pub fn byte(s: &[u8], at: usize) -> u8
    ensures { result ≡ byte_at s.now at }
{
    s.get(at).copied().unwrap_or(0)
}

// The number of four bytes at a place, the lowest first.
fn word(s: &[u8], at: usize) -> u32
    ensures { result ≡ number_at s.now at }
{
    u32::from_le_bytes([
        byte(s, at),
        byte(s, at.saturating_add(1)),
        byte(s, at.saturating_add(2)),
        byte(s, at.saturating_add(3)),
    ])
}

// The same, to count by.
pub fn number(s: &[u8], at: usize) -> usize
    ensures value { result ≡ number_at s.now at }
    ensures upper_bound { result < 4294967296 }
{
    word(s, at) as usize
}

// The number of eight bytes at a place, the lowest first.
pub fn long_number(s: &[u8], at: usize) -> usize
    ensures { result ≡ long_at s.now at }
{
    number(s, at) + number(s, at.saturating_add(4)) * 4294967296
}

// The number of four bytes at a place, with its sign in two's complement.
pub fn signed(s: &[u8], at: usize) -> i32
    ensures { result ≡ signed_of (number_at s.now at) }
{
    word(s, at).cast_signed()
}

// The bytes of a slice at a place, behind their length.
pub fn slice(s: &[u8], at: usize) -> &[u8]
    ensures { result.now ≡ slice_at s.now at }
{
    s.get(at.saturating_add(4)..past_slice(s, at))
        .unwrap_or(&[])
}

// The place behind a slice.
pub fn past_slice(s: &[u8], at: usize) -> usize
    ensures { result ≡ slice_end s.now at }
{
    at.saturating_add(4).saturating_add(number(s, at))
}
