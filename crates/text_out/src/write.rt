// Writing bytes, texts and numbers at a place of a lent buffer, as far as it goes.
ghost use Rattle.std.specs.Prelude.{◌≡◌, [], ◌∷◌, ◌+◌, ◌≤◌, length};
ghost use Rattle.output.specs.Pour.{pour, poured};
ghost use Rattle.decimals.specs.Number.{decimalℕ, decimal};

// A byte, where there is room.
pub fn put_byte(out: &mut [u8], at: usize, b: u8) -> usize
    ensures { (result, out.new) ≡ poured at (b ∷ []) out.old }
{
    if at < out.len() {
        out[at] = b;
    }
    output::sum(at, 1)
}

// A text that has room from a place on. By a loop, since the library's copy of a slice calls `memmove` here, which the archive for C would then
// need from outside.
fn copy(out: &mut [u8], at: usize, text: &[u8])
    requires { at + length text.now ≤ length out.old }
    ensures { out.new ≡ pour at text.now out.old }
{
    for (i, &b) in text.iter().enumerate() {
        out[at + i] = b;
    }
}

// A text: all of it is copied where it has room, so that a word of known length is put at once; else the part of it that has.
pub fn put(out: &mut [u8], at: usize, text: &[u8]) -> usize
    ensures { (result, out.new) ≡ poured at text.now out.old }
{
    let end = output::sum(at, text.len());
    if end <= out.len() {
        copy(out, at, text);
    } else if at < out.len() {
        let room = out.len() - at;
        copy(out, at, &text[..room]);
    }
    end
}

// A number from 0 on, the highest digit first. One digit, as most numbers of a line have, is put at once; several are found from the last one on.
pub fn put_natural(out: &mut [u8], at: usize, v: usize) -> usize
    ensures { (result, out.new) ≡ poured at (decimalℕ v) out.old }
{
    if v < 10 {
        return put_byte(out, at, b'0' + v as u8);
    }
    let mut digits = [0u8; 20];
    let mut left = v;
    let mut k = 19;
    while left >= 10 {
        digits[k] = b'0' + (left % 10) as u8;
        left /= 10;
        k -= 1;
    }
    digits[k] = b'0' + left as u8;
    put(out, at, &digits[k..])
}

// A number with its sign.
pub fn put_number(out: &mut [u8], at: usize, v: i32) -> usize
    ensures { (result, out.new) ≡ poured at (decimal v) out.old }
{
    let end = if v < 0 { put_byte(out, at, b'-') } else { at };
    put_natural(out, end, v.unsigned_abs() as usize)
}
