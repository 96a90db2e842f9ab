// The search for a byte.
ghost use Rattle.std.specs.Prelude.{◌≡◌, ◌+◌, ◌≤◌, length, drop, ltb};
ghost use Rattle.text.specs.Parts.{until_byte};

// So many bytes are looked at together.
const GROUP: usize = 16;

// The place of the first byte x from a on, or the text's end. It is mostly near; behind the first 16 bytes groups of 16 are passed over, since
// byte by byte alone the calls were up to twice as slow as the straightforward Rust on long lines.
#[inline(always)]
pub fn find(s: &[u8], a: usize, x: u8) -> usize
    requires { a ≤ length s.now }
    ensures value { result ≡ a + until_byte x (drop a s.now) }
    ensures upper_bound { result ≤ length s.now }
{
    if s.len() - a < GROUP {
        return find_near(s, a, x);
    }
    let near = a + GROUP;
    let at = find_near(&s[..near], a, x);
    if at < near { at } else { find_far(s, near, x) }
}

// The same, with groups of 16 bytes without x passed over first: apart, so that `find` stays small.
#[inline(never)]
fn find_far(s: &[u8], a: usize, x: u8) -> usize
    requires { a ≤ length s.now }
    ensures value { result ≡ a + until_byte x (drop a s.now) }
    ensures upper_bound { result ≤ length s.now }
{
    let mut at = a;
    while GROUP <= s.len() - at && !has(s, at, x) {
        at += GROUP;
    }
    find_near(s, at, x)
}

// Whether x is one of the 16 bytes from a on. The loop does not stop at the first, so that all 16 are taken at a time.
fn has(s: &[u8], a: usize, x: u8) -> bool
    requires { a + 16 ≤ length s.now }
    ensures { result ≡ ltb (until_byte x (drop a s.now)) 16 }
{
    let mut hit = false;
    for i in 0..GROUP {
        if s[a + i] == x {
            hit = true;
        }
    }
    hit
}

// The same as `find`, byte by byte.
fn find_near(s: &[u8], a: usize, x: u8) -> usize
    requires { a ≤ length s.now }
    ensures value { result ≡ a + until_byte x (drop a s.now) }
    ensures upper_bound { result ≤ length s.now }
{
    match s[a..].iter().position(|&b| b == x) {
        Some(k) => a + k,
        None => s.len(),
    }
}
