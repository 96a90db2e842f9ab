// Allowed bytes and texts.
ghost use Rattle.std.specs.Prelude.{◌≡◌, drop};
ghost use Rattle.text.specs.Parts.{all, split, comma};
ghost use Rattle.text.specs.Text.{allowed, text_byte, is_text};

// Whether a byte is allowed.
fn is_allowed(b: u8) -> bool
    ensures { result ≡ allowed b }
{
    b >= 32 && b != 127
}

// Whether every byte is allowed.
pub fn are_allowed(s: &[u8]) -> bool
    ensures { result ≡ all allowed s.now }
{
    s.iter().all(|&b| is_allowed(b))
}

// Whether a byte is one of a text: allowed, and no comma.
fn is_text_byte(b: u8) -> bool
    ensures { result ≡ text_byte b }
{
    is_allowed(b) && b != b','
}

// Whether every byte is one of a text. It does not stop at a byte that is not, so that many are taken at a time: with `all` the calls were slower
// than the straightforward Rust on long texts.
fn are_text_bytes(s: &[u8]) -> bool
    ensures { result ≡ all text_byte s.now }
{
    s.iter().fold(true, |good, &b| good & is_text_byte(b))
}

// Whether the bytes are a text: 1 to 64 allowed bytes with no comma, which are well-formed.
pub fn is_text(s: &[u8]) -> bool
    ensures { result ≡ is_text s.now }
{
    (1..=64).contains(&s.len()) && are_text_bytes(s) && utf8::well_formed(s)
}

// Whether every field from field k on is a text.
pub fn are_texts(s: &[u8], k: usize) -> bool
    ensures { result ≡ all is_text (drop k (split comma s.now)) }
{
    s.split(|&b| b == b',').skip(k).all(is_text)
}
