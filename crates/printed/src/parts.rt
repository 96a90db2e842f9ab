// The front of a slice.
ghost use Rattle.std.specs.Prelude.{◌≡◌, take};

// The first n bytes, or all where there are fewer.
pub fn front(s: &[u8], n: usize) -> &[u8]
    ensures { result.now ≡ take n s.now }
{
    &s[..n.min(s.len())]
}
