// The width of a phrase's place.
ghost use Rattle.std.specs.Prelude.{◌≡◌, ◌≤◌};
ghost use Rattle.phrases.specs.Phrases.{width};

// The fewest bits that number n phrases: as many as the greatest number has, which is n - 1.
pub fn width_of(n: usize) -> usize
    requires { n ≤ 65536 }
    ensures { result ≡ width n }
{
    if n <= 1 {
        0
    } else {
        (n - 1).ilog2() as usize + 1
    }
}
