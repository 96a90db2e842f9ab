// The numbers of an index: how many texts there are.
ghost use Rattle.std.specs.Prelude.{◌≡◌, get_or};

// How many texts an index is of.
pub fn count_of(index: &[u32]) -> usize
    ensures { result ≡ get_or index.now 0 0 }
{
    index.first().map_or(0, |&n| n as usize)
}
