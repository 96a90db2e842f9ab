// Parts of a text: lines parted by LF, fields parted by commas.
ghost use Rattle.std.specs.Prelude.{◌≡◌, [], length, drop, get_or};
ghost use Rattle.text.specs.Parts.{same, split, parts_from};

use text::find;

// Whether two slices hold the same bytes.
#[tactic(auto, using(text::proofs::Words::same_is))]
pub fn same(a: &[u8], b: &[u8]) -> bool
    ensures { result ≡ same a.now b.now }
{
    a == b
}

// How many parts there are: one more than bytes x.
#[tactic(auto, using(crate::proofs::Counts::parts_counted))]
pub fn count_parts(s: &[u8], x: u8) -> usize
    ensures { result ≡ length (split x s.now) }
{
    1 + s.iter().filter(|&&b| b == x).count()
}

// Where part k starts; past the text's end where there are not so many.
pub fn part_start(s: &[u8], x: u8, k: usize) -> usize
    ensures { drop k (split x s.now) ≡ parts_from x result s.now }
{
    let mut a = 0;
    for passed in 0..k {
        if s.len() < a {
            return a;
        }
        a = find(s, a, x) + 1;
    }
    a
}

// Part k, or no bytes where there are not so many.
pub fn part(s: &[u8], x: u8, k: usize) -> &[u8]
    ensures { result.now ≡ get_or (split x s.now) k [] }
{
    s.split(|&b| b == x).nth(k).unwrap_or(&[])
}
