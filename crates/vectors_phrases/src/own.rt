// The numbers of own phrases that are lines of a case, of any content.
ghost use Rattle.std.specs.Prelude.{◌≡◌, true, false, ◌+◌, ◌≤◌, ◌<◌, length, take, drop, get_or, set};
ghost use Rattle.phrases.specs.Index.{entries_at, Indexed};
ghost use Rattle.phrases.specs.Own.{own_places, own_sizes, own_number, OwnNumbers};

use phrases::{OWN_PLACES, OWN_SIZES};

// Enters the number of own phrase k, whose text is this one, where that stands at the place; else answers false.
fn enter_at(index: &mut [u32], own: &[u8], k: usize, start: usize, text: &[u8]) -> bool
    requires { entries_at + get_or index.old 0 0 + k < length index.old }
    ensures index_unchanged { result ≡ false → index.new ≡ index.old }
    ensures index_after { result ≡ true → index.new ≡ set index.old (entries_at + get_or index.old 0 0 + k) (own_number start text.now) }
    ensures start_lt_own_places { result ≡ true → (start < own_places) × (length text.now < own_sizes) × (start + length text.now ≤ length own.now) × (take (length text.now) (drop start own.now) ≡ text.now) }
{
    if OWN_PLACES <= start || OWN_SIZES <= text.len() {
        return false;
    }
    let end = start + text.len();
    if own.len() < end || &own[start..end] != text {
        return false;
    }
    phrase_lookup::enter_own(index, k, start, text);
    true
}

// Where the second field of a line starts; where there is none, the line's start.
fn second(own: &[u8], a: usize, e: usize) -> usize {
    if own.len() < a {
        return a;
    }
    let comma = text::find(own, a, b',');
    if comma < e { comma + 1 } else { a }
}

// Enters the numbers of the first `count` lines, at most 64, and answers how many there are.
pub fn enter_lines(index: &mut [u32], book: &[u8], own: &[u8], count: usize) -> usize
    requires { Indexed index.old book.now × (449 ≤ length index.old) }
    ensures { Indexed index.new book.now × OwnNumbers index.new book.now own.now result }
{
    let most = count.min(64);
    let mut a = 0;
    for k in 0..most {
        if own.len() < a {
            return k;
        }
        let e = text::find(own, a, b'\n');
        let text = text_parts::part(&own[a..e], b',', 1);
        if !enter_at(index, own, k, second(own, a, e), text) {
            return k;
        }
        a = e + 1;
    }
    most
}
