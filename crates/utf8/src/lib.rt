// Well-formed UTF-8: a letter's first byte says how many bytes are due behind it, and in which range the next one lies.
// The functions take any content of any length, and each contract says the whole answer by a definition of specs/.
#![tactic(auto)]

ghost use Rattle.std.specs.Prelude.{◌≡◌, List, ◌∷◌, ℕ};
ghost use Rattle.text.specs.Parts.{all};
ghost use Rattle.text.specs.Utf8.{letters, begins, letters_behind, well_formed, ascii};
ghost use Rattle.utf8.specs.Due.{due_of, step_of, on_step};

// The bytes due: how many, and the range of the next one. Those behind it are tails.
#[derive(Clone, Copy, Debug, PartialEq, Eq)]
pub struct Due {
    pub count: usize,
    pub least: u8,
    pub most: u8,
}

// What a letter's first byte calls for; none where no letter begins so. A row takes the bytes up to its last that no row above it took: with
// ranges alone the rows are made into a jump for each letter, which took a quarter more time on letters beyond ASCII.
fn begin(b: u8) -> Option<Due>
    ensures { begins letters b ≡ step_of result }
{
    let (count, least, most) = match b {
        b if b <= 0x7F => (0, 0x80, 0xBF),
        b if b <= 0xC1 => return None,
        b if b <= 0xDF => (1, 0x80, 0xBF),
        0xE0 => (2, 0xA0, 0xBF),
        b if b <= 0xEC => (2, 0x80, 0xBF),
        0xED => (2, 0x80, 0x9F),
        b if b <= 0xEF => (2, 0x80, 0xBF),
        0xF0 => (3, 0x90, 0xBF),
        b if b <= 0xF3 => (3, 0x80, 0xBF),
        0xF4 => (3, 0x80, 0x8F),
        _ => return None,
    };
    Some(Due { count, least, most })
}

// What is due behind the byte b; none where it may not stand there.
fn follow(due: Due, b: u8) -> Option<Due>
    ensures { (s : List ℕ) → letters_behind (due_of due) (b ∷ s) ≡ on_step result s }
{
    if due.count == 0 {
        begin(b)
    } else if due.least <= b && b <= due.most {
        Some(Due {
            count: due.count - 1,
            least: 0x80,
            most: 0xBF,
        })
    } else {
        None
    }
}

// Whether all bytes are ASCII.
#[tactic(auto, using(text::proofs::Words::all_is))]
pub fn is_ascii(s: &[u8]) -> bool
    ensures { result ≡ all ascii s.now }
{
    s.is_ascii()
}

// Whether bytes are well-formed UTF-8. Most are ASCII, which is told sooner than by what is due behind each byte.
pub fn well_formed(s: &[u8]) -> bool
    ensures { result ≡ well_formed s.now }
{
    is_ascii(s) || are_letters(s)
}

// Whether bytes are whole letters.
fn are_letters(s: &[u8]) -> bool
    ensures { result ≡ well_formed s.now }
{
    let mut due = Due {
        count: 0,
        least: 0x80,
        most: 0xBF,
    };
    for &b in s {
        let Some(next) = follow(due, b) else {
            return false;
        };
        due = next;
    }
    due.count == 0
}
