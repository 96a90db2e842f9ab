// The numbers of the own phrases, entered behind the index of the book.
ghost use Rattle.std.specs.Prelude.{◌≡◌};
ghost use Rattle.lines.specs.declared.Head.TheVariants as heads;
ghost use Rattle.check_lines.specs.Numbers.{entered, Enters};

use lines::Head;

// Enters the number of own phrase k, where the line from a to e is a phrase: its text stands behind the word and the comma.
pub fn enter_phrase(index: &mut [u32], text: &[u8], head: Head, k: usize, a: usize, e: usize)
    requires { head ≡ heads.Phrase → Enters k a e text.now index.old }
    ensures { index.new ≡ entered head k a e text.now index.old }
{
    if let Head::Phrase = head {
        let start = a + 7;
        phrase_lookup::enter_own(index, k, start, &text[start..e]);
    }
}
