// The lines of the own phrases, each written at the front of the listing's unwritten tail.
ghost use Rattle.std.specs.Prelude.{◌≡◌, [], ◌∷◌, map};
ghost use Rattle.output.specs.Pour.{poured};
ghost use Rattle.listing.specs.Listing.{phrase_fields, lines_text};

use phrase_lookup::Lookup;
use phrases::Found;

// `phrase,TEXT`, at the front of the tail.
fn put_phrase(text: &[u8], tail: &mut [u8]) -> usize
    ensures { (result, tail.new) ≡ poured 0 (lines_text (phrase_fields text.now ∷ [])) tail.old }
{
    let end = text_out::put(tail, 0, b"phrase,");
    let end = text_out::put(tail, end, text);
    text_out::put_byte(tail, end, b'\n')
}

// The line at a place of the listing: its tail from there on, which is empty past the buffer's end, takes it.
fn phrase_at(text: &[u8], out: &mut [u8], at: usize) -> usize
    ensures { (result, out.new) ≡ poured at (lines_text (phrase_fields text.now ∷ [])) out.old }
{
    let from = output::least(at, out.len());
    let n = put_phrase(text, &mut out[from..]);
    output::sum(at, n)
}

// The lines of all own phrases.
pub fn put_phrases(known: &Lookup, out: &mut [u8], at: usize) -> usize
    ensures { (result, out.new) ≡ poured at (lines_text (map phrase_fields known.now.own)) out.old }
{
    let mut end = at;
    for k in 0..known.own_count() {
        end = phrase_at(known.text(Found::InOwn(k)), out, end);
    }
    end
}
