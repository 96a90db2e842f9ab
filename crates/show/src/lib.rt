// What the program plateshow prints for a guide, with an empty book: the listing of its plate and the plate in hexadecimal, or its refusal.
// specs/Show.antt says the text.
// The guide is translated into a plate of at most 2,953 bytes, which is then read back for its listing of at most 327,680 bytes. Both
// buffers are local and long enough for every guide.
#![tactic(auto)]

mod print;

ghost use Rattle.std.specs.Prelude.{◌≡◌};
ghost use Rattle.output.specs.Pour.{poured};
ghost use Rattle.show.specs.Show.{shown};

use causes::Written;
use causes::limits::{LISTING_BYTES, PLATE_BYTES};
pub use print::{OUTPUT, print_shown};

// What plateshow prints, from the buffer's front on, as far as it goes; and its length.
pub fn show(guide: &[u8], out: &mut [u8]) -> usize
    ensures { (result, out.new) ≡ poured 0 (shown guide.now) out.old }
{
    let mut plate = [0; PLATE_BYTES];
    match translate::translate(guide, b"", &mut plate) {
        Err(r) => printed::put_refused(out, 0, r),
        Ok(length) => {
            let mut listing = [0; LISTING_BYTES];
            match read_plate::read_plate(&plate[..length], b"", &mut listing) {
                // An accepted guide's plate is never refused.
                Err(_) => 0,
                Ok(size) => { print::put_accepted(out, &listing[..size], &plate[..length]) }
            }
        }
    }
}
