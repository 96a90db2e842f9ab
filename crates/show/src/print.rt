// What is printed of a guide.
ghost use Rattle.std.specs.Prelude.{◌≡◌, ◌++◌};
ghost use Rattle.output.specs.Pour.{pour, poured};
ghost use Rattle.printed.specs.Lines.{plate_line};
ghost use Rattle.show.specs.Show.{shown};

use std::io;

// More than is ever printed, which is at most 333,593 bytes.
pub const OUTPUT: usize = 340000;

// The listing, then `plate,` and the bytes.
pub fn put_accepted(out: &mut [u8], listing: &[u8], plate: &[u8]) -> usize
    ensures { (result, out.new) ≡ poured 0 (listing.now ++ plate_line plate.now) out.old }
{
    let end = text_out::put(out, 0, listing);
    printed::put_plate(out, end, plate)
}

// Prints what is shown for a guide, from the front of the lent space, where it stands afterwards.
pub fn print_shown(rt: &impl Print, guide: &[u8], out: &mut [u8; OUTPUT]) -> io::Result<()>
    ensures { out.new ≡ pour 0 (shown guide.now) out.old }
{
    let length = crate::show(guide, out);
    rt.write_all(&out[..length])
}
