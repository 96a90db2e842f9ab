// Demand 2 on the calls: a listing that was written as a plate and read back is the same listing, and a plate that was read and
// written again is the same plate, with the book, and with buffers of any length.
// specs/RoundTrips.antt says what is claimed. The functions compose the two calls, and their contracts stand on the calls' own promises.
#![tactic(auto)]

ghost use Rattle.std.specs.Prelude.{◌≡◌};
ghost use Rattle.causes.specs.Answers.{written_answer};
ghost use Rattle.listing.specs.Calls.{write_plate_call, read_plate_call};
ghost use Rattle.round_trips.specs.RoundTrips.{write_then_read, read_then_write};

use causes::Written;

// A listing is written as a plate into one buffer, and the bytes written are read back into the other.
pub fn write_and_read(listing: &[u8], book: &[u8], plate: &mut [u8], again: &mut [u8]) -> Written
    ensures again_after { (written_answer result, again.new) ≡ write_then_read listing.now book.now plate.old again.old }
    ensures plate_after { plate.new ≡ (write_plate_call listing.now book.now plate.old).1 }
{
    let length = write_plate::write_plate(listing, book, plate)?;
    read_plate::read_plate(&plate[..length], book, again)
}

// A plate is read as a listing into one buffer, and the bytes written are made a plate again in the other.
pub fn read_and_write(plate: &[u8], book: &[u8], listing: &mut [u8], again: &mut [u8]) -> Written
    ensures again_after { (written_answer result, again.new) ≡ read_then_write plate.now book.now listing.old again.old }
    ensures listing_after { listing.new ≡ (read_plate_call plate.now book.now listing.old).1 }
{
    let length = read_plate::read_plate(plate, book, listing)?;
    write_plate::write_plate(&listing[..length], book, again)
}
