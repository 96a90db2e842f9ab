// The five calls for C: include/doorplate.h declares them, and `rt lib` makes the archive out/libdoorplate_c.a, which `make library`
// keeps as libdoorplate.a. Each exported function is the call of its name in crate doorplate, and promises what that promises: it has no
// precondition, and the promise holds every field of its answer and the later content of every buffer it was lent.
#![tactic(auto)]

ghost use Rattle.std.specs.Prelude.{◌≡◌, length};
ghost use Rattle.translating.specs.Call.{translate_call};
ghost use Rattle.listing.specs.Calls.{write_plate_call, read_plate_call};
ghost use Rattle.walking.specs.Call.{walk_call};
ghost use Rattle.running.specs.Call.{run_call};
ghost use Rattle.doorplate.specs.Values.{WrittenIs, RanIs};

use doorplate::{RanValues, WrittenValues};

// The plate of a guide.
#[unsafe(no_mangle)]
pub extern "C" fn doorplate_translate(guide: &[u8], book: &[u8], plate: &mut [u8]) -> WrittenValues
    ensures { WrittenIs result plate.new (translate_call guide.now book.now plate.old) }
{
    doorplate::doorplate_translate(guide, book, plate)
}

// The plate of a listing.
#[unsafe(no_mangle)]
pub extern "C" fn doorplate_write_plate(
    listing: &[u8],
    book: &[u8],
    plate: &mut [u8],
) -> WrittenValues
    ensures { WrittenIs result plate.new (write_plate_call listing.now book.now plate.old) }
{
    doorplate::doorplate_write_plate(listing, book, plate)
}

// The listing of a plate.
#[unsafe(no_mangle)]
pub extern "C" fn doorplate_read_plate(
    plate: &[u8],
    book: &[u8],
    listing: &mut [u8],
) -> WrittenValues
    ensures { WrittenIs result listing.new (read_plate_call plate.now book.now listing.old) }
{
    doorplate::doorplate_read_plate(plate, book, listing)
}

// The transcript of a guide, walked on the answers.
#[unsafe(no_mangle)]
pub extern "C" fn doorplate_walk(
    guide: &[u8],
    book: &[u8],
    answers: &[i32],
    transcript: &mut [u8],
) -> RanValues
    ensures { RanIs result transcript.new (walk_call guide.now book.now answers.now transcript.old) }
{
    doorplate::doorplate_walk(guide, book, answers, transcript)
}

// The transcript of a plate, run on the answers.
#[unsafe(no_mangle)]
pub extern "C" fn doorplate_run(
    plate: &[u8],
    book: &[u8],
    answers: &[i32],
    scratch: &mut [u16],
    transcript: &mut [u8],
) -> RanValues
    ensures ran_is { RanIs result transcript.new (run_call plate.now book.now answers.now (length scratch.old) transcript.old) }
    ensures scratch_unchanged { scratch.new ≡ scratch.old }
{
    doorplate::doorplate_run(plate, book, answers, scratch, transcript)
}
