// Instructions that are read first, one behind the other.
ghost use Rattle.std.specs.Prelude.{◌≡◌, ◌≤◌, length};
ghost use Rattle.causes.specs.Limits.{most_plate_bytes};
ghost use Rattle.output.specs.Pour.{up_to};
ghost use Rattle.plate.specs.Reading.{many};
ghost use Rattle.plate.specs.Plate.{instruction};
ghost use Rattle.fields.specs.Places.{place_at, field_read, measured};
ghost use Rattle.listing.specs.LineSizes.{lines_room};

use causes::Refusal;
use fields::Field;
use instructions::pass_instruction;
use phrase_lookup::Lookup;

// The room of the lines of n instructions, and the bit behind them.
pub fn pass_instructions(
    plate: &[u8],
    at: usize,
    n: usize,
    known: &Lookup,
) -> Result<Field<usize>, Refusal>
    requires { length plate.now ≤ most_plate_bytes }
    ensures { field_read plate.now result ≡ measured (λ is. up_to (lines_room is)) (many (instruction known.now) n (place_at plate.now at)) }
{
    let mut bit = at;
    let mut room = 0;
    for behind in (0..n).rev() {
        let read = pass_instruction(plate, bit, behind, known)?;
        room = output::sum(room, read.value);
        bit = read.next;
    }
    Ok(Field {
        value: room,
        next: bit,
    })
}
