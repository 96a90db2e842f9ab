// The head of an instruction of a plate that was read before: what stands in front of its texts. Nothing is judged again.
ghost use Rattle.std.specs.Prelude.{◌≡◌, ℕ, ◌+◌, ◌*◌, ◌≤◌, ◌<◌, length};
ghost use Rattle.causes.specs.Limits.{most_plate_bits, most_plate_bytes, skips};
ghost use Rattle.bits.specs.Ahead.{ahead_in, part_ahead};
ghost use Rattle.phrases.specs.Phrases.{Phrases};
ghost use Rattle.plate.specs.Program.{if_skip};
ghost use Rattle.plate.specs.Reading.{got};
ghost use Rattle.plate.specs.Plate.{signed, fields_by, instruction};
ghost use Rattle.fields.specs.Places.{place_at, end_with, Known};
ghost use Rattle.instructions.specs.Heads.{headed, HeadFits};

use crate::{Head, IfRead};
use phrase_lookup::Lookup;
use plate_constants::{long_constant, op_of, short_constant};
use plate_texts::{copy_options, copy_text};
use transcript::{Op, Test};

// An if with a constant of 32 bits, whose upper half was read: the lower half and the skip are 25 bits more.
fn long_if(plate: &[u8], at: usize, register: usize, op: Op, high: usize) -> IfRead
    requires { (length plate.now ≤ most_plate_bytes) × (at ≤ most_plate_bits) × (high < 65536) }
    ensures register_value { (result.test.register ≡ register) × (result.test.op ≡ op) × (result.test.constant ≡ signed 32 (high * 65536 + part_ahead 0 16 (ahead_in plate.now (at + 29)))) }
    ensures skip_value { (result.skip ≡ part_ahead 16 9 (ahead_in plate.now (at + 29))) × (result.next ≡ at + 54) }
{
    let lower = bits_ahead::read_ahead(plate, at + 29);
    let constant = long_constant(high * 65536 + bits_ahead::part_ahead(lower, 0, 16));
    let test = Test {
        register,
        op,
        constant,
    };
    IfRead {
        test,
        skip: bits_ahead::part_ahead(lower, 16, 9),
        next: at + 54,
    }
}

// An if that was read before, at its bit, with the 25 bits that were read ahead there: its register, OP and the code of its constant lie in
// these. A short constant and the skip are 25 bits more.
pub fn accepted_if(plate: &[u8], at: usize, ahead: usize) -> IfRead
    requires { (length plate.now ≤ most_plate_bytes) × (at ≤ most_plate_bits) × (ahead ≡ ahead_in plate.now at) }
    ensures next_value { (c : Phrases) (behind : ℕ) → Known (fields_by c behind 5 (place_at plate.now (at + 3))) → got (if_skip result.test result.skip) (place_at plate.now result.next) ≡ fields_by c behind 5 (place_at plate.now (at + 3)) }
    ensures register_bound { (result.test.register < 32) × (result.skip < skips) }
{
    let register = bits_ahead::part_ahead(ahead, 3, 5);
    let op = op_of(bits_ahead::part_ahead(ahead, 8, 3));
    let behind = bits_ahead::read_ahead(plate, at + 13);
    let first = bits_ahead::part_ahead(behind, 0, 16);
    if bits_ahead::part_ahead(ahead, 11, 2) != 0 {
        return long_if(plate, at, register, op, first);
    }
    let constant = short_constant(first);
    let test = Test {
        register,
        op,
        constant,
    };
    IfRead {
        test,
        skip: bits_ahead::part_ahead(behind, 16, 9),
        next: at + 38,
    }
}

// The head of an instruction: its code, and the fields in front of its texts, but those of an if.
pub fn accepted_head(plate: &[u8], at: usize) -> Head
    requires { (length plate.now ≤ most_plate_bytes) × (at ≤ most_plate_bits) }
    ensures result_value { (c : Phrases) (behind : ℕ) → Known (instruction c behind (place_at plate.now at)) → headed plate.now c result ≡ instruction c behind (place_at plate.now at) }
    ensures head_fits { HeadFits plate.now result }
{
    let ahead = bits_ahead::read_ahead(plate, at);
    match bits_ahead::part_ahead(ahead, 0, 3) {
        0 => Head::Input {
            register: bits_ahead::part_ahead(ahead, 3, 5),
            text: at + 8,
        },
        1 => Head::Inputs {
            register: bits_ahead::part_ahead(ahead, 3, 5),
            text: at + 8,
        },
        2 => Head::Print { text: at + 3 },
        3 => Head::Printex { text: at + 3 },
        4 => Head::Goto {
            skip: bits_ahead::part_ahead(ahead, 3, 9),
            next: at + 12,
        },
        _ => Head::IfSkip { bit: at, ahead },
    }
}

// The bit behind an instruction that was read before.
pub fn accepted_end(plate: &[u8], at: usize, behind: usize, known: &Lookup) -> usize
    requires { (length plate.now ≤ most_plate_bytes) × Known (instruction known.now behind (place_at plate.now at)) }
    ensures { got 0 (place_at plate.now result) ≡ end_with 0 (instruction known.now behind (place_at plate.now at)) }
{
    match accepted_head(plate, at) {
        Head::Input { text, .. } | Head::Print { text } | Head::Printex { text } => {
            copy_text(plate, text, known, &mut [], 0).next
        }
        Head::Inputs { text, .. } => {
            let options = copy_text(plate, text, known, &mut [], 0).next;
            copy_options(plate, options, known, &mut [], 0).next
        }
        Head::Goto { next, .. } => next,
        Head::IfSkip { bit, ahead } => accepted_if(plate, bit, ahead).next,
    }
}
