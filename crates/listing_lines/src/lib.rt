// The lines of instructions, each written at the front of the listing's unwritten tail.
// Crate listing's specs/Listing.antt says which line an instruction is. An instruction is read from its bits on a plate that was accepted: its
// head first, and then each text is copied from the plate into its line. A line is stored as far as the tail goes, and counted to its end.
#![tactic(auto)]

mod field;

ghost use Rattle.std.specs.Prelude.{◌≡◌, [], ◌∷◌, ◌++◌, ◌≤◌, ◌<◌, length};
ghost use Rattle.causes.specs.Limits.{most_plate_bytes, skips};
ghost use Rattle.output.specs.Pour.{poured};
ghost use Rattle.text.specs.Parts.{comma, LF};
ghost use Rattle.decimals.specs.Number.{decimalℕ};
ghost use Rattle.plate.specs.Reading.{got};
ghost use Rattle.plate.specs.Plate as reader;
ghost use Rattle.plate.specs.Program.{goto, if_skip};
ghost use Rattle.fields.specs.Places.{place_at, end_with, values_of, Known};
ghost use Rattle.instructions.specs.declared.Head.TheVariants as heads;
ghost use Rattle.instructions.specs.Heads.{headed, instruction_of};
ghost use Rattle.listing.specs.Listing.{instruction_fields, lines_text};

use crate::field::{put_constant, put_natural, put_operator};
use fields::Copied;
use instructions::{Head, accepted_head, accepted_if};
use phrase_lookup::Lookup;
use plate_texts::{copy_options, copy_text};
use transcript::Test;

// `print,TEXT` or `printex,TEXT`: the word with its comma, the text, and LF.
fn put_text_line(plate: &[u8], at: usize, known: &Lookup, word: &[u8], tail: &mut [u8]) -> Copied
    requires { (length plate.now ≤ most_plate_bytes) × Known (reader.text known.now (place_at plate.now at)) }
    ensures tail_after { (result.end, tail.new) ≡ poured 0 ((word.now ++ values_of (reader.text known.now (place_at plate.now at))) ++ (LF ∷ [])) tail.old }
    ensures next_value { got 0 (place_at plate.now result.next) ≡ end_with 0 (reader.text known.now (place_at plate.now at)) }
{
    let text_at = text_out::put(tail, 0, word);
    let copied = copy_text(plate, at, known, tail, text_at);
    let end = text_out::put_byte(tail, copied.end, b'\n');
    Copied {
        end,
        next: copied.next,
    }
}

// A question's register, a comma and its text, behind the word of the line.
fn put_question(
    plate: &[u8],
    at: usize,
    known: &Lookup,
    register: usize,
    tail: &mut [u8],
    from: usize,
) -> Copied
    requires { (length plate.now ≤ most_plate_bytes) × (register < 32) × Known (reader.text known.now (place_at plate.now at)) }
    ensures tail_after { (result.end, tail.new) ≡ poured from (decimalℕ register ++ (comma ∷ values_of (reader.text known.now (place_at plate.now at)))) tail.old }
    ensures next_value { got 0 (place_at plate.now result.next) ≡ end_with 0 (reader.text known.now (place_at plate.now at)) }
{
    let end = text_out::put_natural(tail, from, register);
    let text_at = text_out::put_byte(tail, end, b',');
    copy_text(plate, at, known, tail, text_at)
}

// `input,R,TEXT`.
fn put_input(plate: &[u8], at: usize, known: &Lookup, register: usize, tail: &mut [u8]) -> Copied
    requires { (length plate.now ≤ most_plate_bytes) × (register < 32) × Known (headed plate.now known.now (heads.Input register at)) }
    ensures tail_after { (result.end, tail.new) ≡ poured 0 (lines_text (instruction_fields (instruction_of (headed plate.now known.now (heads.Input register at))) ∷ [])) tail.old }
    ensures next_value { got 0 (place_at plate.now result.next) ≡ end_with 0 (headed plate.now known.now (heads.Input register at)) }
{
    let from = text_out::put(tail, 0, b"input,");
    let asked = put_question(plate, at, known, register, tail, from);
    let end = text_out::put_byte(tail, asked.end, b'\n');
    Copied {
        end,
        next: asked.next,
    }
}

// `inputs,R,TEXT,OPTION,..`.
fn put_inputs(plate: &[u8], at: usize, known: &Lookup, register: usize, tail: &mut [u8]) -> Copied
    requires { (length plate.now ≤ most_plate_bytes) × (register < 32) × Known (headed plate.now known.now (heads.Inputs register at)) }
    ensures tail_after { (result.end, tail.new) ≡ poured 0 (lines_text (instruction_fields (instruction_of (headed plate.now known.now (heads.Inputs register at))) ∷ [])) tail.old }
    ensures next_value { got 0 (place_at plate.now result.next) ≡ end_with 0 (headed plate.now known.now (heads.Inputs register at)) }
{
    let from = text_out::put(tail, 0, b"inputs,");
    let asked = put_question(plate, at, known, register, tail, from);
    let offered = copy_options(plate, asked.next, known, tail, asked.end);
    let end = text_out::put_byte(tail, offered.end, b'\n');
    Copied {
        end,
        next: offered.next,
    }
}

// `goto,SKIP`.
fn put_goto(skip: usize, tail: &mut [u8]) -> usize
    requires { skip < skips }
    ensures { (result, tail.new) ≡ poured 0 (lines_text (instruction_fields (goto skip) ∷ [])) tail.old }
{
    let skip_at = text_out::put(tail, 0, b"goto");
    let end = put_natural(tail, skip_at, skip);
    text_out::put_byte(tail, end, b'\n')
}

// `if,R,OP,C,SKIP`.
fn put_if(test: Test, skip: usize, tail: &mut [u8]) -> usize
    requires { (test.register < 32) × (skip < skips) }
    ensures { (result, tail.new) ≡ poured 0 (lines_text (instruction_fields (if_skip test skip) ∷ [])) tail.old }
{
    let end = text_out::put(tail, 0, b"if");
    let end = put_natural(tail, end, test.register);
    let end = put_operator(tail, end, test.op);
    let end = put_constant(tail, end, test.constant);
    let end = put_natural(tail, end, skip);
    text_out::put_byte(tail, end, b'\n')
}

// The line of the instruction at a bit, and the bit behind it.
pub fn put_instruction(
    plate: &[u8],
    at: usize,
    behind: usize,
    known: &Lookup,
    tail: &mut [u8],
) -> Copied
    requires { (length plate.now ≤ most_plate_bytes) × Known (reader.instruction known.now behind (place_at plate.now at)) }
    ensures tail_after { (result.end, tail.new) ≡ poured 0 (lines_text (instruction_fields (instruction_of (reader.instruction known.now behind (place_at plate.now at))) ∷ [])) tail.old }
    ensures next_value { got 0 (place_at plate.now result.next) ≡ end_with 0 (reader.instruction known.now behind (place_at plate.now at)) }
{
    match accepted_head(plate, at) {
        Head::Input { register, text } => put_input(plate, text, known, register, tail),
        Head::Inputs { register, text } => put_inputs(plate, text, known, register, tail),
        Head::Print { text } => put_text_line(plate, text, known, b"print,", tail),
        Head::Printex { text } => put_text_line(plate, text, known, b"printex,", tail),
        Head::Goto { skip, next } => Copied {
            end: put_goto(skip, tail),
            next,
        },
        Head::IfSkip { bit, ahead } => {
            let read = accepted_if(plate, bit, ahead);
            Copied {
                end: put_if(read.test, read.skip, tail),
                next: read.next,
            }
        }
    }
}
