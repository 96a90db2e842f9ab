// Instructions, each a 3-bit code and its fields.
ghost use Rattle.std.specs.Prelude.{◌≡◌, [], ◌++◌, ◌≤◌, length, drop, get_or};
ghost use Rattle.causes.specs.Limits.{most_plate_bytes};
ghost use Rattle.output.specs.Pour.{poured};
ghost use Rattle.bits.specs.Bits.{bits_of, bytes_bits};
ghost use Rattle.text.specs.Parts.{split, comma, parts_from};
ghost use Rattle.phrases.specs.Phrases.{Phrases};
ghost use Rattle.transcript.specs.Statement.{input, inputs};
ghost use Rattle.plate.specs.Program.{if_skip};
ghost use Rattle.plate.specs.Writing.{op_code, complement, constant_bits, statement_bits, instruction_bits};

use causes::limits::SKIPS;
use phrase_lookup::Lookup;
use plate::is_short;
use text_bits::{put_text, put_texts};
use transcript::{Op, Test};

// The two's complement of 32 bits. Its lowest 16 bits are that of 16 bits.
fn to_bits(c: i32) -> u32
    ensures { result ≡ complement 32 c }
{
    c.cast_unsigned()
}

// The number of an OP.
fn op_code(op: Op) -> usize
    ensures value { result ≡ op_code op }
    ensures upper_bound { result ≤ 7 }
{
    match op {
        Op::Eq => 0,
        Op::Ne => 1,
        Op::Lt => 2,
        Op::Le => 3,
        Op::Gt => 4,
        Op::Ge => 5,
    }
}

// A question for a number.
pub fn put_input(out: &mut [u8], at: usize, register: usize, text: &[u8], known: &Lookup) -> usize
    requires { length out.old ≤ most_plate_bytes }
    ensures { (result, bytes_bits out.new) ≡ poured at (statement_bits known.now (input register text.now)) (bytes_bits out.old) }
{
    put_text(out, at, 8, register % 32, text, known)
}

// A question with options: the text of an `inputs` line stands from a on, and behind it the options, two or more.
pub fn put_inputs(
    out: &mut [u8],
    at: usize,
    register: usize,
    options: usize,
    line: &[u8],
    a: usize,
    known: &Lookup,
) -> usize
    requires { (length out.old ≤ most_plate_bytes) × (a ≤ length line.now) × (parts_from comma a line.now ≡ drop 2 (split comma line.now)) × (options ≡ length (drop 3 (split comma line.now))) × (2 ≤ options) }
    ensures { (result, bytes_bits out.new) ≡ poured at (statement_bits known.now (inputs register (get_or (split comma line.now) 2 []) (drop 3 (split comma line.now)))) (bytes_bits out.old) }
{
    let front = 32 + register % 32;
    let e = text::find(line, a, b',');
    let mut end = put_text(out, at, 8, front, &line[a..e], known);
    end = bits_out::put_bits(out, end, 3, options - 2);
    put_texts(out, end, line, e + 1, known)
}

// A goto. The phrases do not matter.
pub fn put_goto(out: &mut [u8], at: usize, skip: usize) -> usize
    requires { length out.old ≤ most_plate_bytes }
    ensures { (result, bytes_bits out.new) ≡ poured at (bits_of 3 4 ++ bits_of 9 skip) (bytes_bits out.old) }
{
    bits_out::put_bits(out, at, 12, 2048 + skip % SKIPS)
}

// The fields of an if, of 38 or 54 bits, as one number.
fn put_test(
    out: &mut [u8],
    at: usize,
    register: usize,
    op: usize,
    constant: i32,
    skip: usize,
) -> usize
    requires { op ≤ 7 }
    ensures { (result, bytes_bits out.new) ≡ poured at (bits_of 3 5 ++ bits_of 5 register ++ bits_of 3 op ++ constant_bits constant ++ bits_of 9 skip) (bytes_bits out.old) }
{
    let front = (160 + register % 32) * 8 + op;
    let low = to_bits(constant) as usize;
    if is_short(constant) {
        let value = front * 4 * 65536 + low % 65536;
        return bits_out::put_bits(out, at, 38, value * SKIPS + skip % SKIPS);
    }
    let value = (front * 4 + 1) * 4294967296 + low;
    bits_out::put_bits(out, at, 54, value * SKIPS + skip % SKIPS)
}

// An if. The phrases do not matter.
pub fn put_if(out: &mut [u8], at: usize, test: Test, skip: usize) -> usize
    requires { length out.old ≤ most_plate_bytes }
    ensures { (c : Phrases) → (result, bytes_bits out.new) ≡ poured at (instruction_bits c (if_skip test skip)) (bytes_bits out.old) }
{
    let op = test.op;
    put_test(out, at, test.register, op_code(op), test.constant, skip)
}
