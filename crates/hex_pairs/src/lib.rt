// Bytes read from pairs of hexadecimal digits, as a plate stands in a file. specs/Pairs.antt says which bytes a text holds.
// `read_pairs` takes any text and any buffer; its contract says the whole answer and the whole buffer.
#![tactic(auto)]

ghost use Rattle.std.specs.Prelude.{◌≡◌, ◌<◌, List, ℕ, Bool, MatchOption};
ghost use Rattle.output.specs.Pour.{poured};
ghost use Rattle.hex_pairs.specs.Reading.{on_byte, LineRead};
ghost use Rattle.hex_pairs.specs.Pairs.{digit_value, unlabelled, on_pair, pairs_of};

// What reading pairs finds: how many bytes stand before the first fault, and the fault's line, 0 where there is none.
#[derive(Clone, Copy, Debug, PartialEq, Eq)]
pub struct PairsRead {
    pub count: usize,
    pub fault: usize,
}

// The value of a digit; none for any other byte.
fn value(b: u8) -> Option<u8>
    ensures { MatchOption result (digit_value b ≡ 16) (λ v. (v ≡ digit_value b) × (v < 16)) }
{
    match b {
        b'0'..=b'9' => Some(b - b'0'),
        b'A'..=b'F' => Some(b - b'A' + 10),
        b'a'..=b'f' => Some(b - b'a' + 10),
        _ => None,
    }
}

// The byte of two digits; none where one of them is none.
fn byte_of(high: u8, low: u8) -> Option<u8>
    ensures { (rest : List ℕ × Bool) → on_pair (digit_value high) (digit_value low) rest ≡ on_byte result rest }
{
    Some(value(high)? * 16 + value(low)?)
}

// A line without the label in front of it.
fn unlabelled(line: &[u8]) -> &[u8]
    ensures { result.now ≡ unlabelled line.now }
{
    line.strip_prefix(b"plate,").unwrap_or(line)
}

// The bytes of a line's pairs, up to the first fault: where they end, as an error where there is a fault.
fn read_line(out: &mut [u8], at: usize, line: &[u8]) -> Result<usize, usize>
    ensures { LineRead at line.now out.old result out.new }
{
    let mut end = at;
    let mut left = line;
    while let [first, behind @ ..] = left {
        if *first == b' ' {
            left = behind;
            continue;
        }
        let [second, behind @ ..] = behind else {
            return Err(end);
        };
        let Some(byte) = byte_of(*first, *second) else {
            return Err(end);
        };
        end = text_out::put_byte(out, end, byte);
        left = behind;
    }
    Ok(end)
}

// The bytes of a text's pairs, up to the first fault, at the front of the buffer as far as it goes.
pub fn read_pairs(text: &[u8], out: &mut [u8]) -> PairsRead
    ensures out_after { (result.count, out.new) ≡ poured 0 (pairs_of text.now).0 out.old }
    ensures fault_value { result.fault ≡ (pairs_of text.now).1 }
{
    let mut end = 0;
    for (i, line) in text.split(|&b| b == b'\n').enumerate() {
        match read_line(out, end, unlabelled(line)) {
            Ok(next) => end = next,
            Err(count) => {
                return PairsRead {
                    count,
                    fault: i + 1,
                };
            }
        }
    }
    PairsRead {
        count: end,
        fault: 0,
    }
}
