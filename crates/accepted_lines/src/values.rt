// The values of fields that are known to be right, so that they are not judged again. Each reader takes the first field of the line s from the
// place a on.
ghost use Rattle.std.specs.Prelude.{◌≡◌, [], ◌+◌, ◌≤◌, length, drop, get_or};
ghost use Rattle.text.specs.Parts.{comma, parts_from};
ghost use Rattle.decimals.specs.Number.{register, constant, value_from};
ghost use Rattle.lines.specs.Line.{operator};
ghost use Rattle.lines.specs.Known.{HasValue, HasDigits};

use transcript::Op;

// The value of a field, and where the fields behind it begin.
#[derive(Clone, Copy, Debug, PartialEq, Eq)]
pub struct Known<T> {
    pub value: T,
    pub next: usize,
}

// A register with a field behind it: one digit or two, and a comma.
pub fn known_register(s: &[u8], a: usize) -> Known<usize>
    requires { HasValue register (parts_from comma a s.now) × (2 ≤ length (parts_from comma a s.now)) }
    ensures s_value { register (get_or (parts_from comma a s.now) 0 []) ≡ Some result.value }
    ensures s_value_2 { parts_from comma result.next s.now ≡ drop 1 (parts_from comma a s.now) }
{
    let first = usize::from(s[a] - b'0');
    match s[a + 1] {
        b',' => Known {
            value: first,
            next: a + 2,
        },
        b => Known {
            value: first * 10 + usize::from(b - b'0'),
            next: a + 3,
        },
    }
}

// Where the fields behind such a register begin.
pub fn behind_register(s: &[u8], a: usize) -> usize
    requires { HasValue register (parts_from comma a s.now) × (2 ≤ length (parts_from comma a s.now)) }
    ensures { (parts_from comma result s.now ≡ drop 1 (parts_from comma a s.now)) × (result ≤ length s.now) }
{
    if s[a + 1] == b',' { a + 2 } else { a + 3 }
}

// An operator with a field behind it: two letters, and a comma.
pub fn known_operator(s: &[u8], a: usize) -> Op
    requires { HasValue operator (parts_from comma a s.now) × (2 ≤ length (parts_from comma a s.now)) }
    ensures s_value { operator (get_or (parts_from comma a s.now) 0 []) ≡ Some result }
    ensures a_in_bounds { (a + 3 ≤ length s.now) × (parts_from comma (a + 3) s.now ≡ drop 1 (parts_from comma a s.now)) }
{
    match s[a] {
        b'e' => Op::Eq,
        b'n' => Op::Ne,
        b'l' => if s[a + 1] == b't' { Op::Lt } else { Op::Le },
        _ => if s[a + 1] == b't' { Op::Gt } else { Op::Ge },
    }
}

// A number of digits, up to the comma or to the end.
pub fn known_number(s: &[u8], a: usize) -> Known<usize>
    requires { HasDigits (parts_from comma a s.now) × (a ≤ length s.now) }
    ensures value_value { result.value ≡ value_from 0 (get_or (parts_from comma a s.now) 0 []) }
    ensures s_value { parts_from comma result.next s.now ≡ drop 1 (parts_from comma a s.now) }
{
    let mut value = 0;
    for (i, &b) in s[a..].iter().enumerate() {
        if b == b',' {
            return Known {
                value,
                next: a + i + 1,
            };
        }
        value = value * 10 + usize::from(b - b'0');
    }
    Known {
        value,
        next: s.len() + 1,
    }
}

// A constant.
pub fn known_constant(s: &[u8], a: usize) -> Known<i32>
    requires { HasValue constant (parts_from comma a s.now) }
    ensures s_value { constant (get_or (parts_from comma a s.now) 0 []) ≡ Some result.value }
    ensures s_value_2 { parts_from comma result.next s.now ≡ drop 1 (parts_from comma a s.now) }
{
    if s[a] == b'-' {
        let n = known_number(s, a + 1);
        return Known {
            value: !((n.value - 1) as i32),
            next: n.next,
        };
    }
    let n = known_number(s, a);
    Known {
        value: n.value as i32,
        next: n.next,
    }
}
