// Numbers in decimal, read from a field.
ghost use Rattle.std.specs.Prelude.{◌≡◌};
ghost use Rattle.decimals.specs.Number.{natural, constant};

// A number from 0 to the limit. The value is tested after each digit, so that digits of any length stay in 64 bits.
pub fn read_natural(s: &[u8], limit: u32) -> Option<u32>
    ensures { result ≡ natural limit s.now }
{
    if let [] | [b'0', _, ..] = s {
        return None;
    }
    let mut value: u64 = 0;
    for b in s {
        if !b.is_ascii_digit() {
            return None;
        }
        value = value * 10 + u64::from(b - b'0');
        if u64::from(limit) < value {
            return None;
        }
    }
    Some(value as u32)
}

// A constant: a number up to 2147483647, or a minus and one from 1 to 2147483648.
pub fn read_constant(s: &[u8]) -> Option<i32>
    ensures { result ≡ constant s.now }
{
    match s {
        [] => None,
        [b'-', digits @ ..] => match read_natural(digits, 2147483648)? {
            0 => None,
            n => Some(!((n - 1) as i32)),
        },
        _ => Some(read_natural(s, 2147483647)? as i32),
    }
}
