// The bits behind the last instruction.
ghost use Rattle.std.specs.Prelude.{◌≡◌, ◌≤◌, length};
ghost use Rattle.causes.specs.Limits.{most_plate_bytes};
ghost use Rattle.fields.specs.Places.{place_at};
ghost use Rattle.reader.specs.Filled.{is_filling};

// Whether fewer than 8 bits are left from a bit on, all of them zero.
pub fn is_filled(plate: &[u8], at: usize) -> bool
    requires { length plate.now ≤ most_plate_bytes }
    ensures { result ≡ is_filling (place_at plate.now at).left }
{
    let left = (plate.len() * 8).saturating_sub(at);
    left < 8 && bits_in::read_number(plate, at, left).is_some_and(|value| value == 0)
}
