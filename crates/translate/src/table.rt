// The table of skips: a number for each instruction of the guide, at the instruction's number.
ghost use Rattle.std.specs.Prelude.{◌≡◌, [], ◌∷◌, ◌<◌};
ghost use Rattle.output.specs.Pour.{pour};

// The skip of an instruction is stored, where the table has a place for it.
pub fn store(skips: &mut [u16], number: usize, skip: usize)
    requires { skip < 65536 }
    ensures { skips.new ≡ pour number (skip ∷ []) skips.old }
{
    if number < skips.len() {
        skips[number] = skip as u16;
    }
}
