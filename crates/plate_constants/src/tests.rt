// The test of an if: a register, how it is compared, and a constant.
ghost use Rattle.std.specs.Prelude.{◌≡◌, ◌≤◌, length};
ghost use Rattle.causes.specs.Limits.{most_plate_bytes};
ghost use Rattle.plate.specs.Plate.{op_of, test};
ghost use Rattle.fields.specs.Places.{place_at, field_read};

use crate::constant::read_constant;
use causes::{Cause, Refusal};
use fields::{Field, read_field, read_plain};
use transcript::{Op, Test};

// eq 0 to ge 5.
pub fn op_of(code: usize) -> Op
    ensures { result ≡ op_of code }
{
    match code {
        0 => Op::Eq,
        1 => Op::Ne,
        2 => Op::Lt,
        3 => Op::Le,
        4 => Op::Gt,
        _ => Op::Ge,
    }
}

// R, OP and C.
pub fn read_test(plate: &[u8], at: usize) -> Result<Field<Test>, Refusal>
    requires { length plate.now ≤ most_plate_bytes }
    ensures { field_read plate.now result ≡ test (place_at plate.now at) }
{
    let register = read_plain(plate, at, 5)?;
    let code = read_field(plate, register.next, 3, 5, Cause::Unused)?;
    let constant = read_constant(plate, code.next)?;
    let test = Test {
        register: register.value,
        op: op_of(code.value),
        constant: constant.value,
    };
    Ok(Field {
        value: test,
        next: constant.next,
    })
}
