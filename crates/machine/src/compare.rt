// The test of an if.
ghost use Rattle.std.specs.Prelude.{◌≡◌, List, ◌<◌, ℤ};
ghost use Rattle.transcript.specs.Statement as statement;
ghost use Rattle.transcript.specs.Perform as perform;
ghost use Rattle.transcript.specs.declared.Machine.{Machine};
ghost use Rattle.transcript.specs.Machine.{machine_state};

use transcript::{Op, Test};

// Whether a value and a constant compare as the operator says.
pub fn compares(op: Op, value: i32, constant: i32) -> bool
    ensures { result ≡ statement.compares op value constant }
{
    match op {
        Op::Eq => value == constant,
        Op::Ne => value != constant,
        Op::Lt => value < constant,
        Op::Le => value <= constant,
        Op::Gt => value > constant,
        Op::Ge => value >= constant,
    }
}

// Whether the test of an if holds. Nothing but the registers makes a difference to it.
pub fn holds(registers: &[i32; 32], test: Test) -> bool
    requires { test.register < 32 }
    ensures { (answers : List ℤ) (m : Machine) → result ≡ perform.holds test (machine_state registers.now answers m) }
{
    compares(test.op, registers[test.register], test.constant)
}
