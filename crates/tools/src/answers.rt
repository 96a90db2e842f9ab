// Answers from the arguments.
ghost use Rattle.std.specs.Prelude.{◌≤◌, length, IfSome};

use crate::telling::tell_number;
use printed::front;
use std::env::{Env, FillError};

// Whether there is an argument i. Argument 0 is the program's name.
fn has_argument(rt: &impl Env, i: usize) -> bool {
    !matches!(rt.arg(i, &mut []), Err(FillError::NotPresent))
}

// How many arguments there are, the program's name among them, as far as `most`. No contract can say what the arguments are.
pub fn argument_count(rt: &impl Env, most: usize) -> usize
    ensures { result ≤ most }
{
    (0..most).take_while(|i| has_argument(rt, *i)).count()
}

// The answers from argument `from` on, by the number rules of a guide's constants. Those that have no room are read too, and left out.
pub fn read_answers(rt: &HostRuntime, from: usize, space: &mut [i32]) -> Option<usize>
    ensures { IfSome result (λ n. n ≤ length space.new) }
{
    let mut count = 0;
    for i in from..usize::MAX {
        if !has_argument(rt, i) {
            break;
        }
        let Some(answer) = read_answer(rt, i) else {
            tell_number(
                rt,
                "argument ",
                i,
                ": not a number from -2147483648 to 2147483647",
            );
            return None;
        };
        if let Some(place) = space.get_mut(count) {
            *place = answer;
            count += 1;
        }
    }
    Some(count)
}

// The number of argument i. A longer argument than the longest number is none.
fn read_answer(rt: &impl Env, i: usize) -> Option<i32> {
    let mut word = [0; 16];
    let length = rt.arg(i, &mut word).ok()?;
    decimals::read_constant(front(&word, length))
}
