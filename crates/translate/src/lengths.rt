// The length of blocks in instructions, and the skips of the instructions in them.
ghost use Rattle.std.specs.Prelude.{◌≡◌, ◌+◌, ◌≤◌, ◌<◌, length, drop};
ghost use Rattle.lines.specs.declared.Form.TheVariants.{Guide as a_guide};
ghost use Rattle.lines.specs.Clean.{Clean};
ghost use Rattle.guide.specs.Lines.{lines_at};
ghost use Rattle.translate.specs.Lengths.{if_by, statement_length, block_length, CountsFrom, Passed};

use crate::table::store;
use guide::Role;

// A block or a statement: its instructions, and the place where it ends, which for a block is that of its else, its fi or the end.
#[derive(Clone, Copy)]
pub struct Length {
    pub instructions: usize,
    pub end: usize,
}

fn is_if(role: Role) -> bool
    ensures { result ≡ if_by role }
{
    matches!(role, Role::If)
}

// The block that begins at a. The skips of its instructions are stored from the number `first` on.
#[cycle(block_length_statement_length)]
pub fn block_length(guide: &[u8], a: usize, skips: &mut [u16], first: usize) -> Length
    requires { (first + length (lines_at guide.now a) < 65536) × (a ≤ length guide.now) × Clean a_guide (drop a guide.now) }
    ensures counts_from { CountsFrom guide.now a first skips.old result (λ n. block_length n (lines_at guide.now a)) skips.new }
    ensures passed { Passed guide.now (length (lines_at guide.now a)) result }
{
    let mut instructions = 0;
    let mut at = a;
    loop {
        let h = guide::role_at(guide, at);
        let role = h.role;
        if guide::begins(role) {
            let s = statement_length(guide, role, h.next, skips, first + instructions);
            instructions += s.instructions;
            at = s.end;
        } else {
            return Length {
                instructions,
                end: at,
            };
        }
    }
}

// The statement or the if whose line has this role, the next line being at `next`: an if goes up to the place behind its fi. Its first
// instruction has the number `first`.
#[cycle(block_length_statement_length)]
fn statement_length(
    guide: &[u8],
    role: Role,
    next: usize,
    skips: &mut [u16],
    first: usize,
) -> Length
    requires { (first + 1 + length (lines_at guide.now next) < 65536) × (next ≤ length guide.now) × Clean a_guide (drop next guide.now) }
    ensures counts_from { CountsFrom guide.now next first skips.old result (λ n. statement_length (if_by role) (block_length n) (lines_at guide.now next)) skips.new }
    ensures instructions_nonzero { (0 < result.instructions) × Passed guide.now (1 + length (lines_at guide.now next)) result }
{
    if is_if(role) {
        let t = block_length(guide, next, skips, first + 1);
        let last = guide::role_at(guide, t.end);
        let other = last.role;
        if guide::is_else(other) {
            let goto = first + 1 + t.instructions;
            let e = block_length(guide, last.next, skips, goto + 1);
            let fi = guide::role_at(guide, e.end);
            store(skips, goto, e.instructions);
            store(skips, first, t.instructions + 1);
            return Length {
                instructions: t.instructions + e.instructions + 2,
                end: fi.next,
            };
        }
        store(skips, first, t.instructions);
        return Length {
            instructions: t.instructions + 1,
            end: last.next,
        };
    }
    store(skips, first, 0);
    Length {
        instructions: 1,
        end: next,
    }
}
