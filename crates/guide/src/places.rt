// The lines of a guide by their place in its text.
ghost use Rattle.std.specs.Prelude.{◌≡◌, true, ◌≤◌, length, drop};
ghost use Rattle.lines.specs.declared.Form.TheVariants.{Guide as a_guide};
ghost use Rattle.lines.specs.Line.{line_of};
ghost use Rattle.lines.specs.Clean.{is_clean, Clean};
ghost use Rattle.guide.specs.Lines.{role_of, lines_at, pass, Reads, LineAt};

use crate::roles::{open_behind, role_of, role_of_kind, stops};
use crate::{Here, LineRole, Role};
use lines::Form;

// The line at the place a, if there is one.
pub fn line_at(guide: &[u8], a: usize) -> Option<Here>
    requires { (a ≤ length guide.now) × Clean a_guide (drop a guide.now) }
    ensures { LineAt guide.now a result }
{
    let end = text::find(guide, a, b'\n');
    if end == guide.len() {
        return None;
    }
    let head = accepted_lines::accepted_line(Form::Guide, &guide[a..end]);
    Some(Here {
        role: role_of(head),
        head,
        start: a,
        end,
        next: end + 1,
    })
}

// The role of a line that is no fault: its kind tells it.
fn role_in(line: &[u8]) -> Role
    requires { is_clean (line_of a_guide line.now) ≡ true }
    ensures { result ≡ role_of (line_of a_guide line.now) }
{
    role_of_kind(accepted_lines::accepted_kind(line))
}

// The role of the line at the place a.
pub fn role_at(guide: &[u8], a: usize) -> LineRole
    requires { (a ≤ length guide.now) × Clean a_guide (drop a guide.now) }
    ensures { Reads guide.now a result.role result.next }
{
    let end = text::find(guide, a, b'\n');
    if end == guide.len() {
        return LineRole {
            role: Role::Nothing,
            next: end,
        };
    }
    LineRole {
        role: role_in(&guide[a..end]),
        next: end + 1,
    }
}

// Where the block that begins at a ends: its lines are not walked.
pub fn pass_over(guide: &[u8], a: usize) -> usize
    requires { (a ≤ length guide.now) × Clean a_guide (drop a guide.now) }
    ensures result_value { lines_at guide.now result ≡ pass 0 (lines_at guide.now a) }
    ensures lower_bound { (a ≤ result) × (result ≤ length guide.now) × Clean a_guide (drop result guide.now) }
{
    let mut at = a;
    let mut depth = 0;
    loop {
        let h = role_at(guide, at);
        if stops(h.role, depth) {
            return at;
        }
        depth = open_behind(h.role, depth);
        at = h.next;
    }
}
