// One line of a guide or of a listing that is known to have no cause by itself (specs/Clean.antt of crate lines), read again.
// `accepted_line` answers the line's kind with its numbers, as `read_line` of crate line_reader does; `accepted_kind` answers its kind alone;
// `behind_register` answers where the fields behind its register begin.
#![tactic(auto)]

mod accepted;
mod values;

pub use accepted::{accepted_kind, accepted_line};
pub use values::behind_register;
