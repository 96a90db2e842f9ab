// Whether bytes are allowed, whether they are a text, and whether every field from one on is a text.
// Every function takes any content of any length, and its contract says its whole answer by a definition: specs/Text.antt of crate text.
#![tactic(auto)]

mod texts;

pub use texts::{are_allowed, are_texts, is_text};
