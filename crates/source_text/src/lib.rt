//! Sources of lines: which tokens a line has, what a text says, which line is refused first, and the named items of a source.
#![tactic(auto)]

mod content;
mod names;
mod runs;
mod table;
mod text;
mod tokens;
mod walk;

pub use content::{first_line, without_comment};
pub use names::{Named, NamedList, NotAdded};
pub use runs::{is_name_byte, name_len};
pub use table::{Front, Language, extent, token};
pub use text::{LineLanguage, a_text_says_one_thing};
pub use tokens::{TokenError, reads_what_is_spelled, tokens_of};
pub use walk::{Reader, read_lines};
