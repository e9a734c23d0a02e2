//! The commands over programs of IJVM and of Tiny, from a file or generated.
#![tactic(auto)]

mod assemble;
mod compile;
mod laws;
mod list;
mod program;
mod reference;
mod soaking;
mod summary;
mod tiny;
mod tiny_refusals;
mod verify;

pub use assemble::assemble_file;
pub use compile::compile_file;
pub use laws::a_file_has_one_program;
pub use list::list_file;
pub use program::program_in_file;
pub use reference::reference_file;
pub use soaking::soak;
pub use tiny::program_in_tiny;
pub use tiny_refusals::tiny_reason;
pub use verify::verify_file;
