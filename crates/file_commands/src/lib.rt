//! The commands of Solo that run no program: what each does with the files, and the line that answers it.
#![tactic(auto)]

mod answers;
mod catalogue;
mod copying;
mod fault;
mod texts;

pub use answers::answer_line;
pub use catalogue::{delete, list, protect, rename};
pub use copying::{Copied, copy_file, find, lines_to_print, store_cards};
pub use fault::CommandFault;
pub use texts::{lines_of_text, print, text_of_cards};
