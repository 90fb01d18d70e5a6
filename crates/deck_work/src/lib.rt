//! The jobs of a deck as the network knows them, and the mounted files as they are loaded for them.
#![tactic(auto)]

mod files;
mod work;

pub use files::DeckFiles;
pub use work::DeckWork;
