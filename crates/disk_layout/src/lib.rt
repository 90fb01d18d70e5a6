//! The layout of the file area in its pages: what they hold, which page breaks the format, and which file has
//! which page.
#![tactic(auto)]

mod catalogue;
mod catalogue_judge;
mod entry;
mod first_page;
mod judge;
mod kind;
mod least;
mod map_judge;
mod names;

pub use catalogue::{
    clear_name, count_names, empty_place, is_named, place_of, put_name, set_protection,
};
pub use catalogue_judge::{judge_entries, judge_searches, note_indexes};
pub use entry::{Entry, is_address, is_whole, key_of};
pub use first_page::{is_label, is_label1, label, label1};
pub use judge::{judge_index, judge_map_page, judge_part};
pub use kind::FileKind;
pub use least::{earlier, note_bad};
pub use map_judge::{ends_in_zeros, judge_bits, least_page};
pub use names::place_after;
