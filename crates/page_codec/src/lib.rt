//! Spool pages: a packer puts items into pages of 512 bytes, and an unpacker gives them again, or
//! says where a page isn't the one that it expects.
#![tactic(auto)]

mod form;
mod judge;
mod packer;
mod page_items;
mod stream;
mod unpacker;

pub use form::{CONTENT_ROOM, HEADER_LENGTH, ITEM_LENGTH, LEAST_FULL, SPOILED};
pub use judge::BadPage;
pub use packer::Packer;
pub use page_items::PageItems;
pub use stream::streams_read_back;
pub use unpacker::Unpacker;
