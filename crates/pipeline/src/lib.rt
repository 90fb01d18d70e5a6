//! Pipelines of any stages: each stage on a thread of its own, with a buffer between each two.
#![tactic(auto)]

mod behind;
mod beside;
mod between;
mod blocks;
mod came;
mod cause;
mod each;
mod items;
mod outs;
mod parcel;
mod promises;
mod put;
mod row;
mod run;
mod sink;
mod source;
mod stage;
mod then;
mod work;

pub use between::{run_four_between, run_one_between, run_three_between, run_two_between};
pub use blocks::Blocks;
pub use came::{Came, Ran};
pub use cause::{Cause, Failed};
pub use each::{Each, Function, Keep, Test};
pub use items::Items;
pub use outs::Outs;
pub use parcel::Parcel;
pub use run::{run_four, run_one, run_three, run_two};
pub use sink::{Collect, Sink};
pub use source::Source;
pub use stage::Stage;
pub use then::Then;
