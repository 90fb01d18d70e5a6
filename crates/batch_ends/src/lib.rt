//! What the core on one thread and the batch on five say together: the devices that they run on, the calls
//! of the deck and of the paper, and how the five processes ended.
#![tactic(auto)]

mod device_calls;
mod ends;
mod peripherals;
mod units;

pub use device_calls::{is_item, print, read_card};
pub use ends::{Outcomes, Ran};
pub use peripherals::Peripherals;
pub use units::Units;
