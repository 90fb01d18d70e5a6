//! The waiting places of a monitor: queue variables, the order of arrival, and the turn.
#![tactic(auto)]

mod fifo;
mod queue_variable;
mod sides;
mod stops;
mod turn;

pub use fifo::Fifo;
pub use queue_variable::QueueVar;
pub use sides::Sides;
pub use stops::Stops;
pub use turn::Turn;
