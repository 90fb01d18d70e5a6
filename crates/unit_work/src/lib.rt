//! A batch on one job process and on two, in every order of events: the laws of the core and of the twin
//! network, in the words of the reports. Its jobs can be worked on unit by unit.
#![tactic(auto)]

mod laws;

pub use laws::{batch_by_units, batch_of_one_worker, batch_of_two_workers};
