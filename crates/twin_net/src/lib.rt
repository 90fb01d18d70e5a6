//! The twin network as one that is stepped: its six processes over their six buffers, the desk and the
//! devices, each step as the law of the twin network has it, whatever the jobs are.
#![tactic(auto)]

mod finish;
mod net;
mod shared;
mod spools;
mod step;
mod turns;
mod twin_run;

pub use net::TwinNet;
pub use shared::TwinShared;
pub use spools::TwinSpools;
pub use step::step_machine;
pub use twin_run::run_twin;
