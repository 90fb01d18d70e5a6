//! That compiled code is good, and does what its source means: laws over the code's schemes, the meaning of
//! programs and the machine.
#![tactic(auto)]

mod laws;

pub use laws::{
    a_program_that_breaks_no_rule_suits_its_code, compiled_code_does_what_its_source_means,
    compiled_code_is_good,
};
