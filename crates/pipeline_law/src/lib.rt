//! The processes of a pipeline, whatever its stages are: never stuck, in every order.
#![tactic(auto)]

mod laws;

pub use laws::{PipelineOf, law_of_a_pipeline};
