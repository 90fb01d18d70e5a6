//! The compiler: programs of Sequential Pascal become code of the stack machine, by the schemes.
#![tactic(auto)]

mod calls;
mod compile_fault;
mod compiler;
mod constants;
mod counters;
mod declarations;
mod drafts;
mod expressions;
mod fault;
mod frame;
mod heights;
mod instructions;
mod names;
mod nested;
mod predeclared;
mod program;
mod routines;
mod senses;
mod site;
mod statements;
mod using_names;

pub use compile_fault::CompileFault;
pub use compiler::compile;
pub use fault::EmitFault;
pub use program::code_of;
