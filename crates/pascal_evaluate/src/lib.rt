//! Evaluates programs of Sequential Pascal by the sentences of the language.
#![tactic(auto)]

mod activation;
mod calls;
mod declare;
mod entries;
mod expression;
mod heading;
mod interface;
mod level;
mod means;
mod operators;
mod predeclared;
mod program;
mod run;
mod scope;
mod setting;
mod statement;
mod stop;
mod table;

pub use program::{Meaning, evaluate};
