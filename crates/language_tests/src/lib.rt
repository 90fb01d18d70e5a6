//! Tests of the words, the trees and the static rules of Sequential Pascal.
#![tactic(auto)]

#[cfg(test)]
mod cards;
#[cfg(test)]
mod case_statements;
#[cfg(test)]
mod first_errors;
#[cfg(test)]
mod judging;
#[cfg(test)]
mod parsing;
#[cfg(test)]
mod reading;
#[cfg(test)]
mod rules_of_declarations;
#[cfg(test)]
mod rules_of_expressions;
#[cfg(test)]
mod rules_of_names;
#[cfg(test)]
mod rules_of_predeclared;
#[cfg(test)]
mod rules_of_routines;
#[cfg(test)]
mod rules_of_statements;
#[cfg(test)]
mod scanning;
#[cfg(test)]
mod spelling;
#[cfg(test)]
mod trees;
