//! Tests of pipelines and of readers and writers, on threads.
#![tactic(auto)]

#[cfg(test)]
mod cards;
#[cfg(test)]
mod ends;
#[cfg(test)]
mod numbers;
#[cfg(test)]
mod rooms;
