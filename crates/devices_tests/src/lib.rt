//! Tests of card readers, printers and areas, in memory and over files, a full device and a directory.
#![tactic(auto)]

#[cfg(test)]
mod adapters;
#[cfg(test)]
mod areas;
#[cfg(test)]
mod asking;
#[cfg(test)]
mod parts;
#[cfg(test)]
mod units;
