//! Tests of queues, buffers, the resource and the spool, by one process that plays all sides, and on threads.
#![tactic(auto)]

#[cfg(test)]
mod gates;
#[cfg(test)]
mod levels;
#[cfg(test)]
mod queues;
#[cfg(test)]
mod relays;
#[cfg(test)]
mod resources;
#[cfg(test)]
mod running_resources;
#[cfg(test)]
mod running_slots;
#[cfg(test)]
mod running_spools;
#[cfg(test)]
mod slots;
#[cfg(test)]
mod spools;
#[cfg(test)]
mod starts;
