//! Tests of turns, sessions and servers, with running threads over devices that wait until they
//! are let go on, by the public calls of their crates.
#![tactic(auto)]

#[cfg(test)]
mod held_devices;
#[cfg(test)]
mod serve;
#[cfg(test)]
mod session;
#[cfg(test)]
mod slow_reader;
#[cfg(test)]
mod turn;
