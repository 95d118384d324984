//! Tests of the command: sessions, servers, books and watchers over devices in memory, by the
//! public calls of `nv_run`.
#![tactic(auto)]

#[cfg(test)]
mod following;
#[cfg(test)]
mod hostile;
#[cfg(test)]
mod in_memory;
#[cfg(test)]
mod ports;
#[cfg(test)]
mod replays;
#[cfg(test)]
mod sure;
