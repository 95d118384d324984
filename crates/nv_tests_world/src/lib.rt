//! Tests of worlds by hand: outboxes, small limits and watchers, over their public calls.
#![tactic(auto)]

#[cfg(test)]
mod asking;
#[cfg(test)]
mod outboxes;
#[cfg(test)]
mod small_limits;
#[cfg(test)]
mod watch;
