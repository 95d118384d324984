//! Tests of parts that no session shows, over their public calls: of values, messages, arguments,
//! streams and devices, of lines, buffers and windows, and of what screens show.
#![tactic(auto)]

#[cfg(test)]
mod args;
#[cfg(test)]
mod cells;
#[cfg(test)]
mod io;
#[cfg(test)]
mod mirror;
#[cfg(test)]
mod redraw;
#[cfg(test)]
mod rpc;
#[cfg(test)]
mod screen;
#[cfg(test)]
mod spelling;
#[cfg(test)]
mod steady;
#[cfg(test)]
mod streams;
#[cfg(test)]
mod text_lines;
#[cfg(test)]
mod texts;
#[cfg(test)]
mod values;
#[cfg(test)]
mod virt;
