//! The tests of lines, of tables, and of a client of a daemon: what no clause says of their calls.
#![tactic(auto)]

#[cfg(test)]
mod client;
#[cfg(test)]
mod places;
#[cfg(test)]
mod report;
#[cfg(test)]
mod together;
#[cfg(test)]
mod wire;
