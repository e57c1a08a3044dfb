//! The tests of the clocks, families, names, places, patterns, sums, kept lines and desks: what no clause says of their
//! calls.
#![tactic(auto)]

#[cfg(test)]
mod copies;
#[cfg(test)]
mod event;
#[cfg(test)]
mod family;
#[cfg(test)]
mod id;
#[cfg(test)]
mod ignore;
#[cfg(test)]
mod log;
#[cfg(test)]
mod notation;
#[cfg(test)]
mod rel;
#[cfg(test)]
mod stamp;
#[cfg(test)]
mod sums;
#[cfg(test)]
mod text;
#[cfg(test)]
mod turn;
