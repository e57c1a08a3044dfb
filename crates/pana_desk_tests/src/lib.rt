//! The tests of a hall, of stores, of a hall at a desk and of the threads at it: what no clause says of their calls.
#![tactic(auto)]

#[cfg(test)]
mod desk;
#[cfg(test)]
mod hall;
#[cfg(test)]
mod places;
#[cfg(test)]
mod rounds;
#[cfg(test)]
mod shared;
#[cfg(test)]
mod store;
