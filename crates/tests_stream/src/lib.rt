//! The tests of streams, pumps, changes in memory and the rows that they make: what no clause of their crates shows.
#![tactic(auto)]

#[cfg(test)]
mod fair;
#[cfg(test)]
mod pending;
#[cfg(test)]
mod pump;
#[cfg(test)]
mod rows;
