//! The tests of the plain types, records, the outside, and what stands over these alone: they show what no clause says.
#![tactic(auto)]

#[cfg(test)]
mod commands;
#[cfg(test)]
mod conversions;
#[cfg(test)]
mod deltas;
#[cfg(test)]
mod disks;
#[cfg(test)]
mod frames;
#[cfg(test)]
mod outside;
#[cfg(test)]
mod partitions;
#[cfg(test)]
mod plain;
#[cfg(test)]
mod predicates;
#[cfg(test)]
mod row_sinks;
#[cfg(test)]
mod versions;
