//! The tests of schema versions, their JSON and their leaves, of script lines and of replies: what no clause of their crates shows.
#![tactic(auto)]

#[cfg(test)]
mod physical;
#[cfg(test)]
mod reply;
#[cfg(test)]
mod schema;
#[cfg(test)]
mod schema_json;
#[cfg(test)]
mod script;
