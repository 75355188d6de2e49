//! The tests of the store: they show what no clause says.
#![tactic(auto)]

#[cfg(test)]
mod damages;
#[cfg(test)]
mod indexes;
#[cfg(test)]
mod manifests;
#[cfg(test)]
mod roots;
#[cfg(test)]
mod space;
#[cfg(test)]
mod stores;
