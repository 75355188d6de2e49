//! Computed examples of the definitions.
#![tactic(auto)]

pub mod examples;
