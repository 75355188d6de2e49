//! Definitions that no crate cites yet: joins, groups, relays, format 2 and encodings (in `specs/`).
#![tactic(auto)]
