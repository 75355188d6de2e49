//! The replica machine, sound stores, steps, runs and the claims over them (in `specs/`).
#![tactic(auto)]
