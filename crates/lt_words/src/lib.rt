//! The texts: schema texts, script lines, replies and refusals (in `specs/`).
#![tactic(auto)]
