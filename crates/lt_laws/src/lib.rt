//! The laws of rows, row versions, deltas and images that the laws of sessions and the engine cite (in `proofs/`).
#![tactic(auto)]
