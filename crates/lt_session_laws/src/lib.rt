//! The laws by which steps, faults and a feed that grows leave sound sessions sound (in `proofs/`).
#![tactic(auto)]
