//! The lemmas that the code crates cite: lists, tables, conversion, row versions, points and fronts (in `proofs/`).
#![tactic(auto)]
