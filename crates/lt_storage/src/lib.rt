//! What a store file holds, and the bytes that spell it: bundles, indexes, manifests (in `specs/`).
#![tactic(auto)]
