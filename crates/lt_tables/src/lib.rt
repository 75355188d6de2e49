//! Tables and their changes: schemas, fair streams, rows, row versions, queries, and the pump (in `specs/`).
#![tactic(auto)]
