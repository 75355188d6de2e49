//! Feeds, sinks and disks: what they are for their callers, what their calls say, extents and root slots (in `specs/`).
#![tactic(auto)]
