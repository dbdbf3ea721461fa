#![tactic(auto)]

// Records of one list beside each other: their rules and symmetries, and whether two match under some mirror, by places and by the marks one list down.
mod alike; // symmetries and matching
mod records; // one record

pub use alike::{record_symmetry, two_leaves_match, two_match};
pub use records::test_record;
