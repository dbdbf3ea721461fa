#![tactic(auto)]

// Box questions on a store's words: how many solid voxels a box holds, each kept cell counted as often as it stands there.
mod call; // box, with its whole outcome
mod count; // how many solid voxels a box of a cell holds, from the root down

pub use call::box_count;
