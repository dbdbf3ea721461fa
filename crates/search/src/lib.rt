#![tactic(auto)]

// Anything in the way: whether a box of a scene holds a solid voxel, with the cells entered, by the store's cells and not their counts.
mod call; // the call, with its whole outcome
mod cells; // cells entered one after the other, until a leaf has a solid voxel in the box

pub use call::anything;
