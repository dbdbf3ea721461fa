#![tactic(auto)]

// Sight lines through a scene of a store: from one voxel's centre to another's. A line goes from cell to cell, not from voxel to voxel: an empty
// cell is left in one step, and the walk to the next voxel starts at the deepest cell on the path to the last one that holds both.
mod call; // sight line, with its whole outcome
mod path; // the cells entered on the way to a voxel
mod trace; // along a line, to the first voxel that isn't empty

pub use call::sight;
