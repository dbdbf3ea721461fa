#![tactic(auto)]

// A cell sought among those that the store keeps at its height, as it is or mirrored.
mod find; // the lowest number and, for it, the lowest mirror
mod symmetries; // the mirrors under which a cell matches itself

pub use find::{Sought, find_cell, find_leaf, leaf_images};
pub use symmetries::{cell_symmetry, image_symmetry};
