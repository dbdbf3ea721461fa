#![tactic(auto)]

// Pointers, and the eight of a cell, as values: nothing here reads a store's words.
mod keys; // a cell's key, and its chain
mod mirrors; // a pointer of a mirrored cell
mod pointers; // one pointer, and the eight of a cell

pub use keys::{cell_chain, cell_key};
pub use mirrors::mirrored_pointer;
pub use pointers::{
    all_absent, any_bad, bad_pointer, cell_bad, cell_number, numbers_differ, pointer, tag,
};
