#![tactic(auto)]

// The lent words of a store, by named places: only this crate, `add_keep`, which writes them, and new store, which sets word 0, know a
// word's position. Heights are counted from 2, as in `paper`: list k has the cells of height k + 2, so list 0 has the leaves.
mod cells; // one kept cell, read
mod chains; // heads and next words
mod header; // words 0 to 31
mod lent; // the words of a store whose header is in order
mod scenes; // the words of the scenes
mod zeros; // words made zero

pub use cells::{CELL_STRIDE, HIGH_WORD, LEAF_STRIDE, cell_position};
pub use chains::{head_position, next_position};
pub use header::{CHAINS, FIRST_COUNT, HEIGHTS, MOST_SCENES, not_blank, size_bad, used_words};
pub use lent::Store;
pub use scenes::{Scene, scene_position};
pub use zeros::{clear, put_zeros};
