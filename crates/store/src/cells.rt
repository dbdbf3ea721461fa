// The words of the kept cells, list after list: a leaf has two, its upper half first; any other cell eight, its pointers, then two, how many solid
// voxels it has, the upper half first.
ghost use Rattle.std.specs.Prelude.{◌≡◌, ◌+◌, ◌≤◌, ◌<◌, T, length, take, drop};
ghost use Rattle.paper.specs.Store.{most_capacity, heights, kept_count, cell_position, kept_of, cell_at, leaf_no, pair_no, count_of, header_ok};
ghost use Rattle.laws.specs.Chains.{exchanged};

use crate::header::FIRST_LIST;
use crate::lent::Store;
use leaf::leaf_solid;

// The words that a store has for a leaf, and for any other cell.
pub const LEAF_STRIDE: usize = 2;

pub const CELL_STRIDE: usize = 10;

// A cell's pointers come before its count.
const POINTERS: usize = 8;

// The high one of two words counts so many times: 2^32.
pub const HIGH_WORD: u64 = 4294967296;

// Where cell n of list k starts, in a store of capacity c.
pub fn cell_position(c: u32, k: u32, n: u32) -> usize
    requires c_le_most_capacity { c ≤ most_capacity }
    requires k_lt_heights { k < heights }
    requires n_le_c { n ≤ c }
    ensures { result ≡ cell_position c k n }
{
    let number = n as usize;
    if k == 0 {
        return FIRST_LIST + LEAF_STRIDE * number;
    }
    let units = c as usize;
    FIRST_LIST
        + LEAF_STRIDE * units
        + CELL_STRIDE * units * ((k - 1) as usize)
        + CELL_STRIDE * number
}

// Two words from `at` on as one number, the high one first.
fn pair(store: &[u32], at: usize) -> u64
    requires { at + 2 ≤ length store.now }
    ensures { result ≡ pair_no (drop at store.now) }
{
    let high = u64::from(store[at]);
    let low = u64::from(store[at + 1]);
    high * HIGH_WORD + low
}

// Eight words from `at` on, as one value.
fn eight(store: &[u32], at: usize) -> [u32; 8]
    requires { at + 8 ≤ length store.now }
    ensures { result ≡ take 8 (drop at store.now) }
{
    [
        store[at],
        store[at + 1],
        store[at + 2],
        store[at + 3],
        store[at + 4],
        store[at + 5],
        store[at + 6],
        store[at + 7],
    ]
}

impl<'a> Store<'a> {
    // Leaf n: its two words as one number.
    pub fn leaf_at(self, n: u32) -> u64
        requires n_bound { n < kept_count self.words.now 0 }
        ensures { result ≡ leaf_no (cell_at (kept_of self.entry.words.now) 0 n) }
    {
        pair(self.words, cell_position(self.capacity(), 0, n))
    }

    // Leaf n as its two words stand, read with the first one low: one load where memory is so ordered. For comparing.
    pub fn leaf_exchanged_at(self, n: u32) -> u64
        requires n_bound { n < kept_count self.words.now 0 }
        ensures { result ≡ exchanged (leaf_no (cell_at (kept_of self.entry.words.now) 0 n)) }
    {
        let at = cell_position(self.capacity(), 0, n);
        let first = u64::from(self.words[at]);
        let second = u64::from(self.words[at + 1]);
        second * HIGH_WORD + first
    }

    // Cell n of list k, k not 0: its eight pointers.
    pub fn cell_at(self, k: u32, n: u32) -> [u32; 8]
        requires inner { (1 ≤ k) × (k < heights) }
        requires n_bound { n < kept_count self.words.now k }
        ensures { result ≡ cell_at (kept_of self.entry.words.now) k n }
    {
        eight(self.words, cell_position(self.capacity(), k, n))
    }

    // How many solid voxels cell n of list k has, as the words say: of a leaf by its bits, of any other by its count.
    pub fn count_at(self, k: u32, n: u32) -> u64
        requires k_lt_heights { k < heights }
        requires n_bound { n < kept_count self.words.now k }
        ensures { result ≡ count_of self.entry.words.now k n }
    {
        if k == 0 {
            return leaf_solid(self.leaf_at(n));
        }
        pair(self.words, cell_position(self.capacity(), k, n) + POINTERS)
    }
}
