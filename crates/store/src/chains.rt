// The words of the chains, after the lists: 256 heads for each height, then a next word for each cell of each height. A word is a cell number plus 1, or 0.
ghost use Rattle.std.specs.Prelude.{◌≡◌, ◌≤◌, ◌<◌, T, get_or};
ghost use Rattle.paper.specs.Store.{most_capacity, heights, chains, capacity_of, head_position, next_position, chain_of, kept_count, kept_of, cell_at, header_ok};

use crate::header::{CHAINS, FIRST_LIST, HEIGHTS, LISTS_PER_UNIT};
use crate::lent::Store;
use leaf::leaf_solid;
use store_pointers::cell_chain;

// Where the head of chain j of list k is, in a store of capacity c.
pub fn head_position(c: u32, k: u32, j: u32) -> usize
    requires c_le_most_capacity { (c ≤ most_capacity) × (k ≤ heights) }
    requires j_le_chains { j ≤ chains }
    ensures { result ≡ head_position c k j }
{
    FIRST_LIST + LISTS_PER_UNIT * (c as usize) + CHAINS * (k as usize) + (j as usize)
}

// Where the next word of cell n of list k is.
pub fn next_position(c: u32, k: u32, n: u32) -> usize
    requires c_le_most_capacity { (c ≤ most_capacity) × (k ≤ heights) }
    requires n_le_c { n ≤ c }
    ensures { result ≡ next_position c k n }
{
    head_position(c, HEIGHTS, 0) + (c as usize) * (k as usize) + (n as usize)
}

impl<'a> Store<'a> {
    // The head of chain j of list k.
    pub fn head_at(self, k: u32, j: u32) -> u32
        requires k_lt_heights { (k < heights) × (j < chains) }
        ensures { result ≡ get_or self.entry.words.now (head_position (capacity_of self.entry.words.now) k j) 0 }
    {
        self.words[head_position(self.capacity(), k, j)]
    }

    // What follows cell n of list k in its chain.
    pub fn next_at(self, k: u32, n: u32) -> u32
        requires k_lt_heights { (k < heights) × (n < capacity_of self.words.now) }
        ensures { result ≡ get_or self.entry.words.now (next_position (capacity_of self.entry.words.now) k n) 0 }
    {
        self.words[next_position(self.capacity(), k, n)]
    }

    // The chain of kept cell n of list k.
    pub fn chain_at(self, k: u32, n: u32) -> u32
        requires k_lt_heights { k < heights }
        requires n_bound { n < kept_count self.words.now k }
        ensures { result ≡ chain_of k (cell_at (kept_of self.entry.words.now) k n) }
    {
        if k == 0 {
            return leaf_solid(self.leaf_at(n)) as u32;
        }
        cell_chain(self.cell_at(k, n))
    }
}
