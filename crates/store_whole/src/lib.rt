#![tactic(auto)]

// The whole store's test: every place of a scene, every cell kept, the unused words, every count, and every chain.
ghost use Rattle.std.specs.Prelude.{◌≡◌, ◌≤◌, ◌<◌, ◌+◌, ◌^◌, ℕ, true, false, not, length, is_ok, IfOk, IsTrue, slice_index};
ghost use Rattle.paper.specs.Numbers.{all_below};
ghost use Rattle.paper.specs.Store.{most_scenes, heights, kept_count, kept_of, bad_pointer, any_bad, over_children, count_of, blank, place_ok, list_usable, chains, chains_ok, counts_ok, list_blank, store_ok};
ghost use Rattle.laws.specs.Chains.{ChainRight, ListRight};
ghost use Rattle.store_whole.specs.Counts.{share_of, Bounded, Countable};
ghost use Rattle.store_whole.specs.Following.{Followed};

use paper::Damaged;
use store::{
    CELL_STRIDE, CHAINS, HEIGHTS, LEAF_STRIDE, MOST_SCENES, Store, cell_position, next_position,
    not_blank,
};
use store_pointers::{cell_bad, cell_number};

// Place n: one that holds no scene is two zeros, and a scene held is in order.
fn test_place(store: Store<'_>, n: u32) -> Result<(), Damaged>
    requires n_lt_most_scenes { n < most_scenes }
    ensures { is_ok result ≡ place_ok store.entry.words.now n }
{
    if store.holds(n) {
        store.scene(n)?;
        return Ok(());
    }
    if (store.scene_depth(n) != 0) | (store.scene_root(n) != 0) {
        return Err(Damaged);
    }
    Ok(())
}

// The places of scenes.
fn test_scenes(store: Store<'_>) -> Result<(), Damaged>
    ensures { is_ok result ≡ all_below most_scenes (place_ok store.entry.words.now) }
{
    for n in (0..MOST_SCENES).rev() {
        test_place(store, n)?;
    }
    Ok(())
}

// The kept leaves: none is empty.
fn test_leaves(store: Store<'_>) -> Result<(), Damaged>
    ensures { is_ok result ≡ list_usable (kept_of store.entry.words.now) 0 }
{
    for n in 0..store.kept_count(0) {
        if store.leaf_at(n) == 0 {
            return Err(Damaged);
        }
    }
    Ok(())
}

// The cells kept in list k, k not 0: none is empty or has a bad pointer.
fn test_cells(store: Store<'_>, k: u32) -> Result<(), Damaged>
    requires inner { (1 ≤ k) × (k < heights) }
    ensures { is_ok result ≡ list_usable (kept_of store.entry.words.now) k }
{
    let below = store.kept_count(k - 1);
    for n in 0..store.kept_count(k) {
        if cell_bad(below, store.cell_at(k, n)) {
            return Err(Damaged);
        }
    }
    Ok(())
}

// The cells kept in every list.
fn test_lists(store: Store<'_>) -> Result<(), Damaged>
    ensures { is_ok result ≡ all_below heights (list_usable (kept_of store.entry.words.now)) }
{
    for k in (1..HEIGHTS).rev() {
        test_cells(store, k)?;
    }
    test_leaves(store)
}

// So many words from `at` on: all are zero.
fn test_blank(store: Store<'_>, at: usize, n: usize) -> Result<(), Damaged>
    requires inside { at + n ≤ length store.words.now }
    ensures { is_ok result ≡ blank store.entry.words.now at n }
{
    if not_blank(store.words, at, n) {
        return Err(Damaged);
    }
    Ok(())
}

// The words of list k past its kept cells.
fn test_spare(store: Store<'_>, k: u32) -> Result<(), Damaged>
    requires k_lt_heights { k < heights }
    ensures { is_ok result ≡ list_blank store.entry.words.now k }
{
    let c = store.capacity();
    let n = store.kept_count(k);
    let at = cell_position(c, k, n);
    let spare = (c - n) as usize;
    if k == 0 {
        return test_blank(store, at, LEAF_STRIDE * spare);
    }
    test_blank(store, at, CELL_STRIDE * spare)
}

// The unused words of every list.
fn test_unused(store: Store<'_>) -> Result<(), Damaged>
    ensures { is_ok result ≡ all_below heights (list_blank store.entry.words.now) }
{
    for k in (0..HEIGHTS).rev() {
        test_spare(store, k)?;
    }
    Ok(())
}

// How many solid voxels a pointer of list k stands for, as the words say.
fn pointer_count(store: Store<'_>, k: u32, p: u32) -> u64
    requires good { (k < heights) × (bad_pointer (kept_count store.words.now k) p ≡ false) }
    ensures { result ≡ share_of store.entry.words.now k p }
{
    if p == 0 {
        return 0;
    }
    store.count_at(k, cell_number(p))
}

// How many the children of a cell, of list k, have.
fn children_count(store: Store<'_>, k: u32, cell: [u32; 8]) -> u64
    requires good { (k < heights) × (any_bad (kept_count store.words.now k) cell ≡ false) }
    requires bounded { Bounded store.words.now k }
    ensures { result ≡ over_children (count_of store.entry.words.now k) cell }
{
    let mut sum = 0u64;
    for p in cell {
        sum += pointer_count(store, k, p);
    }
    sum
}

// The counts of list k, k not 0: each is the sum of its children's.
fn test_counts(store: Store<'_>, k: u32) -> Result<(), Damaged>
    requires countable { Countable store.words.now k }
    ensures { is_ok result ≡ counts_ok store.entry.words.now k }
{
    for n in (0..store.kept_count(k)).rev() {
        if store.count_at(k, n) != children_count(store, k - 1, store.cell_at(k, n)) {
            return Err(Damaged);
        }
    }
    Ok(())
}

// The counts of every list: from the leaves up, so that no sum passes the voxels of a cell.
fn test_sums(store: Store<'_>) -> Result<(), Damaged>
    requires usable { IsTrue (all_below heights (list_usable (kept_of store.words.now))) }
    ensures { is_ok result ≡ all_below heights (counts_ok store.entry.words.now) }
{
    for k in 1..HEIGHTS {
        test_counts(store, k)?;
    }
    Ok(())
}

// How many cells chain j of list k has, where each is in it and the numbers rise. It follows the links, which no iterator of std does.
fn chain_length(store: Store<'_>, k: u32, j: u32) -> Result<u32, Damaged>
    requires listed { (k < heights) × (j < chains) }
    ensures followed { IfOk result (λ length. Followed store.entry.words.now k j length) }
    ensures broken { is_ok result ≡ false → ChainRight store.entry.words.now k j → ⊥ }
{
    let count = store.kept_count(k);
    let mut last = 0u32;
    let mut length = 0u32;
    let mut n = store.head_at(k, j);
    while n != 0 {
        if n <= last {
            return Err(Damaged);
        }
        if count < n {
            return Err(Damaged);
        }
        if store.chain_at(k, n - 1) != j {
            return Err(Damaged);
        }
        length += 1;
        last = n;
        n = store.next_at(k, n - 1);
    }
    Ok(length)
}

// The chains of list k: each is right, together they have all cells kept, and a number that isn't kept has no next word. A chain that is
// followed rightly has no more cells than its key has, so all are right where together they have all cells.
fn test_chains(store: Store<'_>, k: u32) -> Result<(), Damaged>
    requires k_lt_heights { k < heights }
    ensures right { is_ok result ≡ true → ListRight store.entry.words.now k }
    ensures accepted { ListRight store.entry.words.now k → is_ok result ≡ true }
{
    let count = store.kept_count(k);
    let mut all = 0u32;
    for j in 0..CHAINS as u32 {
        all += chain_length(store, k, j)?;
    }
    if all != count {
        return Err(Damaged);
    }
    let c = store.capacity();
    test_blank(store, next_position(c, k, count), (c - count) as usize)
}

// Every chain.
fn test_links(store: Store<'_>) -> Result<(), Damaged>
    ensures { is_ok result ≡ chains_ok store.entry.words.now }
{
    for k in 0..HEIGHTS {
        test_chains(store, k)?;
    }
    Ok(())
}

// The whole store: header, scenes, cells, unused words, counts, chains.
fn test(words: &[u32]) -> Result<(), Damaged>
    ensures { is_ok result ≡ store_ok words.now }
{
    let store = Store::open(words)?;
    test_scenes(store)?;
    test_lists(store)?;
    test_unused(store)?;
    test_sums(store)?;
    test_links(store)
}

// A store of which every word was tested: nothing in it is damaged.
#[derive(Clone, Copy)]
pub struct WholeStore<'a> {
    pub store: Store<'a>,
    pub ghost whole: { IsTrue (store_ok store.words.now) },
    // each of them is a word: what is known of a slice's elements, for those who hold the struct
    pub ghost fits: { (i : ℕ) → slice_index store.words.now i < 2 ^ 32 },
}

impl<'a> WholeStore<'a> {
    // These words as a whole store, where none of them is damaged.
    pub fn open(words: &'a [u32]) -> Result<WholeStore<'a>, Damaged>
        ensures same_words { IfOk result (λ whole. whole.store.words.now ≡ words.now) }
        ensures opened { is_ok result ≡ store_ok words.now }
    {
        test(words)?;
        Ok(WholeStore {
            store: Store::of(words),
        })
    }
}
