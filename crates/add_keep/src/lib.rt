#![tactic(auto)]

// Writing: one more cell, one more scene, and the lists cut back to counts taken before.
ghost use Rattle.std.specs.Prelude.{◌≡◌, [], ◌∷◌, ◌++◌, ℕ, ◌+◌, ◌≤◌, ◌<◌, T, length, get_or, set};
ghost use Rattle.std.proofs.lemmas.List.Edits.{sets};
ghost use Rattle.paper.specs.Numbers.{tabulate};
ghost use Rattle.paper.specs.Store.{most_scenes, heights, scenes_held, kept_count, stride, two_words, header_ok};
ghost use Rattle.laws.specs.Chains.{cut_links};
ghost use Rattle.add_keep.specs.Keeping.{Room, Behind, Keeps, keep_in, link_in, hold_in, cut_chains, cut_list, cut_back};

use store::{
    CHAINS, FIRST_COUNT, HEIGHTS, HIGH_WORD, Store, cell_position, head_position, next_position,
    put_zeros, scene_position,
};

// The place of the count of scenes.
const SCENES_HELD: usize = 1;

// Sets list k's count.
fn set_count(store: &mut [u32], k: u32, count: u32)
    requires k_lt_heights { k < heights }
    requires in_bounds { 17 ≤ length store.old }
    ensures { store.new ≡ set store.old (2 + k) count }
{
    store[(FIRST_COUNT + k) as usize] = count;
}

// These words in place of those from `at` on.
fn put_words(store: &mut [u32], at: usize, words: &[u32])
    requires { at + length words.now ≤ length store.old }
    ensures { store.new ≡ sets store.old at words.now }
{
    store[at..at + words.len()].copy_from_slice(words);
}

// The next cell of list k is linked behind cell `last` of chain j, its number plus 1, or to the chain's head where that is 0.
fn link(store: &mut [u32], k: u32, j: u32, last: u32)
    requires { Behind k j last store.old }
    ensures { store.new ≡ link_in k j last store.old }
{
    let before = Store::of(store);
    let c = before.capacity();
    let number = before.kept_count(k) + 1;
    if last == 0 {
        store[head_position(c, k, j)] = number;
    } else {
        store[next_position(c, k, last - 1)] = number;
    }
}

// One more cell in list k, of these words.
fn keep(store: &mut [u32], k: u32, words: &[u32])
    requires room { Room k store.old }
    requires words_len { length words.now ≡ stride k }
    ensures { store.new ≡ keep_in k words.now store.old }
{
    let before = Store::of(store);
    let count = before.kept_count(k);
    let at = cell_position(before.capacity(), k, count);
    set_count(store, k, count + 1);
    put_words(store, at, words);
}

// One more cell in list k, of these words, behind cell `last` of chain j, its number plus 1, or first in the chain where that is 0.
pub fn keep_behind<const N: usize>(store: &mut [u32], k: u32, words: [u32; N], j: u32, last: u32)
    requires behind { Behind k j last store.old }
    requires words_len { N ≡ stride k }
    ensures { store.new ≡ keep_in k words.entry (link_in k j last store.old) }
{
    link(store, k, j, last);
    keep(store, k, &words);
}

// The words of a cell above the leaves: its pointers, then how many solid voxels it has.
pub fn cell_words(cell: [u32; 8], solid: u64) -> [u32; 10]
    ensures { result ≡ cell ++ two_words solid }
{
    let count = two_words(solid);
    [
        cell[0], cell[1], cell[2], cell[3], cell[4], cell[5], cell[6], cell[7], count[0], count[1],
    ]
}

// A number's two words, the high one first: a leaf's, or a count's.
pub fn two_words(n: u64) -> [u32; 2]
    ensures { result ≡ two_words n }
{
    [(n / HIGH_WORD) as u32, (n % HIGH_WORD) as u32]
}

// One more scene.
pub fn hold_scene(store: &mut [u32], depth: u32, root: u32)
    requires header { T (header_ok store.old) }
    requires store_bound { scenes_held store.old < most_scenes }
    ensures { store.new ≡ hold_in (depth ∷ root ∷ []) store.old }
{
    let held = Store::of(store).scenes_held();
    let at = scene_position(held);
    store[SCENES_HELD] = held + 1;
    let words = [depth, root];
    put_words(store, at, &words);
}

// How many cells each list keeps.
pub fn counts(store: Store) -> [u32; 15]
    ensures { result ≡ tabulate 0 heights (kept_count store.entry.words.now) }
{
    std::array::from_fn(|k| store.kept_count(k as u32))
}

// So many links from `at` on: one to any of the first `count` cells stays, any other becomes none.
fn cut_links(store: &mut [u32], at: usize, many: usize, count: u32)
    requires { at + many ≤ length store.old }
    ensures { store.new ≡ cut_links count at many store.old }
{
    for link in &mut store[at..at + many] {
        if count < *link {
            *link = 0;
        }
    }
}

// The chains of list k back to its first `count` cells: numbers along a chain rise, so a link that is cut has only cells behind it that go.
fn cut_chains(store: &mut [u32], k: u32, count: u32)
    requires { Keeps k count store.old }
    ensures { store.new ≡ cut_chains k count store.old }
{
    let before = Store::of(store);
    let units = before.capacity();
    let kept = before.kept_count(k);
    cut_links(store, head_position(units, k, 0), CHAINS, count);
    cut_links(store, next_position(units, k, 0), kept as usize, count);
}

// List k back to its first `count` cells: only the words of the others, their links, and the count, are written.
fn cut_list(store: &mut [u32], k: u32, count: u32)
    requires { Keeps k count store.old }
    ensures { store.new ≡ cut_list k count store.old }
{
    cut_chains(store, k, count);
    let cut = Store::of(store);
    let units = cut.capacity();
    let end = cell_position(units, k, cut.kept_count(k));
    let at = cell_position(units, k, count);
    put_zeros(store, at, end - at);
    set_count(store, k, count);
}

// Each list back to so many cells as it kept when `counts` was taken.
pub fn cut_back(store: &mut [u32], counts: [u32; 15])
    requires header { T (header_ok store.old) }
    requires by_index { (k : ℕ) → k < heights → get_or counts k 0 ≤ kept_count store.old k }
    ensures { store.new ≡ cut_back counts store.old }
{
    for k in 0..HEIGHTS {
        cut_list(store, k, counts[k as usize]);
    }
}
