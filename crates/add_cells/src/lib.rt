#![tactic(auto)]

// A cell is sought among those kept at its height, and kept if it is nowhere and there is room.
ghost use Rattle.std.specs.Prelude.{◌≡◌, not, ◌≤◌, ◌<◌, T, ltb};
ghost use Rattle.paper.specs.Store.{heights, chains, capacity_of, kept_count, kept_of, stride, header_ok, pointer as paper_pointer};
ghost use Rattle.laws.specs.Chains.{last_of, NamesCells};
ghost use Rattle.laws.specs.InOrder.{InOrder};
ghost use Rattle.add_cells.specs.CellAdding.{cell_adding, kept_with, add_leaf_in, add_cell_in};

use add_keep::{cell_words, keep_behind, two_words};
use add_seek::{Sought, cell_symmetry, find_cell, find_leaf, image_symmetry, leaf_images};
use leaf::leaf_solid;
use paper::Full;
use store::Store;
use store_pointers::{cell_chain, pointer};

/// A kept cell: a pointer to it, and its symmetry, the mirrors under which it matches itself.
#[derive(Clone, Copy)]
pub struct Kept {
    pub pointer: u32,
    pub symmetry: u8,
}

// Whether list k has no room.
fn no_room(store: Store, k: u32) -> bool
    requires k_lt_heights { k < heights }
    ensures { result ≡ not (ltb (kept_count store.entry.words.now k) (capacity_of store.entry.words.now)) }
{
    store.kept_count(k) >= store.capacity()
}

// The pointer of the next cell that list k keeps, mirror 0.
fn next_pointer(store: Store, k: u32) -> u32
    requires k_lt_heights { k < heights }
    ensures { result ≡ paper_pointer 0 (kept_count store.entry.words.now k) }
{
    pointer(0, store.kept_count(k))
}

// A cell that is nowhere is kept in list k, of these words, behind the last cell of its chain, if there is room.
fn keep_if_room<const N: usize>(
    store: &mut [u32],
    k: u32,
    words: [u32; N],
    symmetry: u8,
    chain: u32,
    last: u32,
) -> Result<Kept, Full>
    requires header { T (header_ok store.old) }
    requires list { k < heights }
    requires words_len { N ≡ stride k }
    requires chain_lt_chains { chain < chains }
    requires last_value { last ≡ last_of (kept_of store.old) k chain }
    ensures { cell_adding result store.new ≡ kept_with symmetry k chain words.entry store.old }
{
    let before = Store::of(store);
    if no_room(before, k) {
        return Err(Full);
    }
    let next = next_pointer(before, k);
    keep_behind(store, k, words, chain, last);
    Ok(Kept {
        pointer: next,
        symmetry,
    })
}

// A leaf is sought, or kept; its eight images are made once. What a leaf and a cell share, keeping one that is nowhere, is `keep_if_room`.
pub fn add_leaf_in(store: &mut [u32], leaf: u64) -> Result<Kept, Full>
    requires { InOrder store.old }
    ensures { cell_adding result store.new ≡ add_leaf_in leaf store.old }
{
    let images = leaf_images(leaf);
    let symmetry = image_symmetry(leaf, images);
    match find_leaf(Store::of(store), leaf, images) {
        Sought::At(p) => Ok(Kept {
            pointer: p,
            symmetry,
        }),
        Sought::Nowhere(last) => keep_if_room(
            store,
            0,
            two_words(leaf),
            symmetry,
            leaf_solid(leaf) as u32,
            last,
        ),
    }
}

// A cell of list k is sought, or kept; symmetries are those of the cells that its pointers name, and solid is how many solid voxels it has.
pub fn add_cell_in(
    store: &mut [u32],
    k: u32,
    cell: [u32; 8],
    symmetries: [u8; 8],
    solid: u64,
) -> Result<Kept, Full>
    requires in_order { InOrder store.old }
    requires inner_list { (1 ≤ k) × (k < heights) }
    requires names_cells { NamesCells cell }
    ensures { cell_adding result store.new ≡ add_cell_in k cell symmetries solid store.old }
{
    let symmetry = cell_symmetry(cell, symmetries);
    match find_cell(Store::of(store), k, cell, symmetries) {
        Sought::At(p) => Ok(Kept {
            pointer: p,
            symmetry,
        }),
        Sought::Nowhere(last) => keep_if_room(
            store,
            k,
            cell_words(cell, solid),
            symmetry,
            cell_chain(cell),
            last,
        ),
    }
}
