// A cell sought among those kept at its height: the lowest number wins and, for it, the lowest mirror. Cells that match are in one chain, whose numbers
// rise: the first cell of the chain that matches under some mirror is the one that a search of all kept cells finds.
ghost use Rattle.std.specs.Prelude.{◌≡◌, ◌≤◌, ◌<◌, eqb, get_or};
ghost use Rattle.paper.specs.Numbers.{tabulate};
ghost use Rattle.paper.specs.Store.{heights, kept_of, cells_at, key_of, chain_of};
ghost use Rattle.paper.specs.Match.{matches, lowest, find, leaf_cell};
ghost use Rattle.laws.specs.Symmetries.{symmetry_match};
ghost use Rattle.laws.specs.Chains.{last_of, exchanged, NamesCells};
ghost use Rattle.laws.specs.InOrder.{InOrder};
ghost use Rattle.add_seek.specs.Sought.{sought, EndsAt, mirror_found, leaf_images, Changing};

use crate::symmetries::same_cell;
use leaf::{leaf_solid, mirror_leaf};
use limits::MIRRORS;
use store::{HIGH_WORD, Store};
use store_pointers::{cell_chain, cell_key, numbers_differ, pointer};

// The pointer found; or none, with the last cell of the chain, its number plus 1, or 0 where the chain is empty. An enum of its own: both are answers,
// so that neither is a failure which `?` could hand on.
#[derive(Clone, Copy)]
pub enum Sought {
    At(u32),
    Nowhere(u32),
}

// The eight images of a leaf, one a mirror.
pub fn leaf_images(leaf: u64) -> [u64; 8]
    ensures { result ≡ leaf_images leaf }
{
    std::array::from_fn(|t| mirror_leaf(leaf, t as u32))
}

// The bits in which the images of a leaf are not all alike.
fn changing_bits(images: [u64; 8]) -> u64
    ensures { Changing images 8 result }
{
    let mut bits = 0u64;
    for image in &images {
        bits |= images[0] ^ *image;
    }
    bits
}

// The lowest mirror whose image this leaf is; `bits` are those in which the images are not all alike: a leaf that differs from the first in another bit is none of them.
fn image_of(images: [u64; 8], bits: u64, leaf: u64) -> Option<u32>
    requires { Changing images 8 bits }
    ensures { mirror_found result ≡ lowest 8 0 (λ t. eqb (get_or images t 0) leaf) }
{
    if (images[0] ^ leaf) | bits != bits {
        return None;
    }
    for t in 0..MIRRORS {
        if images[t as usize] == leaf {
            return Some(t);
        }
    }
    None
}

// A leaf with its two words exchanged, as `leaf_exchanged_at` reads it.
fn exchange(leaf: u64) -> u64
    ensures { result ≡ exchanged leaf }
{
    leaf % HIGH_WORD * HIGH_WORD + leaf / HIGH_WORD
}

// The eight images so.
fn exchange_all(images: [u64; 8]) -> [u64; 8]
    ensures { result ≡ tabulate 0 8 (λ t. exchanged (get_or images t 0)) }
{
    images.map(exchange)
}

// A leaf sought among those kept, by its eight images. Beside `find_cell`, and not one function with it: a leaf is compared as one number with its
// images, a cell by its key and pointers, and both run once for each cell of a chain.
pub fn find_leaf(store: Store, leaf: u64, images: [u64; 8]) -> Sought
    requires in_order { InOrder store.words.now }
    requires images_value { images ≡ leaf_images leaf }
    ensures result_value { sought result ≡ find (λ b t. matches (kept_of store.entry.words.now) 0 (leaf_cell leaf) b t) (cells_at (kept_of store.entry.words.now) 0) 0 }
    ensures ends_at { EndsAt result (last_of (kept_of store.entry.words.now) 0 (chain_of 0 (leaf_cell leaf))) }
{
    let all = exchange_all(images);
    let bits = changing_bits(all);
    let mut last = 0u32;
    let mut n = store.head_at(0, leaf_solid(leaf) as u32);
    // A chain is followed by its next words: no range and no slice has its numbers.
    while n != 0 {
        if let Some(t) = image_of(all, bits, store.leaf_exchanged_at(n - 1)) {
            return Sought::At(pointer(t, n - 1));
        }
        last = n;
        n = store.next_at(0, n - 1);
    }
    Sought::Nowhere(last)
}

// The lowest mirror under which a cell matches another; `symmetries` are those of the cell's children, and `key` is its key: a cell of another key
// doesn't match, whatever the mirror. Under each the first pointer is looked at before the arrays are handed on.
fn match_of(cell: [u32; 8], key: u32, symmetries: [u8; 8], other: [u32; 8]) -> Option<u32>
    requires names_cells { NamesCells cell }
    requires other_names_cells { NamesCells other }
    requires key_value { key ≡ key_of cell }
    ensures { mirror_found result ≡ lowest 8 0 (symmetry_match symmetries cell other) }
{
    if cell_key(other) != key {
        return None;
    }
    for mirror in 0..MIRRORS {
        if numbers_differ(cell[0], other[mirror as usize]) {
            continue;
        }
        if same_cell(cell, symmetries, mirror, other) {
            return Some(mirror);
        }
    }
    None
}

// A cell sought among those kept in list k, k not 0, `symmetries` being those of its children.
pub fn find_cell(store: Store, k: u32, cell: [u32; 8], symmetries: [u8; 8]) -> Sought
    requires in_order { InOrder store.words.now }
    requires inner_list { (1 ≤ k) × (k < heights) }
    requires names_cells { NamesCells cell }
    ensures result_value { sought result ≡ find (symmetry_match symmetries cell) (cells_at (kept_of store.entry.words.now) k) 0 }
    ensures ends_at { EndsAt result (last_of (kept_of store.entry.words.now) k (chain_of k cell)) }
{
    let key = cell_key(cell);
    let mut last = 0u32;
    let mut n = store.head_at(k, cell_chain(cell));
    // A chain is followed by its next words, as for a leaf.
    while n != 0 {
        if let Some(mirror) = match_of(cell, key, symmetries, store.cell_at(k, n - 1)) {
            return Sought::At(pointer(mirror, n - 1));
        }
        last = n;
        n = store.next_at(k, n - 1);
    }
    Sought::Nowhere(last)
}
