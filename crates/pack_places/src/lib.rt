#![tactic(auto)]

// Where each record lies in its list: half-words from the list's start, or the leaf's number. From the leaves up, so
// that a record's size is known from the places of the records that it points to.
ghost use Rattle.std.specs.Prelude.{◌≡◌, ℕ, ◌+◌, ◌≤◌, ◌<◌, T, get_or};
ghost use Rattle.paper.specs.Store.{capacity_of, kept_count, kept_of, cell_no, store_ok};
ghost use Rattle.paper.specs.Pack.{code};
ghost use Rattle.numbers.specs.Laid.{reached};
ghost use Rattle.pack_scratch.specs.Parts.{Room, places_in};
ghost use Rattle.pack_places.specs.Placing.{digits, span, placed_list, placed, placed_lists, Below, Kept, last_place, all_near};

use limits::{CHILDREN, FARTHEST_SHORT};
use pack_scratch::Table;
use packed_records::code_for;
use store_pointers::cell_number;
use store_whole::WholeStore;

// A pointer's code is its half-words: to base 1 the codes of a cell are counted together.
const COUNTED: u32 = 1;

// The half-words of a pointer p into list k: 0 for none.
pub fn code_of(c: u32, k: u32, p: u32, scratch: &[u32]) -> u32
    requires room { Room c k scratch.now }
    requires p_bound { (p ≡ 0 → ⊥) → cell_no p < c }
    ensures { result ≡ code (places_in c k scratch.now) p }
{
    if p == 0 {
        return 0;
    }
    code_for(Table::Place(k).get(c, cell_number(p), scratch))
}

// The codes of a cell's pointers into list k as the digits of a number to this base, child 0's the lowest.
pub fn codes_of(c: u32, k: u32, cell: [u32; 8], base: u32, scratch: &[u32]) -> u32
    requires room { Room c k scratch.now }
    requires below { Below c cell }
    requires base_bound { base ≤ 4 }
    ensures { (result ≡ digits base (places_in c k scratch.now) cell) × (result < 65536) }
{
    let mut number = 0u32;
    for i in (0..CHILDREN as usize).rev() {
        number = code_of(c, k, cell[i], scratch) + base * number;
    }
    number
}

// What the record of cell q of list k takes of its list: half-words, or one leaf.
fn span_of(whole: WholeStore, k: u32, q: u32, scratch: &[u32]) -> u32
    requires room { Room (capacity_of whole.store.words.now) k scratch.now }
    requires q_bound { q < kept_count whole.store.words.now k }
    ensures { (result ≡ span (kept_of whole.entry.store.words.now) (capacity_of whole.entry.store.words.now) k scratch.now q) × (result ≤ 17) }
{
    if k == 0 {
        return 1;
    }
    codes_of(
        whole.store.capacity(),
        k - 1,
        whole.store.cell_at(k, q),
        COUNTED,
        scratch,
    ) + 1 // for the header
}

// Places the n cells of list k in their order; answers the list's size.
fn place_list(whole: WholeStore, k: u32, n: u32, scratch: &mut [u32]) -> u32
    requires room { Room (capacity_of whole.store.words.now) k scratch.old }
    requires kept { Kept whole.store.words.now k n scratch.old }
    ensures { reached result scratch.new ≡ placed_list (kept_of whole.entry.store.words.now) (capacity_of whole.entry.store.words.now) k n scratch.old }
{
    let c = whole.store.capacity();
    let mut at = 0u32;
    for i in 0..n {
        let q = Table::Order(k).get(c, i, scratch);
        let taken = span_of(whole, k, q, scratch);
        Table::Place(k).put(c, q, at, scratch);
        at += taken;
    }
    at
}

// Places the cells of all lists up to `top`, from the leaves up; answers the lists' sizes.
pub fn place_lists(whole: WholeStore, top: u32, counts: [u32; 15], scratch: &mut [u32]) -> [u32; 15]
    requires room { Room (capacity_of whole.store.words.now) top scratch.old }
    requires all_kept { (j : ℕ) → j ≤ top → Kept whole.store.words.now j (get_or counts j 0) scratch.old }
    ensures { placed result scratch.new ≡ placed_lists (kept_of whole.entry.store.words.now) (capacity_of whole.entry.store.words.now) counts (top + 1) scratch.old }
{
    let mut sizes = [0u32; 15];
    for k in 0..=top {
        let i = k as usize;
        sizes[i] = place_list(whole, k, counts[i], scratch);
    }
    sizes
}

// The place of the last of the n cells of list k in their order, the farthest of the list; 0 where there is none.
fn last_place(whole: WholeStore, k: u32, n: u32, scratch: &[u32]) -> u32
    requires room { Room (capacity_of whole.store.words.now) k scratch.now }
    requires kept { Kept whole.store.words.now k n scratch.now }
    ensures { result ≡ last_place (capacity_of whole.entry.store.words.now) k n scratch.now }
{
    if n == 0 {
        return 0;
    }
    let c = whole.store.capacity();
    let last = Table::Order(k).get(c, n - 1, scratch);
    Table::Place(k).get(c, last, scratch)
}

// Does a short pointer reach every cell of the lists below `top`?
pub fn all_near(whole: WholeStore, top: u32, counts: [u32; 15], scratch: &[u32]) -> bool
    requires room { Room (capacity_of whole.store.words.now) top scratch.now }
    requires all_kept { (j : ℕ) → j ≤ top → Kept whole.store.words.now j (get_or counts j 0) scratch.now }
    ensures { result ≡ all_near (capacity_of whole.entry.store.words.now) counts top scratch.now }
{
    for k in 0..top {
        if last_place(whole, k, counts[k as usize], scratch) > FARTHEST_SHORT {
            return false;
        }
    }
    true
}
