#![tactic(auto)]

// A file's parts written over an output, each behind the other: pointers, records, lists, sizes.
ghost use Rattle.std.specs.Prelude.{◌≡◌, map, ℕ, suc, ◌+◌, ◌≤◌, ◌<◌, T, length, get_or};
ghost use Rattle.paper.specs.Numbers.{flatten};
ghost use Rattle.paper.specs.Store.{heights, capacity_of, kept_count, kept_of, cell_no, store_ok};
ghost use Rattle.paper.specs.Pack.{pointer_bytes};
ghost use Rattle.numbers.specs.Laid.{reached, writing};
ghost use Rattle.pack_scratch.specs.Parts.{Room, places_in};
ghost use Rattle.pack_places.specs.Placing.{Below, Kept};
ghost use Rattle.pack_bytes.specs.Writing.{record_in, list_in, body_in, sizes_in, file_length};

use limits::{FARTHEST_SHORT, HALF_BYTES, LEAF_BYTES, LONG_PLACES, PACKED_HEAD, SHORT_PLACES};
use numbers::write_number;
use pack_places::codes_of;
use pack_scratch::Table;
use store_pointers::{cell_number, tag};
use store_whole::WholeStore;

// The bytes of a short and of a long pointer, of a record's header and of a list's size.
const SHORT_BYTES: usize = HALF_BYTES;

const LONG_BYTES: usize = 2 * HALF_BYTES;

const HEADER_BYTES: usize = HALF_BYTES;

const SIZE_BYTES: usize = 4;

// The same as lengths: of a file's head, of a size, of a half-word and of a leaf.
pub const HEAD: u64 = PACKED_HEAD as u64;

const SIZE_LENGTH: u64 = SIZE_BYTES as u64;

const HALF_LENGTH: u64 = HALF_BYTES as u64;

const LEAF_LENGTH: u64 = LEAF_BYTES as u64;

// A header has two bits for each child: the codes are its digits to this base.
const TWO_BITS: u32 = 4;

// The lowest mirror bit of a short and of a long pointer.
const SHORT_TAG: u64 = SHORT_PLACES as u64;

const LONG_TAG: u64 = LONG_PLACES as u64;

// Writes a pointer p into list k, or nothing for none; answers the position after it.
fn write_pointer(c: u32, k: u32, p: u32, scratch: &[u32], out: &mut [u8], at: usize) -> usize
    requires room { Room c k scratch.now }
    requires p_bound { (p ≡ 0 → ⊥) → cell_no p < c }
    requires p_in_bounds { at + length (pointer_bytes (places_in c k scratch.now) p) ≤ length out.old }
    ensures { reached result out.new ≡ writing (pointer_bytes (places_in c k scratch.now) p) at out.old }
{
    if p == 0 {
        return at;
    }
    let mirror = u64::from(tag(p));
    let to = Table::Place(k).get(c, cell_number(p), scratch);
    if to <= FARTHEST_SHORT {
        return write_number(out, at, SHORT_BYTES, mirror * SHORT_TAG + u64::from(to));
    }
    write_number(out, at, LONG_BYTES, mirror * LONG_TAG + u64::from(to))
}

// Writes a cell's pointers into list k; answers the position after them.
fn write_pointers(
    c: u32,
    k: u32,
    cell: [u32; 8],
    scratch: &[u32],
    out: &mut [u8],
    at: usize,
) -> usize
    requires room { Room c k scratch.now }
    requires below { Below c cell }
    requires cell_in_bounds { at + length (flatten (map (pointer_bytes (places_in c k scratch.now)) cell)) ≤ length out.old }
    ensures { reached result out.new ≡ writing (flatten (map (pointer_bytes (places_in c k scratch.now)) cell)) at out.old }
{
    let mut next = at;
    for p in cell {
        next = write_pointer(c, k, p, scratch, out, next);
    }
    next
}

// Writes the record of cell q of list k; answers the position after it.
fn write_record(
    whole: WholeStore,
    k: u32,
    q: u32,
    scratch: &[u32],
    out: &mut [u8],
    at: usize,
) -> usize
    requires room { Room (capacity_of whole.store.words.now) k scratch.now }
    requires q_bound { q < kept_count whole.store.words.now k }
    requires q_in_bounds { at + length (record_in (kept_of whole.store.words.now) (capacity_of whole.store.words.now) k scratch.now q) ≤ length out.old }
    ensures { reached result out.new ≡ writing (record_in (kept_of whole.entry.store.words.now) (capacity_of whole.entry.store.words.now) k scratch.now q) at out.old }
{
    if k == 0 {
        return write_number(out, at, LEAF_BYTES, whole.store.leaf_at(q));
    }
    let c = whole.store.capacity();
    let cell = whole.store.cell_at(k, q);
    let header = u64::from(codes_of(c, k - 1, cell, TWO_BITS, scratch));
    let next = write_number(out, at, HEADER_BYTES, header);
    write_pointers(c, k - 1, cell, scratch, out, next)
}

// Writes list k of n cells; answers the position after it.
fn write_list(
    whole: WholeStore,
    k: u32,
    n: u32,
    scratch: &[u32],
    out: &mut [u8],
    at: usize,
) -> usize
    requires room { Room (capacity_of whole.store.words.now) k scratch.now }
    requires kept { Kept whole.store.words.now k n scratch.now }
    requires out_in_bounds { at + length (list_in (kept_of whole.store.words.now) (capacity_of whole.store.words.now) k n scratch.now) ≤ length out.old }
    ensures { reached result out.new ≡ writing (list_in (kept_of whole.entry.store.words.now) (capacity_of whole.entry.store.words.now) k n scratch.now) at out.old }
{
    let c = whole.store.capacity();
    let mut next = at;
    for i in 0..n {
        let q = Table::Order(k).get(c, i, scratch);
        next = write_record(whole, k, q, scratch, out, next);
    }
    next
}

// Writes the lists from list `top` down to the leaves; answers the position after them.
pub fn write_lists(
    whole: WholeStore,
    top: u32,
    counts: [u32; 15],
    scratch: &[u32],
    out: &mut [u8],
    at: usize,
) -> usize
    requires room { Room (capacity_of whole.store.words.now) top scratch.now }
    requires all_kept { (j : ℕ) → j ≤ top → Kept whole.store.words.now j (get_or counts j 0) scratch.now }
    requires out_in_bounds { at + length (body_in (kept_of whole.store.words.now) (capacity_of whole.store.words.now) counts (suc top) scratch.now) ≤ length out.old }
    ensures { reached result out.new ≡ writing (body_in (kept_of whole.entry.store.words.now) (capacity_of whole.entry.store.words.now) counts (suc top) scratch.now) at out.old }
{
    let mut next = at;
    for k in (0..top + 1).rev() {
        next = write_list(whole, k, counts[k as usize], scratch, out, next);
    }
    next
}

// Writes the sizes of the lists from list `top` down; answers the position after them.
pub fn write_sizes(sizes: [u32; 15], top: u32, out: &mut [u8], at: usize) -> usize
    requires top_lt_heights { top < heights }
    requires top_in_bounds { at + length (sizes_in sizes (suc top)) ≤ length out.old }
    ensures { reached result out.new ≡ writing (sizes_in sizes (suc top)) at out.old }
{
    let mut next = at;
    for k in (0..top + 1).rev() {
        next = write_number(out, next, SIZE_BYTES, u64::from(sizes[k as usize]));
    }
    next
}

// The length of a file whose lists have these sizes.
pub fn file_length(sizes: [u32; 15], top: u32) -> u64
    requires { top < heights }
    ensures { result ≡ file_length sizes top }
{
    let mut sum = HEAD + SIZE_LENGTH * (u64::from(top) + 1);
    for k in (1..top + 1).rev() {
        sum += HALF_LENGTH * u64::from(sizes[k as usize]);
    }
    sum + LEAF_LENGTH * u64::from(sizes[0])
}
