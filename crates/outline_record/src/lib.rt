#![tactic(auto)]

// A cell's record written into an outline: a leaf's eight bytes, or a mask byte and the children's records. The cell is seen
// under a mirror: a child's number is mirrored by the mirror in force, and its tag joins that mirror.
ghost use Rattle.std.specs.Prelude.{◌≡◌, ◌+◌, ◌≤◌, ◌<◌, length};
ghost use Rattle.paper.specs.Store.{kept_of};
ghost use Rattle.numbers.specs.Laid.{reached, writing};
ghost use Rattle.outline_measure.specs.Measure.{Kept};
ghost use Rattle.outline_record.specs.Record.{mask_at, record_at};

use leaf::mirror_leaf;
use limits::{CHILDREN, LEAF_BYTES};
use numbers::write_number;
use store::Store;
use store_pointers::{cell_number, tag};

// The mask of a cell seen under a mirror: bit i for a child i that is there.
fn mask(cell: &[u32; 8], mirror: u32) -> u8
    requires { mirror < 8 }
    ensures { result ≡ mask_at cell.now mirror }
{
    let mut bits = 0u8;
    for i in (0..CHILDREN).rev() {
        bits = 2 * bits + u8::from(cell[(i ^ mirror) as usize] != 0);
    }
    bits
}

// Writes the record of leaf n seen under a mirror; answers the position after it.
fn write_leaf(store: Store, n: u32, mirror: u32, out: &mut [u8], at: usize) -> usize
    requires kept { Kept store.words.now 0 n }
    requires out_in_bounds { at + length (record_at (kept_of store.words.now) 0 n mirror) ≤ length out.old }
    ensures { reached result out.new ≡ writing (record_at (kept_of store.entry.words.now) 0 n mirror) at out.old }
{
    write_number(out, at, LEAF_BYTES, mirror_leaf(store.leaf_at(n), mirror))
}

// Writes the record of cell n of list k seen under a mirror; answers the position after it.
pub fn write_record(store: Store, k: u32, n: u32, mirror: u32, out: &mut [u8], at: usize) -> usize
    requires kept { Kept store.words.now k n }
    requires mirror_bound { mirror < 8 }
    requires out_in_bounds { at + length (record_at (kept_of store.words.now) k n mirror) ≤ length out.old }
    ensures { reached result out.new ≡ writing (record_at (kept_of store.entry.words.now) k n mirror) at out.old }
{
    if k == 0 {
        return write_leaf(store, n, mirror, out, at);
    }
    let cell = store.cell_at(k, n);
    out[at] = mask(&cell, mirror);
    let mut next = at + 1;
    for i in 0..CHILDREN {
        let p = cell[(i ^ mirror) as usize];
        if p == 0 {
            continue;
        }
        next = write_record(store, k - 1, cell_number(p), tag(p) ^ mirror, out, next);
    }
    next
}
