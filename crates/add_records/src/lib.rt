#![tactic(auto)]

// A file's records added to the store, each cell sought or kept: the function for a record calls itself for each child
// ('calls for'), one height down, to the cells over leaves. The file was read before, so nothing is tested again.
ghost use Rattle.std.specs.Prelude.{◌≡◌, ◌-◌};
ghost use Rattle.add_records.specs.RecordAdding.{record_adding, add_record, AtRecord};

use add_cells::{add_cell_in, add_leaf_in};
use leaf::leaf_solid;
use limits::{CHILDREN, LEAF_BYTES, LEAF_HEIGHT};
use numbers::be64;
use paper::Full;

// The height of a cell whose children are leaves.
const OVER_LEAVES: u32 = LEAF_HEIGHT + 1;

/// A record that was added: the position after it, a pointer to its cell with the cell's symmetry, and how many solid voxels it has.
#[derive(Clone, Copy)]
pub struct Record {
    pub end: usize,
    pub pointer: u32,
    pub symmetry: u8,
    pub solid: u64,
}

// A leaf's record.
fn add_leaf_record(file: &[u8], store: &mut [u32], at: usize) -> Result<Record, Full>
    requires { AtRecord file.now store.old at 2 }
    ensures { record_adding result store.new ≡ add_record file.now 0 at store.old }
{
    let leaf = be64(file, at);
    let end = at + LEAF_BYTES;
    let kept = add_leaf_in(store, leaf)?;
    Ok(Record {
        end,
        pointer: kept.pointer,
        symmetry: kept.symmetry,
        solid: leaf_solid(leaf),
    })
}

// The record of a cell over leaves: those that its mask calls for, the lowest bit first, into a cell that is then sought or kept. Apart from
// `add_record`, whose frame stands once for each height and would have to hold this one's calls too.
// Nor do their loops share a struct of what was added so far: it makes that frame 360 bytes, where it has 248.
fn add_leaves_record(file: &[u8], store: &mut [u32], at: usize) -> Result<Record, Full>
    requires { AtRecord file.now store.old at 3 }
    ensures { record_adding result store.new ≡ add_record file.now 1 at store.old }
{
    let mut cell = [0u32; 8];
    let mut symmetries = [0u8; 8];
    let mut mask = file[at];
    let mut next = at + 1;
    let mut solid = 0u64;
    for child in 0..CHILDREN as usize {
        let called = mask % 2;
        mask /= 2;
        if called == 0 {
            continue;
        }
        let leaf = add_leaf_record(file, store, next)?;
        cell[child] = leaf.pointer;
        symmetries[child] = leaf.symmetry;
        next = leaf.end;
        solid += leaf.solid;
    }
    let kept = add_cell_in(store, 1, cell, symmetries, solid)?;
    Ok(Record {
        end: next,
        pointer: kept.pointer,
        symmetry: kept.symmetry,
        solid,
    })
}

// The record of a cell of this height: a leaf's, that of a cell over leaves, or the records of the children that its mask calls for, the lowest bit
// first, into a cell that is then sought or kept.
pub fn add_record(file: &[u8], store: &mut [u32], at: usize, height: u32) -> Result<Record, Full>
    requires { AtRecord file.now store.old at height }
    ensures { record_adding result store.new ≡ add_record file.now (height - 2) at store.old }
{
    if height == LEAF_HEIGHT {
        return add_leaf_record(file, store, at);
    }
    if height == OVER_LEAVES {
        return add_leaves_record(file, store, at);
    }
    let mut cell = [0u32; 8];
    let mut symmetries = [0u8; 8];
    let mut mask = file[at];
    let mut next = at + 1;
    let mut solid = 0u64;
    for child in 0..CHILDREN as usize {
        let called = mask % 2;
        mask /= 2;
        if called == 0 {
            continue;
        }
        let added = add_record(file, store, next, height - 1)?;
        cell[child] = added.pointer;
        symmetries[child] = added.symmetry;
        next = added.end;
        solid += added.solid;
    }
    let kept = add_cell_in(store, height - LEAF_HEIGHT, cell, symmetries, solid)?;
    Ok(Record {
        end: next,
        pointer: kept.pointer,
        symmetry: kept.symmetry,
        solid,
    })
}
