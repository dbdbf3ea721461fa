// Cells entered one after the other, until a leaf has a solid voxel in the box. A cell is seen under a mirror.
ghost use Rattle.std.specs.Prelude.{◌≡◌, false, suc, ◌<◌, Ok};
ghost use Rattle.paper.specs.Outline.{edge as edge-of};
ghost use Rattle.paper.specs.Rooms.{in_child};
ghost use Rattle.paper.specs.Store.{kept_count};
ghost use Rattle.paper.specs.Anything.{search_of};
ghost use Rattle.points.specs.Points.{at};
ghost use Rattle.boxes_parts.specs.Parts.{InCell, past_in};
ghost use Rattle.search.specs.Searching.{InWhole, FirstNamed, leaf_search, search_part, whole_search, cell_bad, children_search};

use boxes_leaf::count_leaf;
use boxes_parts::{Part, stored_number};
use leaf::leaf_solid;
use limits::CHILDREN;
use paper::{Damaged, Searched};
use store::Store;
use store_pointers::{any_bad, bad_pointer, cell_number, tag};

// What a leaf with so many solid voxels in the box finds; it is one cell entered.
fn leaf_search(solid: u64) -> Searched
    ensures { search_of (Ok result) ≡ leaf_search solid }
{
    Searched {
        found: solid != 0,
        entered: 1,
    }
}

// Whether a child of list k that shares a voxel with the part has a bad pointer, in a cell seen under a mirror.
fn shared_bad(count: u32, k: u32, cell: [u32; 8], mirror: u32, part: Part) -> bool
    requires { InCell (suc k) mirror (at part.low) (at part.last) }
    ensures { result ≡ cell_bad count k cell mirror (in_child (edge-of (suc k)) (at part.low)) (past_in (edge-of (suc k)) (at part.last)) }
{
    let mut bad = false;
    for i in 0..CHILDREN {
        let p = cell[stored_number(i, mirror) as usize];
        bad |= part.shares(k, i) & bad_pointer(count, p);
    }
    bad
}

// The first child, of a cell seen under a mirror, that names the same cell as child i.
fn first_named(cell: [u32; 8], mirror: u32, i: u32) -> u32
    requires { (i < 8) × (mirror < 8) }
    ensures { FirstNamed cell mirror i result }
{
    let number = cell_number(cell[stored_number(i, mirror) as usize]);
    for j in 0..i {
        let p = cell[stored_number(j, mirror) as usize];
        if (p != 0) & (cell_number(p) == number) {
            return j;
        }
    }
    i
}

// The search through all of a cell of list k. A child that names the cell of one before it, which met nothing, is not entered again to be counted.
fn search_whole(store: Store, k: u32, number: u32, mirror: u32) -> Result<Searched, Damaged>
    requires in_whole { InWhole store.words.now k number mirror }
    ensures { search_of result ≡ whole_search store.entry.words.now k number mirror }
{
    if k == 0 {
        return Ok(leaf_search(leaf_solid(store.leaf_at(number))));
    }
    let cell = store.cell_at(k, number);
    if any_bad(store.kept_count(k - 1), cell) {
        return Err(Damaged);
    }
    let mut passed = [0u64; 8];
    let mut entered = 1u64;
    for child in 0..CHILDREN {
        let pointer = cell[stored_number(child, mirror) as usize];
        if pointer == 0 {
            continue;
        }
        let before = first_named(cell, mirror, child);
        if before < child {
            entered += passed[before as usize];
            continue;
        }
        let below = search_whole(store, k - 1, cell_number(pointer), tag(pointer) ^ mirror)?;
        entered += below.entered;
        if below.found {
            return Ok(Searched {
                found: true,
                entered,
            });
        }
        passed[child as usize] = below.entered;
    }
    Ok(Searched {
        found: false,
        entered,
    })
}

// The search through a cell of list k in a part.
#[cycle(search_cell_search_children)]
pub fn search_cell(
    store: Store,
    k: u32,
    number: u32,
    mirror: u32,
    part: Part,
) -> Result<Searched, Damaged>
    requires in_cell { InCell k mirror (at part.low) (at part.last) }
    requires number_bound { number < kept_count store.words.now k }
    ensures { search_of result ≡ search_part store.entry.words.now k number mirror (at part.low) (at part.last) }
{
    if part.is_whole(k) {
        return search_whole(store, k, number, mirror);
    }
    if k == 0 {
        return Ok(leaf_search(count_leaf(store.leaf_at(number), mirror, part.low, part.last)));
    }
    let cell = store.cell_at(k, number);
    if shared_bad(store.kept_count(k - 1), k - 1, cell, mirror, part) {
        return Err(Damaged);
    }
    search_children(store, k - 1, cell, mirror, part)
}

// The search through the children of a cell, of list k, that share a voxel with the part, none of whose pointers is bad. The cell itself counts.
#[cycle(search_cell_search_children)]
fn search_children(
    store: Store,
    k: u32,
    cell: [u32; 8],
    mirror: u32,
    part: Part,
) -> Result<Searched, Damaged>
    requires in_cell { InCell (suc k) mirror (at part.low) (at part.last) }
    requires not_bad { cell_bad (kept_count store.words.now k) k cell mirror (in_child (edge-of (suc k)) (at part.low)) (past_in (edge-of (suc k)) (at part.last)) ≡ false }
    ensures { search_of result ≡ children_search store.entry.words.now k cell mirror (in_child (edge-of (suc k)) (at part.low)) (past_in (edge-of (suc k)) (at part.last)) }
{
    let mut entered = 1u64;
    for child in 0..CHILDREN {
        let Some(inside) = part.in_child(k, child) else {
            continue;
        };
        let p = cell[stored_number(child, mirror) as usize];
        if p == 0 {
            continue;
        }
        let below = search_cell(store, k, cell_number(p), tag(p) ^ mirror, inside)?;
        entered += below.entered;
        if below.found {
            return Ok(Searched {
                found: true,
                entered,
            });
        }
    }
    Ok(Searched {
        found: false,
        entered,
    })
}
