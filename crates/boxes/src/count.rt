// How many solid voxels a part of a cell holds. The cell is seen under a mirror.
ghost use Rattle.std.specs.Prelude.{◌≡◌, suc, ◌-◌, ◌^◌, ◌<◌};
ghost use Rattle.paper.specs.Outline.{edge as edge-of};
ghost use Rattle.paper.specs.Rooms.{in_child};
ghost use Rattle.paper.specs.Questions.{tally_of, count_taken};
ghost use Rattle.paper.specs.Store.{heights, kept_count, kept_of, bad_pointer};
ghost use Rattle.points.specs.Points.{at};
ghost use Rattle.boxes_parts.specs.Parts.{InCell, Upto, past_in};
ghost use Rattle.boxes.specs.Box.{child_taken, AtKept, tally_at, pointer_in, children_in, cell_part, pointer_part};

use boxes_leaf::count_leaf;
use boxes_parts::{Part, stored_number};
use limits::{CHILDREN, LEAF_HEIGHT};
use paper::Damaged;
use points::{Point, child_number};
use store::{Scene, Store};
use store_pointers::{bad_pointer, cell_number, tag};

// Where a part is counted, once it lies in no single child: this cell of this list, seen under this mirror, is a leaf, or the part spreads over several of
// its children.
#[derive(Clone, Copy)]
struct Place {
    list: u32,
    number: u32,
    mirror: u32,
}

// Whether pointer p of list k is bad.
fn pointer_bad(store: Store, k: u32, p: u32) -> bool
    requires k_lt_heights { k < heights }
    ensures { result ≡ bad_pointer (kept_count store.entry.words.now k) p }
{
    bad_pointer(store.kept_count(k), p)
}

// The pointer that a cell of list k + 1, seen under a mirror, has for the child that holds a voxel.
fn child_pointer(store: Store, k: u32, number: u32, mirror: u32, v: Point) -> u32
    requires k_bound { (suc k < heights) × (mirror < 8) }
    requires number_bound { number < kept_count store.words.now (suc k) }
    ensures { result ≡ child_taken (kept_of store.entry.words.now) k number mirror (at v) }
{
    let cell = store.cell_at(k + 1, number);
    cell[stored_number(child_number(k, v), mirror) as usize]
}

// From what a pointer of list k stands for, seen under a mirror, down while the part lies in one child; none where a pointer on the way is none. The loop
// follows a path, and stops where that ends. Here and below only pointers on the way to a voxel of the part are tested, as paper's `pointer_tally` says, not
// all eight of a cell.
fn down(
    store: Store,
    k: u32,
    pointer: u32,
    mirror: u32,
    part: Part,
) -> Result<Option<Place>, Damaged>
    requires in_cell { InCell k mirror (at part.low) (at part.last) }
    ensures tally { tally_at store.entry.words.now (at part.low) (at part.last) result ≡ pointer_part store.entry.words.now k pointer mirror (at part.low) (at part.last) }
    ensures at_kept { AtKept store.entry.words.now k (at part.low) (at part.last) result }
{
    let mut list = k;
    let mut p = pointer;
    let mut seen = mirror;
    while p != 0 {
        if pointer_bad(store, list, p) {
            return Err(Damaged);
        }
        let number = cell_number(p);
        seen = tag(p) ^ seen;
        if part.spreads(list) {
            return Ok(Some(Place {
                list,
                number,
                mirror: seen,
            }));
        }
        list -= 1;
        p = child_pointer(store, list, number, seen, part.low);
    }
    Ok(None)
}

// The count of a cell of list k, or damage where it is more than the cell has voxels.
fn count_taken(k: u32, count: u64) -> Result<u64, Damaged>
    requires { k < heights }
    ensures { tally_of result ≡ count_taken k count }
{
    if 1u64 << (3 * (k + LEAF_HEIGHT)) < count {
        return Err(Damaged);
    }
    Ok(count)
}

// The solid voxels of what a pointer of list k stands for, seen under a mirror, in a part.
#[cycle(count_cell_count_children_count_pointer)]
fn count_pointer(store: Store, k: u32, p: u32, mirror: u32, part: Part) -> Result<u64, Damaged>
    requires in_cell { InCell k mirror (at part.low) (at part.last) }
    ensures { tally_of result ≡ pointer_part store.entry.words.now k p mirror (at part.low) (at part.last) }
{
    match down(store, k, p, mirror, part)? {
        None => Ok(0),
        Some(place) => count_cell(store, place.list, place.number, place.mirror, part),
    }
}

// The solid voxels of a cell of list k, seen under a mirror, in a part.
#[cycle(count_cell_count_children_count_pointer)]
fn count_cell(store: Store, k: u32, number: u32, mirror: u32, part: Part) -> Result<u64, Damaged>
    requires in_cell { InCell k mirror (at part.low) (at part.last) }
    requires number_bound { number < kept_count store.words.now k }
    ensures { tally_of result ≡ cell_part store.entry.words.now k number mirror (at part.low) (at part.last) }
{
    if k == 0 {
        return Ok(count_leaf(store.leaf_at(number), mirror, part.low, part.last));
    }
    if part.is_whole(k) {
        return count_taken(k, store.count_at(k, number));
    }
    count_children(store, k - 1, store.cell_at(k, number), mirror, part)
}

// The solid voxels of the children of a cell, of list k, that share a voxel with the part.
#[cycle(count_cell_count_children_count_pointer)]
fn count_children(
    store: Store,
    k: u32,
    cell: [u32; 8],
    mirror: u32,
    part: Part,
) -> Result<u64, Damaged>
    requires in_cell { InCell (suc k) mirror (at part.low) (at part.last) }
    ensures { tally_of result ≡ children_in store.entry.words.now k cell mirror 8 (in_child (edge-of (suc k)) (at part.low)) (past_in (edge-of (suc k)) (at part.last)) }
{
    let mut sum = 0u64;
    for i in (0..CHILDREN).rev() {
        let Some(inside) = part.in_child(k, i) else {
            continue;
        };
        let p = cell[stored_number(i, mirror) as usize];
        let count = count_pointer(store, k, p, mirror, inside)?;
        sum += count;
    }
    Ok(sum)
}

// The solid voxels of a scene in a box.
pub fn scene_box(scene: Scene, low: Point, high: Point) -> Result<u64, Damaged>
    requires upto { Upto (2 ^ scene.depth) (at high) }
    ensures { tally_of result ≡ pointer_in scene.entry.store.words.now (scene.entry.depth - 2) scene.entry.root 0 (at low) (at high) }
{
    let Some(part) = Part::of(low, high) else {
        return Ok(0);
    };
    count_pointer(scene.store, scene.depth - LEAF_HEIGHT, scene.root, 0, part)
}
