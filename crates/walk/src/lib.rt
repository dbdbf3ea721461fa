#![tactic(auto)]

// The walk on a store's words, list by list: from a cell down to a list, from a scene's root to a voxel, and the voxel at its end. A list is named by k:
// that of height k + 2. Coordinates are never reduced; the number of a child is mirrored by the mirror in force, and its tag joins that mirror.
ghost use Rattle.std.specs.Prelude.{◌≡◌, ◌≢◌, ◌-◌, ◌^◌, ◌<◌, T, Ok};
ghost use Rattle.paper.specs.Rooms.{inside};
ghost use Rattle.paper.specs.Answers.{seen};
ghost use Rattle.paper.specs.Questions.{voxel_walk};
ghost use Rattle.paper.specs.Store.{heights, cell_no, kept_count, kept_of, tag_of};
ghost use Rattle.points.specs.Points.{at};
ghost use Rattle.walk.specs.Walk.{AtKept, end_of, end_told, walk_to};
ghost use Rattle.walk.specs.Reached.{ended, reached};

mod image; // where a walk stands

pub use image::{End, Image};
use limits::LEAF_HEIGHT;
use paper::{Damaged, Voxel};
use points::{Point, child_number, leaf_solid};
use store::{Scene, Store};
use store_pointers::{any_bad, cell_number, tag};

// From a cell of list k, seen under a mirror, down to list `stop` on the way to a voxel; or a cell entered has a bad pointer.
pub fn walk_to(store: Store, stop: u32, k: u32, from: Image, v: Point) -> Result<End, Damaged>
    requires k_lt_heights { k < heights }
    requires kept { from.number < kept_count store.words.now k }
    ensures { ended result ≡ walk_to (kept_of store.entry.words.now) stop k from.number from.mirror (at v) }
{
    let mut number = from.number;
    let mut seen = from.mirror;
    for below in (stop..k).rev() {
        let cell = store.cell_at(below + 1, number);
        if any_bad(store.kept_count(below), cell) {
            return Err(Damaged);
        }
        let p = cell[(child_number(below, v) ^ seen) as usize];
        if p == 0 {
            return Ok(End::Absent(below + LEAF_HEIGHT));
        }
        number = cell_number(p);
        seen = tag(p) ^ seen;
    }
    Ok(End::At(Image {
        number,
        mirror: seen,
    }))
}

// The same from the cell that a scene's root pointer names, which is not none.
pub fn walk_root(scene: Scene, stop: u32, v: Point) -> Result<End, Damaged>
    requires rooted { scene.root ≢ 0 }
    ensures value { ended result ≡ walk_to (kept_of scene.entry.store.words.now) stop (scene.entry.depth - 2) (cell_no scene.entry.root) (tag_of scene.entry.root) (at v) }
    ensures at_kept { stop ≡ 0 → AtKept (kept_of scene.entry.store.words.now) (ended result) }
{
    let from = Image {
        number: cell_number(scene.root),
        mirror: tag(scene.root),
    };
    walk_to(scene.store, stop, scene.depth - LEAF_HEIGHT, from, v)
}

// The walk to a voxel inside a scene. One scene serves any number of voxels.
pub fn voxel_walk(scene: Scene, v: Point) -> Result<End, Damaged>
    requires inside { T (inside (2 ^ scene.depth) (at v)) }
    ensures value { end_of (kept_of scene.entry.store.words.now) (at v) (ended result) ≡ (voxel_walk (kept_of scene.entry.store.words.now) scene.entry.depth scene.entry.root (at v)).end }
    ensures at_kept { AtKept (kept_of scene.entry.store.words.now) (ended result) }
{
    if scene.root == 0 {
        return Ok(End::Absent(scene.depth));
    }
    walk_root(scene, 0, v)
}

// The voxel at which a walk ended; an empty one in a leaf has height 0.
pub fn voxel_at(store: Store, end: End, v: Point) -> Voxel
    requires at_kept { AtKept (kept_of store.words.now) (reached end) }
    ensures { seen (Ok result) ≡ end_told (end_of (kept_of store.entry.words.now) (at v) (reached end)) }
{
    match end {
        End::Absent(height) => Voxel::Empty(height),
        End::At(leaf) => {
            if leaf_solid(store.leaf_at(leaf.number), leaf.mirror, v) {
                Voxel::Solid
            } else {
                Voxel::Empty(0)
            }
        }
    }
}
