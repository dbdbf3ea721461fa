#![tactic(auto)]

// Cell, with its whole outcome as `paper` defines it: refused by 2 (header), 9, 2 (the scene's two words), 10, 2 (walk), in this order. From height 2 up
// the cell's pointer decides, below that the leaf's bits.
ghost use Rattle.std.specs.Prelude.{◌≡◌, ◌≢◌, [], ◌-◌, ◌^◌, ◌<◌, ◌≤◌, T, Ok};
ghost use Rattle.paper.specs.Rooms.{Inside, deepest, inside, non_empty};
ghost use Rattle.paper.specs.Store.{kept_of};
ghost use Rattle.paper.specs.Answers.{outcome, occupied};
ghost use Rattle.paper.specs.Questions.{corner as corner-of};
ghost use Rattle.paper.specs.Calls.{cell_outcome};
ghost use Rattle.points.specs.Points.{at};
ghost use Rattle.walk.specs.Walk.{AtKept};
ghost use Rattle.walk.specs.Reached.{reached};
ghost use Rattle.cell.specs.Cell.{Aligned, cell_end, small_at, told_by, cell_asked, cell_told, leaf_seen};

use limits::LEAF_HEIGHT;
use paper::Refusal;
use points::{Point, leaf_solid, outside};
use store::{Scene, Store};
use store_entry::enter;
use walk::{End, walk_root};

// A cell's low corner.
fn corner(height: u32, v: Point) -> Point
    requires { (height ≤ deepest) × Inside 65536 (corner-of height (at v)) }
    ensures { at result ≡ corner-of height (at v) }
{
    Point {
        x: v.x << height,
        y: v.y << height,
        z: v.z << height,
    }
}

// The list at which the walk to a cell of this height stops: that of the cell, or of its leaf.
fn list_of(height: u32) -> u32
    ensures { result ≡ height - 2 }
{
    height.saturating_sub(LEAF_HEIGHT)
}

// Whether the cell of height 1 with this low corner is non-empty, by its leaf's bits: the mask has the eight of such a cube, from its corner's on. Along a
// marked axis the corner's coordinate c in the leaf, 0 or 2, is 2 - c: the other of the two.
fn cube_non_empty(leaf: u64, mirror: u32, v: Point) -> bool
    requires { Aligned 1 (at v) }
    ensures { result ≡ non_empty 2 (leaf_seen leaf mirror (at v)) }
{
    let a = (v.x % 4) ^ (2 * (mirror % 2));
    let b = (v.y % 4) ^ (2 * (mirror / 2 % 2));
    let c = (v.z % 4) ^ (2 * (mirror / 4 % 2));
    (leaf >> (a + 4 * b + 16 * c)) & 0x0033_0033 != 0
}

// Whether the cell of height 0 or 1 with this low corner is non-empty, by its leaf's bits.
fn leaf_non_empty(leaf: u64, mirror: u32, height: u32, v: Point) -> bool
    requires { (height < 2) × Aligned height (at v) }
    ensures { result ≡ non_empty (2 ^ height) (leaf_seen leaf mirror (at v)) }
{
    if height == 0 {
        return leaf_solid(leaf, mirror, v);
    }
    cube_non_empty(leaf, mirror, v)
}

// Whether the cell of height 0 or 1 is non-empty, where the walk to its leaf ended.
fn small_at(store: Store, end: End, height: u32, v: Point) -> bool
    requires at_kept { AtKept (kept_of store.words.now) (reached end) }
    requires small { height < 2 }
    requires aligned { Aligned height (at v) }
    ensures { occupied (Ok result) ≡ told_by (small_at (kept_of store.entry.words.now) height (at v) (reached end)) }
{
    match end {
        End::Absent(_) => false,
        End::At(leaf) => leaf_non_empty(store.leaf_at(leaf.number), leaf.mirror, height, v),
    }
}

// Whether the cell asked for is non-empty, where the walk to its list ended.
fn cell_ended(end: End) -> bool
    ensures { occupied (Ok result) ≡ told_by (cell_end (reached end)) }
{
    match end {
        End::Absent(_) => false,
        End::At(_) => true,
    }
}

// A cell inside a scene whose root pointer is not none.
fn cell_under(scene: Scene, height: u32, v: Point) -> Result<bool, Refusal>
    requires rooted { scene.root ≢ 0 }
    requires low { height ≤ scene.depth }
    requires within { T (inside (2 ^ (scene.depth - height)) (at v)) }
    ensures { occupied result ≡ cell_asked (kept_of scene.entry.store.words.now) scene.entry.depth scene.entry.root height (at v) }
{
    let low = corner(height, v);
    let end = walk_root(scene, list_of(height), low)?;
    if height < LEAF_HEIGHT {
        return Ok(small_at(scene.store, end, height, low));
    }
    Ok(cell_ended(end))
}

// The cell of a scene.
fn cell_from(scene: Scene, height: u32, v: Point) -> Result<bool, Refusal>
    ensures { occupied result ≡ cell_told (kept_of scene.entry.store.words.now) scene.entry.depth scene.entry.root height (at v) }
{
    if scene.depth < height {
        return Err(Refusal::Outside);
    }
    if outside(scene.depth - height, v) {
        return Err(Refusal::Outside);
    }
    if scene.root == 0 {
        return Ok(false);
    }
    cell_under(scene, height, v)
}

// Cell: whether it is non-empty, the point counted in cells of its height.
pub fn cell(words: &[u32], scene: u32, height: u32, v: Point) -> Result<bool, Refusal>
    ensures { outcome (occupied result) [] ≡ cell_outcome words.now scene height (at v) }
{
    let entered = enter(words, scene)?;
    cell_from(entered, height, v)
}
