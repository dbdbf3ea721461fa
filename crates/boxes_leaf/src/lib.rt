#![tactic(auto)]

// A leaf's solid voxels in a box: a mask for each axis, and the ones of what is left. No store.
ghost use Rattle.std.specs.Prelude.{◌≡◌, ◌/◌, ◌%◌, ◌<◌};
ghost use Rattle.paper.specs.Rooms.{Inside, mirrored, in_child, box_count};
ghost use Rattle.paper.specs.Leaf.{leaf_voxel};
ghost use Rattle.points.specs.Points.{at};
ghost use Rattle.boxes_parts.specs.Parts.{past_in};
ghost use Rattle.boxes_leaf.specs.LeafBox.{Marks, in_side, in_sides, behind_in};

use boxes_parts::chosen;
use numbers::wider;
use points::Point;

// The four voxels of a row, the sixteen bits of a plane, and all bits of a leaf.
const ROW: u64 = 0xF;

const PLANE: u64 = 0xFFFF;

const LEAF: u64 = 0xFFFFFFFFFFFFFFFF;

// A row in each of the sixteen, a plane in each of the four.
const EACH_ROW: u64 = 0x1111111111111111;

const EACH_PLANE: u64 = 0x0001000100010001;

// The voxels of a leaf that have so many before them in x, and so many behind. The masks of the three axes are three formulas: one function would take
// each number of them as a parameter.
fn x_mask(before: u32, behind: u32) -> u64
    requires { (before < 4) × (behind < 4) }
    ensures { Marks result (λ j. in_side before behind (j % 4)) }
{
    ((ROW << before) & (ROW >> behind)) * EACH_ROW
}

// The same in y.
fn y_mask(before: u32, behind: u32) -> u64
    requires { (before < 4) × (behind < 4) }
    ensures { Marks result (λ j. in_side before behind (j / 4 % 4)) }
{
    ((PLANE << (4 * before)) & (PLANE >> (4 * behind))) * EACH_PLANE
}

// The same in z.
fn z_mask(before: u32, behind: u32) -> u64
    requires { (before < 4) × (behind < 4) }
    ensures { Marks result (λ j. in_side before behind (j / 16)) }
{
    (LEAF << (16 * before)) & (LEAF >> (16 * behind))
}

// The voxels of a leaf that have so many before and behind them on each axis.
fn mask(before: Point, behind: Point) -> u64
    requires { Inside 4 (at before) × Inside 4 (at behind) }
    ensures { Marks result (in_sides (at before) (at behind)) }
{
    x_mask(before.x, behind.x) & y_mask(before.y, behind.y) & z_mask(before.z, behind.z)
}

// A point as it lies in its leaf: how many voxels lie before it on each axis.
fn in_leaf(v: Point) -> Point
    ensures { at result ≡ in_child 4 (at v) }
{
    Point {
        x: v.x % 4,
        y: v.y % 4,
        z: v.z % 4,
    }
}

// How many lie behind it.
fn behind(v: Point) -> Point
    ensures { at result ≡ behind_in (at v) }
{
    Point {
        x: 3 - v.x % 4,
        y: 3 - v.y % 4,
        z: 3 - v.z % 4,
    }
}

// The solid voxels of a leaf, seen under a mirror, from one voxel to another: the mask is that of the mirrored box. Coordinates need not be reduced.
pub fn count_leaf(leaf: u64, mirror: u32, low: Point, last: Point) -> u64
    ensures { result ≡ box_count 4 (mirrored mirror 4 (leaf_voxel leaf)) (in_child 4 (at low)) (past_in 4 (at last)) }
{
    let start = in_leaf(low);
    let end = behind(last);
    let within = mask(chosen(mirror, start, end), chosen(mirror, end, start));
    wider(u64::count_ones(leaf & within))
}
