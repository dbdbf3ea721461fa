#![tactic(auto)]

// Points by their coordinates, as questions on a store and on a packed file ask of them: whether a depth is one, whether a point lies outside,
// which child of a cell holds it, and whether it is solid in a leaf.
ghost use Rattle.std.specs.Prelude.{◌≡◌, not, ◌^◌, ◌≤◌, ◌<◌, eqb};
ghost use Rattle.paper.specs.Rooms.{deepest, depth_ok, flip, inside};
ghost use Rattle.paper.specs.Leaf.{leaf_voxel};
ghost use Rattle.paper.specs.Store.{heights};
ghost use Rattle.points.specs.Points.{at};
ghost use Rattle.points.specs.Seeing.{child_no_at, seen_at};

use limits::{DEEPEST, LEAF_HEIGHT, LEAST_DEPTH};

// A number for each axis: a voxel, a corner of a box, or steps along a line.
#[derive(Clone, Copy, PartialEq, Eq)]
pub struct Point {
    pub x: u32,
    pub y: u32,
    pub z: u32,
}

impl Point {
    // The same done on each axis.
    pub fn map<F: Fn(u32) -> u32>(self, f: F) -> Point
        requires callable { F.pre f self.x × F.pre f self.y × F.pre f self.z }
        ensures { F.post f self.x result.x × F.post f self.y result.y × F.post f self.z result.z }
    {
        Point {
            x: f(self.x),
            y: f(self.y),
            z: f(self.z),
        }
    }

    // On each axis what is made of the two numbers there.
    pub fn zip<F: Fn(u32, u32) -> u32>(self, other: Point, f: F) -> Point
        requires callable { F.pre f self.x other.x × F.pre f self.y other.y × F.pre f self.z other.z }
        ensures { F.post f self.x other.x result.x × F.post f self.y other.y result.y × F.post f self.z other.z result.z }
    {
        Point {
            x: f(self.x, other.x),
            y: f(self.y, other.y),
            z: f(self.z, other.z),
        }
    }
}

// Whether a depth is not 2 to 16.
pub fn depth_bad(depth: u32) -> bool
    ensures { result ≡ not (depth_ok depth) }
{
    (depth < LEAST_DEPTH) | (DEEPEST < depth)
}

// The edge of a cell of this height.
pub fn edge_of(height: u32) -> u32
    requires { height ≤ deepest }
    ensures { result ≡ 2 ^ height }
{
    1u32 << height
}

// Whether a point lies outside a cube of edge 2^height.
pub fn outside(height: u32, v: Point) -> bool
    requires { height ≤ deepest }
    ensures { result ≡ not (inside (2 ^ height) (at v)) }
{
    let side = edge_of(height);
    (side <= v.x) | (side <= v.y) | (side <= v.z)
}

// Which child of a cell of list k + 1 holds a point, as the room shows them: no coordinate is reduced.
pub fn child_number(k: u32, v: Point) -> u32
    requires { k < heights }
    ensures { (result ≡ child_no_at k (at v)) × (result < 8) }
{
    let s = k + LEAF_HEIGHT;
    (v.x >> s) % 2 + 2 * ((v.y >> s) % 2) + 4 * ((v.z >> s) % 2)
}

// A coordinate in a leaf, mirrored if the bit is 1: 3 - c is c with both its bits changed.
fn flipped(bit: u32, c: u32) -> u32
    requires { (bit < 2) × (c < 4) }
    ensures { (result ≡ flip (eqb bit 1) 4 c) × (result < 4) }
{
    c ^ (3 * bit)
}

// Whether a point is solid in a leaf that is seen under a mirror.
pub fn leaf_solid(leaf: u64, mirror: u32, v: Point) -> bool
    ensures { result ≡ leaf_voxel leaf (seen_at 0 mirror (at v)) }
{
    let a = flipped(mirror % 2, v.x % 4);
    let b = flipped(mirror / 2 % 2, v.y % 4);
    let c = flipped(mirror / 4 % 2, v.z % 4);
    (leaf >> (a + 4 * b + 16 * c)) % 2 == 1
}
