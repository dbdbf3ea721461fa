#![tactic(auto)]

// Where a box lies: in its room, in a cell, and in a cell's children. It is given by two corners, or as a part: its first voxel and its last, whose
// coordinates are never reduced: in a cell of edge S they lie at their remainders by S. No store.
ghost use Rattle.std.specs.Prelude.{◌≡◌, cond, false, ◌||◌, ◌+◌, ◌%◌, ◌^◌, ◌<◌, ◌≤◌, eqb, MatchOption};
ghost use Rattle.std.specs.Int.Bits.{bit_xor};
ghost use Rattle.paper.specs.Calls.{axis_outside};
ghost use Rattle.paper.specs.Outline.{edge as edge-of};
ghost use Rattle.paper.specs.Rooms.{deepest, in_child, has_voxel, is_whole, whole_side};
ghost use Rattle.paper.specs.Store.{heights};
ghost use Rattle.points.specs.Points.{at};
ghost use Rattle.points.specs.Seeing.{child_no_at};
ghost use Rattle.boxes_parts.specs.Parts.{Positive, BoxPart, NoPart, ChildPart, last_of, shares_in, spreads_over, chosen as chosen-of, past_in};

use limits::LEAF_HEIGHT;
use points::{Point, child_number, edge_of};

// The first voxel of all rooms, and the last of the greatest, whose remainders by any cell's edge are the first and the last there.
const ORIGIN: Point = Point { x: 0, y: 0, z: 0 };

const FAR: Point = Point {
    x: 65535,
    y: 65535,
    z: 65535,
};

// Whether a side of a box runs backwards, or past the edge.
fn side_outside(edge: u32, low: u32, high: u32) -> bool
    ensures { result ≡ axis_outside edge low high }
{
    (high < low) | (edge < high)
}

// Whether a box lies outside a room of this depth.
pub fn box_outside(depth: u32, low: Point, high: Point) -> bool
    requires { depth ≤ deepest }
    ensures { result ≡ (axis_outside (2 ^ depth) low.x high.x || axis_outside (2 ^ depth) low.y high.y || axis_outside (2 ^ depth) low.z high.z) }
{
    let side = edge_of(depth);
    side_outside(side, low.x, high.x)
        | side_outside(side, low.y, high.y)
        | side_outside(side, low.z, high.z)
}

// Whether a box has a voxel.
fn has_voxel(low: Point, high: Point) -> bool
    ensures { result ≡ has_voxel (at low) (at high) }
{
    (low.x < high.x) & (low.y < high.y) & (low.z < high.z)
}

// The last voxel of a box with this high corner.
fn last_of(high: Point) -> Point
    requires { Positive (at high) }
    ensures { at result ≡ last_of (at high) }
{
    Point {
        x: high.x - 1,
        y: high.y - 1,
        z: high.z - 1,
    }
}

// Whether a box has all of one side of its cell, of this edge.
fn whole_side(edge: u32, low: u32, last: u32) -> bool
    requires { (0 < edge) × (edge ≤ 65536) }
    ensures { result ≡ whole_side edge (low % edge) (last % edge + 1) }
{
    (low % edge == 0) & (last % edge + 1 == edge)
}

// A box in a cell, by its first voxel and its last.
#[derive(Clone, Copy)]
pub struct Part {
    pub low: Point,
    pub last: Point,
}

impl Part {
    // A box by its two corners, of which the high one is not in it; none where it has no voxel.
    pub fn of(low: Point, high: Point) -> Option<Part>
        ensures { MatchOption result (has_voxel (at low) (at high) ≡ false) (BoxPart (at low) (at high)) }
    {
        if !has_voxel(low, high) {
            return None;
        }
        let last = last_of(high);
        Some(Part { low, last })
    }

    // Whether it is all of its cell of list k.
    pub fn is_whole(self, k: u32) -> bool
        requires { k < heights }
        ensures { result ≡ is_whole (edge-of k) (in_child (edge-of k) (at self.low)) (past_in (edge-of k) (at self.last)) }
    {
        let side = edge_of(k + LEAF_HEIGHT);
        whole_side(side, self.low.x, self.last.x)
            & whole_side(side, self.low.y, self.last.y)
            & whole_side(side, self.low.z, self.last.z)
    }

    // Whether it is counted at its cell of list k: a leaf, or its first voxel and its last lie in two children.
    pub fn spreads(self, k: u32) -> bool
        requires { k < heights }
        ensures { result ≡ spreads_over k (at self.low) (at self.last) }
    {
        if k == 0 {
            return true;
        }
        child_number(k - 1, self.low) != child_number(k - 1, self.last)
    }

    // Whether it shares a voxel with child i, of list k: on each axis that child's half lies between those of the first voxel and the last.
    #[inline]
    pub fn shares(self, k: u32, i: u32) -> bool
        requires { (k < heights) × (i < 8) }
        ensures { result ≡ shares_in (child_no_at k (at self.low)) (child_no_at k (at self.last)) i }
    {
        let first = child_number(k, self.low);
        let past = child_number(k, self.last);
        ((i & first) == first) & ((i | past) == past)
    }

    // What child i of its cell, of list k, has of it; none where they share no voxel. In a child that the first voxel is not in, the part begins with the
    // child's first, and likewise the last.
    #[inline]
    pub fn in_child(self, k: u32, i: u32) -> Option<Part>
        requires { (k < heights) × (i < 8) }
        ensures { MatchOption result (NoPart k i (at self.low) (at self.last)) (ChildPart k i (at self.low) (at self.last)) }
    {
        if !self.shares(k, i) {
            return None;
        }
        let first = child_number(k, self.low);
        let past = child_number(k, self.last);
        let low = chosen(i ^ first, self.low, ORIGIN);
        let last = chosen(i ^ past, self.last, FAR);
        Some(Part { low, last })
    }
}

// The number of the pointer to child i of a cell that is seen under a mirror.
pub fn stored_number(i: u32, mirror: u32) -> u32
    requires { (i < 8) × (mirror < 8) }
    ensures { (result ≡ bit_xor i mirror) × (result < 8) }
{
    i ^ mirror
}

// One of two coordinates: the second where the bit is 1.
fn one_of(bit: u32, plain: u32, marked: u32) -> u32
    ensures { result ≡ cond (eqb bit 1) marked plain }
{
    if bit == 1 { marked } else { plain }
}

// A point of two others' coordinates: on the axes that the three bits of `marks` mark the second's, on the others the first's.
pub fn chosen(marks: u32, plain: Point, marked: Point) -> Point
    ensures { at result ≡ chosen-of marks (at plain) (at marked) }
{
    let x = one_of(marks % 2, plain.x, marked.x);
    let y = one_of(marks / 2 % 2, plain.y, marked.y);
    let z = one_of(marks / 4 % 2, plain.z, marked.z);
    Point { x: x, y: y, z: z }
}
