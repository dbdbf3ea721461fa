#![tactic(auto)]

// A line from the centre of one voxel to that of another, by steps: how many faces it crosses on each axis, which voxel lies so many steps on, how far a
// cell reaches, and with which steps the line leaves it. Whole numbers only, and no store: coordinates are below 65,536, so no product passes 64 bits.
ghost use Rattle.std.specs.Prelude.{◌≡◌, ◌^◌, ◌≤◌, ◌<◌};
ghost use Rattle.paper.specs.Rooms.{Inside, deepest};
ghost use Rattle.paper.specs.Lines.{distance as distance-of, along as along-of, distances as distances-of, voxel_at, same_point};
ghost use Rattle.laws.specs.Lines.{AtMost, crossing as crossing-of, earlier as earlier-of, leaving as leaving-of, passed as passed-of, leave_of};
ghost use Rattle.points.specs.Points.{at};
ghost use Rattle.lines.specs.Cells.{Along, Small, Stepped, Timely, moment_of, last_in, last_of};

use points::{Point, edge_of};

// How far along the line: halves / (2 * parts) of the way.
#[derive(Clone, Copy)]
pub struct Moment {
    pub halves: u64,
    pub parts: u64,
}

// Whether two are the same on each axis: a line is at its end where its steps are its distances.
pub fn same(a: Point, b: Point) -> bool
    ensures { result ≡ same_point (at a) (at b) }
{
    (a.x == b.x) & (a.y == b.y) & (a.z == b.z)
}

// How far apart two coordinates are.
fn distance(from: u32, to: u32) -> u32
    ensures { result ≡ distance-of from to }
{
    if from <= to { to - from } else { from - to }
}

// How many faces the line crosses on each axis: the steps at its end.
pub fn distances(from: Point, to: Point) -> Point
    ensures { at result ≡ distances-of (at from) (at to) }
{
    let x = distance(from.x, to.x);
    let y = distance(from.y, to.y);
    let z = distance(from.z, to.z);
    Point { x: x, y: y, z: z }
}

// The coordinate so many steps on.
fn along(from: u32, to: u32, steps: u32) -> u32
    requires { steps ≤ distance-of from to }
    ensures { result ≡ along-of from to steps }
{
    if from <= to {
        from + steps
    } else {
        from - steps
    }
}

// The voxel so many steps on.
pub fn voxel_at(from: Point, to: Point, steps: Point) -> Point
    requires { AtMost (at steps) (distances-of (at from) (at to)) }
    ensures { at result ≡ voxel_at (at from) (at to) (at steps) }
{
    let x = along(from.x, to.x, steps.x);
    let y = along(from.y, to.y, steps.y);
    let z = along(from.z, to.z, steps.z);
    Point { x: x, y: y, z: z }
}

// On one axis, the most steps that stay in the cell of this height that is reached after so many steps.
fn last_in(from: u32, to: u32, steps: u32, height: u32) -> u32
    requires { Along from to steps height }
    ensures { result ≡ last_in height from to steps }
{
    let edge = edge_of(height);
    if from <= to {
        let c = from + steps;
        return steps + (edge - 1 - c % edge);
    }
    let c = from - steps;
    steps + c % edge
}

// The most steps on each axis that stay in that cell.
pub fn last_of(from: Point, to: Point, steps: Point, height: u32) -> Point
    requires { Stepped (at from) (at to) (at steps) height }
    ensures { at result ≡ last_of height (at from) (at to) (at steps) }
{
    let x = last_in(from.x, to.x, steps.x, height);
    let y = last_in(from.y, to.y, steps.y, height);
    let z = last_in(from.z, to.z, steps.z, height);
    Point { x: x, y: y, z: z }
}

// Where an axis of this distance crosses the next face after so many steps.
fn crossing(distance: u32, steps: u32) -> Moment
    requires { distance < 2 ^ deepest }
    ensures { (moment_of result ≡ crossing-of distance steps) × Small (moment_of result) }
{
    Moment {
        halves: 2 * (steps as u64) + 1,
        parts: distance as u64,
    }
}

// The earlier of two moments.
fn earlier(t: Moment, u: Moment) -> Moment
    requires { Small (moment_of t) × Small (moment_of u) }
    ensures { (moment_of result ≡ earlier-of (moment_of t) (moment_of u)) × Small (moment_of result) }
{
    if t.halves * u.parts <= u.halves * t.parts {
        return t;
    }
    u
}

// When the line leaves the cell in which these are the last steps, or ends.
fn leaving(d: Point, last: Point) -> Moment
    requires { Inside (2 ^ deepest) (at d) }
    ensures { (moment_of result ≡ leaving-of (at d) (at last)) × Small (moment_of result) }
{
    let end = Moment {
        halves: 2,
        parts: 1,
    };
    let x = crossing(d.x, last.x);
    let first = earlier(end, x);
    let y = crossing(d.y, last.y);
    let second = earlier(first, y);
    let z = crossing(d.z, last.z);
    earlier(second, z)
}

// The steps on an axis of this distance up to a moment.
fn passed(t: Moment, distance: u32) -> u32
    requires { Timely (moment_of t) distance }
    ensures { result ≡ passed-of (moment_of t) distance }
{
    ((t.halves * (distance as u64) + t.parts) / (2 * t.parts)) as u32
}

// The steps with which the line leaves the cell in which these are the last steps; the end where it doesn't.
pub fn leave(d: Point, last: Point) -> Point
    requires { Inside (2 ^ deepest) (at d) }
    ensures { at result ≡ leave_of (at d) (at last) }
{
    let t = leaving(d, last);
    let x = passed(t, d.x);
    let y = passed(t, d.y);
    let z = passed(t, d.z);
    Point { x: x, y: y, z: z }
}
