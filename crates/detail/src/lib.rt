#![tactic(auto)]

// Document 01, 'Questions', Detail, on f64. Distance and factor travel as one pair; a height is found by doubling the
// factor, which loses nothing in these ranges (proofs/Claims.antt).
ghost use Rattle.std.specs.Prelude.{◌≡◌, ◌&&◌, [], ◌≤◌, T};
ghost use Rattle.std.specs.Float.Ieee.{le};
ghost use Rattle.std.specs.Float.Ieee.Positive.{num, den};
ghost use Rattle.paper.specs.Rooms.{deepest, depth_ok};
ghost use Rattle.paper.specs.Answers.{outcome, chosen};
ghost use Rattle.paper.specs.Detail.{distance_ok, factor_ok, reaches, greatest, detail_outcome};
ghost use Rattle.paper.specs.declared.Wish.TheVariants.{WidestEdge, Distance};

use paper::{DistanceFactor, Refusal, Wish};
use points::depth_bad;

// 2^40, the greatest edge and distance; 2^-30 and 2^30, the least and the greatest factor.
const FARTHEST: f64 = 1099511627776.0;

const LEAST_FACTOR: f64 = 0.000000000931322574615478515625;

const GREATEST_FACTOR: f64 = 1073741824.0;

// Whether low <= x <= high: false for a NaN, and -0 counts as 0.
fn between(x: f64, low: f64, high: f64) -> bool
    ensures { result ≡ (le low x && le x high) }
{
    low <= x && x <= high
}

// The greatest h <= depth with 2^h times factor <= distance, or 0 if none.
fn height(depth: u32, factor: f64, distance: f64) -> u32
    requires depth_le_deepest { depth ≤ deepest }
    requires factor_in_range { T (factor_ok factor) }
    requires distance_in_range { T (distance_ok distance) }
    ensures { result ≡ greatest (reaches (num factor) (den factor) distance) depth }
{
    let mut scaled = factor;
    for h in 0..depth {
        let next = scaled + scaled;
        if next <= distance {
            scaled = next;
        } else {
            return h;
        }
    }
    depth
}

// The answer to a widest edge: that edge is a distance whose factor is 1.
fn for_edge(depth: u32, edge: f64) -> Result<u32, Refusal>
    requires { T (depth_ok depth) }
    ensures { outcome (chosen result) [] ≡ detail_outcome depth (WidestEdge edge) }
{
    if between(edge, 1.0, FARTHEST) {
        Ok(height(depth, 1.0, edge))
    } else {
        Err(Refusal::BadWish)
    }
}

// The answer to a distance with its factor.
fn for_distance(depth: u32, pair: DistanceFactor) -> Result<u32, Refusal>
    requires { T (depth_ok depth) }
    ensures { outcome (chosen result) [] ≡ detail_outcome depth (Distance pair) }
{
    let distance = pair.distance;
    let factor = pair.factor;
    if between(distance, 0.0, FARTHEST) {
        if between(factor, LEAST_FACTOR, GREATEST_FACTOR) {
            return Ok(height(depth, factor, distance));
        }
    }
    Err(Refusal::BadWish)
}

// The height at which to draw a scene of this depth; refused by 5, then 13.
pub fn detail(depth: u32, wish: Wish) -> Result<u32, Refusal>
    ensures { outcome (chosen result) [] ≡ detail_outcome depth wish }
{
    if depth_bad(depth) {
        return Err(Refusal::BadDepth);
    }
    match wish {
        Wish::EveryVoxel => Ok(0),
        Wish::WidestEdge(edge) => for_edge(depth, edge),
        Wish::Distance(pair) => for_distance(depth, pair),
    }
}
