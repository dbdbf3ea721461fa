// Box, with its whole outcome as `paper` defines it: refused by 2 (header), 9, 2 (the scene's two words), 10, 2 (walk), in
// this order.
ghost use Rattle.std.specs.Prelude.{◌≡◌, []};
ghost use Rattle.paper.specs.Answers.{outcome, counted};
ghost use Rattle.paper.specs.Calls.{box_outcome};
ghost use Rattle.points.specs.Points.{at};

use crate::count::scene_box;
use boxes_parts::box_outside;
use paper::Refusal;
use points::Point;
use store_entry::enter;

// Box: how many solid voxels lie from low up to high, which is not in it.
pub fn box_count(words: &[u32], n: u32, low: Point, high: Point) -> Result<u64, Refusal>
    ensures { outcome (counted result) [] ≡ box_outcome words.now n (at low) (at high) }
{
    let scene = enter(words, n)?;
    if box_outside(scene.depth, low, high) {
        return Err(Refusal::Outside);
    }
    let count = scene_box(scene, low, high)?;
    Ok(count)
}
