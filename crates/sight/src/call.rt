// Sight line, with its whole outcome as `paper` defines it: refused by 2 (header), 9, 2 (the scene's two words), 10 (either end), 2 (the first voxel
// tested that isn't empty), in this order.
ghost use Rattle.std.specs.Prelude.{◌≡◌, []};
ghost use Rattle.paper.specs.Answers.{outcome, sighted};
ghost use Rattle.paper.specs.Sight.{sight_outcome};
ghost use Rattle.points.specs.Points.{at};

use crate::trace::trace;
use paper::{Refusal, Sight};
use points::{Point, outside};
use store_entry::enter;

// Sight line: clear, or the first voxel between two others that blocks it.
pub fn sight(words: &[u32], n: u32, from: Point, to: Point) -> Result<Sight, Refusal>
    ensures { outcome (sighted result) [] ≡ sight_outcome words.now n (at from) (at to) }
{
    let scene = enter(words, n)?;
    if outside(scene.depth, from) | outside(scene.depth, to) {
        return Err(Refusal::Outside);
    }
    if scene.root == 0 {
        return Ok(Sight::Clear);
    }
    let answer = trace(scene, from, to)?;
    Ok(answer)
}
