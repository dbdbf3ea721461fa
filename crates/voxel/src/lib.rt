#![tactic(auto)]

// Voxel, with its whole outcome as `paper` defines it: refused by 2 (header), 9, 2 (the scene's two words), 10, 2 (walk), in this order.
ghost use Rattle.std.specs.Prelude.{◌≡◌, []};
ghost use Rattle.paper.specs.Store.{kept_of};
ghost use Rattle.paper.specs.Answers.{outcome, seen};
ghost use Rattle.paper.specs.Calls.{voxel_outcome};
ghost use Rattle.points.specs.Points.{at};
ghost use Rattle.walk.specs.Walk.{voxel_told};

use paper::{Refusal, Voxel};
use points::{Point, outside};
use store::Scene;
use store_entry::enter;
use walk::{voxel_at, voxel_walk};

// The voxel of a scene.
fn voxel_from(scene: Scene, v: Point) -> Result<Voxel, Refusal>
    ensures { seen result ≡ voxel_told (kept_of scene.entry.store.words.now) scene.entry.depth scene.entry.root (at v) }
{
    if outside(scene.depth, v) {
        return Err(Refusal::Outside);
    }
    let end = voxel_walk(scene, v)?;
    Ok(voxel_at(scene.store, end, v))
}

// Voxel: solid or empty, with the height of the emptiness.
pub fn voxel(words: &[u32], scene: u32, v: Point) -> Result<Voxel, Refusal>
    ensures { outcome (seen result) [] ≡ voxel_outcome words.now scene (at v) }
{
    let entered = enter(words, scene)?;
    voxel_from(entered, v)
}
