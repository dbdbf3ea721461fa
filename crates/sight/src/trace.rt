// Along a line through a scene: from one voxel that isn't tested yet to the next, to the first that isn't empty.
ghost use Rattle.std.specs.Prelude.{◌≡◌, ◌≢◌, ◌-◌, ◌^◌};
ghost use Rattle.paper.specs.Store.{kept_of};
ghost use Rattle.paper.specs.Rooms.{Inside};
ghost use Rattle.points.specs.Points.{at};
ghost use Rattle.sight.specs.Tracing.{sight_of, traced_told};

use crate::path::seen_next;
use limits::{LEAF_HEIGHT, MIRRORS};
use lines::{distances, last_of, leave, same, voxel_at};
use paper::{Damaged, Sight, Voxel};
use points::Point;
use store::Scene;
use store_pointers::{cell_number, tag};

// The list of the last cell that a walk entered which ended in an empty voxel with this height: a leaf, or the one whose child is absent.
fn lowest(height: u32) -> u32
    ensures { result ≡ height - 1 }
{
    height.saturating_sub(1)
}

// The line between two voxels inside a scene, whose root pointer is not none. The loop follows the line: each turn leaves a cell, and no counter says how
// many it crosses.
pub fn trace(scene: Scene, from: Point, to: Point) -> Result<Sight, Damaged>
    requires rooted { scene.root ≢ 0 }
    requires from_in { Inside (2 ^ scene.depth) (at from) }
    requires to_in { Inside (2 ^ scene.depth) (at to) }
    ensures { sight_of result ≡ traced_told (kept_of scene.entry.store.words.now) scene.entry.depth scene.entry.root (at from) (at to) }
{
    let top = scene.depth - LEAF_HEIGHT;
    let mut path = [0u32; 15];
    path[top as usize] = cell_number(scene.root) * MIRRORS + tag(scene.root);
    let d = distances(from, to);
    let mut low = top;
    let mut last = from;
    let mut steps = leave(d, Point { x: 0, y: 0, z: 0 });
    while !same(steps, d) {
        let v = voxel_at(from, to, steps);
        let seen = seen_next(scene.store, &mut path, low, top, last, v)?;
        match seen {
            Voxel::Solid => {
                return Ok(Sight::Blocked(v.x, v.y, v.z));
            }
            Voxel::Empty(height) => {
                low = lowest(height);
                steps = leave(d, last_of(from, to, steps, height));
            }
        }
        last = v;
    }
    Ok(Sight::Clear)
}
