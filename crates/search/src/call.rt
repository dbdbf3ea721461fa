// The call, with its whole outcome as `paper` defines it: refused by 2 (header), 9, 2 (the scene's two words), 10, 2 (cells entered), in this order.
ghost use Rattle.std.specs.Prelude.{◌≡◌, [], ◌^◌};
ghost use Rattle.paper.specs.Store.{kept_of};
ghost use Rattle.paper.specs.Answers.{outcome, searched};
ghost use Rattle.paper.specs.Anything.{any_outcome, box_search, search_of};
ghost use Rattle.points.specs.Points.{at};
ghost use Rattle.boxes_parts.specs.Parts.{Upto};

use crate::cells::search_cell;
use boxes_parts::{Part, box_outside};
use limits::LEAF_HEIGHT;
use paper::{Damaged, Refusal, Searched};
use points::Point;
use store::Scene;
use store_entry::enter;
use store_pointers::{cell_number, tag};

// The search through a scene.
fn search_scene(scene: Scene, low: Point, high: Point) -> Result<Searched, Damaged>
    requires upto { Upto (2 ^ scene.depth) (at high) }
    ensures { search_of result ≡ box_search (kept_of scene.entry.store.words.now) scene.entry.depth scene.entry.root (at low) (at high) }
{
    let nothing = Searched {
        found: false,
        entered: 0,
    };
    if scene.root == 0 {
        return Ok(nothing);
    }
    let Some(part) = Part::of(low, high) else {
        return Ok(nothing);
    };
    let k = scene.depth - LEAF_HEIGHT;
    search_cell(
        scene.store,
        k,
        cell_number(scene.root),
        tag(scene.root),
        part,
    )
}

// Anything in the way: whether a solid voxel lies from low up to high, which is not in it, and how many cells were entered.
pub fn anything(words: &[u32], n: u32, low: Point, high: Point) -> Result<Searched, Refusal>
    ensures { outcome (searched result) [] ≡ any_outcome words.now n (at low) (at high) }
{
    let scene = enter(words, n)?;
    if box_outside(scene.depth, low, high) {
        return Err(Refusal::Outside);
    }
    let answer = search_scene(scene, low, high)?;
    Ok(answer)
}
