// The cells entered on the way to a voxel, a word for each list: eight times the cell's number, and the mirror under which it is seen. Packed so, a path
// takes 60 bytes of the frame, half of what images take.
ghost use Rattle.std.specs.Prelude.{◌≡◌, ◌≤◌};
ghost use Rattle.paper.specs.Rooms.{deepest};
ghost use Rattle.paper.specs.Store.{kept_of};
ghost use Rattle.points.specs.Points.{at};
ghost use Rattle.walk.specs.Reached.{ended};
ghost use Rattle.walk.specs.Walk.{end_of, end_told};
ghost use Rattle.sight.specs.Paths.{Lowest, OnPath, Ready, Sought, Walked, apart_in, voxel_of, descended, walk_from};

use limits::{LEAF_HEIGHT, MIRRORS};
use paper::{Damaged, Voxel};
use points::Point;
use store::Store;
use walk::{End, Image, voxel_at, walk_to};

// Whether two points lie in different cells of a height.
fn apart(height: u32, a: Point, b: Point) -> bool
    requires { height ≤ deepest }
    ensures { result ≡ apart_in height (at a) (at b) }
{
    (a.x >> height != b.x >> height)
        | (a.y >> height != b.y >> height)
        | (a.z >> height != b.z >> height)
}

// The lowest list from `low` to `top` whose cell around one voxel holds the other too.
fn shared(low: u32, top: u32, a: Point, b: Point) -> u32
    requires { Sought low top (at a) (at b) }
    ensures { Lowest low top (at a) (at b) result }
{
    for k in low..top {
        if !apart(k + LEAF_HEIGHT, a, b) {
            return k;
        }
    }
    top
}

// From the cell of list k on the path down to a leaf, on the way to a voxel. Each cell entered joins the path.
fn descend(store: Store, path: &mut [u32; 15], k: u32, v: Point) -> Result<End, Damaged>
    requires on_path { OnPath store.words.now path.old k }
    ensures value { ended result ≡ walk_from (kept_of store.entry.words.now) path.old k (at v) }
    ensures path_after { path.new ≡ descended (kept_of store.entry.words.now) k (at v) path.old }
{
    let mut here = path[k as usize];
    for list in (0..k).rev() {
        let from = Image {
            number: here / MIRRORS,
            mirror: here % MIRRORS,
        };
        let end = walk_to(store, list, list + 1, from, v)?;
        match end {
            End::Absent(height) => {
                return Ok(End::Absent(height));
            }
            End::At(image) => {
                here = image.number * MIRRORS + image.mirror;
            }
        }
        path[list as usize] = here;
    }
    Ok(End::At(Image {
        number: here / MIRRORS,
        mirror: here % MIRRORS,
    }))
}

// A voxel, by the path to the one asked last: the walk starts at the lowest cell on it that holds both, and the path is then that to this voxel.
pub fn seen_next(
    store: Store,
    path: &mut [u32; 15],
    low: u32,
    top: u32,
    last: Point,
    v: Point,
) -> Result<Voxel, Damaged>
    requires ready { Ready store.words.now path.old low top (at last) (at v) }
    ensures result_value { voxel_of result ≡ end_told (end_of (kept_of store.entry.words.now) (at v) (walk_from (kept_of store.entry.words.now) path.old top (at v))) }
    ensures walked { Walked (kept_of store.entry.words.now) path.old top (at v) path.new }
{
    let k = shared(low, top, last, v);
    let end = descend(store, path, k, v)?;
    Ok(voxel_at(store, end, v))
}
