#![tactic(auto)]

// A scene written as an outline: measured first, up to the output's length, then written.
ghost use Rattle.std.specs.Prelude.{◌≡◌, [], ◌∷◌, ◌+◌, ◌^◌, ◌≤◌, ◌<◌, min, length};
ghost use Rattle.paper.specs.Outline.{longest};
ghost use Rattle.paper.specs.Store.{kept_of};
ghost use Rattle.paper.specs.Answers.{outcome, written};
ghost use Rattle.paper.specs.Calls.{outline_outcome};
ghost use Rattle.numbers.specs.Laid.{reached, writing};
ghost use Rattle.outline_measure.specs.Measure.{Within};
ghost use Rattle.outline_out.specs.File.{Root, Scene, Measured, root_at, scene_file};

use file_head::write_head;
use limits::{LEAF_HEIGHT, OUTLINE_HEAD, OUTLINE_VERSION};
use outline_measure::measure;
use outline_record::write_record;
use paper::Refusal;
use store::Store;
use store_pointers::{cell_number, tag};
use store_whole::WholeStore;

// The bytes before the root's record.
const HEAD: u64 = OUTLINE_HEAD as u64;

// The greatest length that four bytes write.
const LONGEST: u64 = 4294967295;

// The longest file that an output of so many bytes takes.
fn most(bytes: usize) -> u64
    ensures { result ≡ min bytes longest }
{
    (bytes as u64).min(LONGEST)
}

// The length of the record of a root, 0 for no root; none where it is longer than the limit.
fn measure_root(store: Store, depth: u32, root: u32, limit: u64) -> Option<u64>
    requires rooted { Root store.words.now depth root }
    requires limit_bound { limit < 2 ^ 32 }
    ensures { Within limit (length (root_at (kept_of store.entry.words.now) depth root)) result }
{
    if root == 0 {
        return Some(0);
    }
    measure(store, depth - LEAF_HEIGHT, cell_number(root), limit)
}

// The length of a scene's file; none where it is longer than the limit.
fn measure_scene(store: Store, scene: u32, limit: u64) -> Option<u64>
    requires held { Scene store.words.now scene }
    requires limit_bound { limit < 2 ^ 32 }
    ensures { Within limit (length (scene_file store.entry.words.now scene)) result }
{
    if limit < HEAD {
        return None;
    }
    let depth = store.scene_depth(scene);
    let record = measure_root(store, depth, store.scene_root(scene), limit - HEAD)?;
    Some(HEAD + record)
}

// Writes the record of a root, nothing for none; answers the position after it.
fn write_root(store: Store, depth: u32, root: u32, out: &mut [u8], at: usize) -> usize
    requires rooted { Root store.words.now depth root }
    requires root_in_bounds { at + length (root_at (kept_of store.words.now) depth root) ≤ length out.old }
    ensures { reached result out.new ≡ writing (root_at (kept_of store.entry.words.now) depth root) at out.old }
{
    if root == 0 {
        return at;
    }
    let number = cell_number(root);
    write_record(store, depth - LEAF_HEIGHT, number, tag(root), out, at)
}

// Writes a scene's file, which has this length; answers the position after it.
fn write_scene(store: Store, scene: u32, total: u64, out: &mut [u8]) -> usize
    requires { Measured store.words.now scene total out.old }
    ensures { reached result out.new ≡ writing (scene_file store.entry.words.now scene) 0 out.old }
{
    let depth = store.scene_depth(scene);
    let root = store.scene_root(scene);
    let at = write_head(out, OUTLINE_VERSION, total, depth);
    write_root(store, depth, root, out, at)
}

// Outline out: the length written; refused by 2 (the whole store), 9, then 12.
pub fn outline_out(store: &[u32], scene: u32, out: &mut [u8]) -> Result<u32, Refusal>
    ensures { outcome (written result) (out.new ∷ []) ≡ outline_outcome store.now scene out.old }
{
    let whole = WholeStore::open(store)?;
    if !whole.store.holds(scene) {
        return Err(Refusal::NoScene);
    }
    let limit = most(out.len());
    let Some(total) = measure_scene(whole.store, scene, limit) else {
        return Err(Refusal::OutputShort);
    };
    Ok(write_scene(whole.store, scene, total, out) as u32)
}
