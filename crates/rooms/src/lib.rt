#![tactic(auto)]

// The public calls of the room store. Each promise stands in `paper`, by name, as one equation: the outcome read from the answer
// is the documents'. No call asks anything of its caller.
ghost use Rattle.points.specs.Points.{at};
ghost use Rattle.paper.specs.Promises.{NewStorePromise, AddPromise, VoxelPromise, SightPromise, CellPromise, BoxPromise, AnyPromise, KeptPromise, OutlinePromise, PackPromise, HeadsetPackPromise, CheckPromise, HeadsetCheckPromise, PackedVoxelPromise, DetailPromise};

// The types of what is asked and answered.
pub use paper::{DistanceFactor, Found, Opened, Opening, Refusal, Searched, Sight, Voxel, Wish};
pub use points::Point;

// An answer as a number and values, as C and the scripts read it.
pub use paper::{
    blocked_voxel, found_entered, non_empty, number, solid_height, solid_records_height,
};

// Opening a packed scene, the number that an opening tells, and a question on an opened scene. Their answer and their scene hold a
// slice, so they are named here and stand in `opened`; `ask_bytes`, `open_and_ask` and `read_header` do the same on plain bytes and numbers.
pub use opened::{ask, ask_bytes, open, open_and_ask, opening_number, read_header};

/// New store: the words of this capacity (1 to 65,536 cells at each height) are zeroed and word 0 is set; what lies behind them stays. Refused by 1, with
/// the words as they were (docs/RULES.md, 'The store').
pub fn new_store(store: &mut [u32], capacity: u32) -> Result<(), Refusal>
    ensures { NewStorePromise capacity store.old result store.new }
{
    store_calls::new_store(store, capacity)
}

/// Add: the scene of an outline (docs/FORMATS.md), its cells merged into those kept. Answers the scene's number, from 0. Refused by 2, 3, 4, 5, 6, 7, 8, in this order,
/// with the words as they were (docs/RULES.md, 'The store').
pub fn add(store: &mut [u32], file: &[u8]) -> Result<u32, Refusal>
    ensures { AddPromise store.old file.now result store.new }
{
    add::add(store, file)
}

/// Voxel: solid, or empty with the height of the emptiness. Refused by 2 (header), 9, 2 (the scene's two words), 10, 2 (walk), in this order (docs/RULES.md,
/// 'Questions on a scene').
pub fn voxel(store: &[u32], scene: u32, v: Point) -> Result<Voxel, Refusal>
    ensures { VoxelPromise store.now scene (at v) result }
{
    voxel::voxel(store, scene, v)
}

/// Sight line: clear, or the first voxel that blocks it between two others' centres. Refused by 2 (header), 9, 2 (the scene's two words), 10 (either end),
/// 2 (before the answer), in this order (docs/RULES.md, 'Questions on a scene').
pub fn sight(store: &[u32], scene: u32, from: Point, to: Point) -> Result<Sight, Refusal>
    ensures { SightPromise store.now scene (at from) (at to) result }
{
    sight::sight(store, scene, from, to)
}

/// Cell: true where the cell of this height is non-empty; its point is counted in cells of that height. Refused as voxel (docs/RULES.md, 'Questions on a scene').
pub fn cell(store: &[u32], scene: u32, height: u32, v: Point) -> Result<bool, Refusal>
    ensures { CellPromise store.now scene height (at v) result }
{
    cell::cell(store, scene, height, v)
}

/// Box: the number of solid voxels, up to 2^48, from the low corner up to the high one, which is outside. Refused as voxel (docs/RULES.md, 'Questions on a scene').
pub fn box_count(store: &[u32], scene: u32, low: Point, high: Point) -> Result<u64, Refusal>
    ensures { BoxPromise store.now scene (at low) (at high) result }
{
    boxes::box_count(store, scene, low, high)
}

/// Anything in the way: whether the box holds a solid voxel, with the number of cells entered. Refused as box, but only for cells entered (docs/RULES.md,
/// 'Questions on a scene').
pub fn anything(store: &[u32], scene: u32, low: Point, high: Point) -> Result<Searched, Refusal>
    ensures { AnyPromise store.now scene (at low) (at high) result }
{
    search::anything(store, scene, low, high)
}

/// Kept: how many cells are kept at a height, 2 to 16. Refused by 2 (header), 10, in this order (docs/RULES.md, 'The store').
pub fn kept(store: &[u32], height: u32) -> Result<u32, Refusal>
    ensures { KeptPromise store.now height result }
{
    store_calls::kept(store, height)
}

/// Outline out: the outline of a scene, written to the output; answers its length in bytes. Refused by 2, 9, 12, in this order, with the output as it was
/// (docs/FORMATS.md, 'The outline').
pub fn outline_out(store: &[u32], scene: u32, out: &mut [u8]) -> Result<u32, Refusal>
    ensures { OutlinePromise store.now scene out.old result out.new }
{
    outline_out::outline_out(store, scene, out)
}

/// Pack: a scene as a packed file, written to the output; answers its length in bytes. Refused by 2, 9, 11, 12, in this order, with the output as it was
/// (docs/FORMATS.md, 'The packed file'; what scratch holds then, docs/RULES.md, 'Lent memory').
pub fn pack(store: &[u32], scene: u32, scratch: &mut [u32], out: &mut [u8]) -> Result<u32, Refusal>
    ensures { PackPromise store.now scene scratch.old out.old result scratch.new out.new }
{
    pack::pack(store, scene, scratch, out)
}

/// Pack for the headset: as pack, where the scene meets its profile; refused by 2, 9, 11, 14, 15, 12, in this order (docs/RULES.md, 'Refusals').
pub fn headset_pack(
    store: &[u32],
    scene: u32,
    scratch: &mut [u32],
    out: &mut [u8],
) -> Result<u32, Refusal>
    ensures { HeadsetPackPromise store.now scene scratch.old out.old result scratch.new out.new }
{
    pack::headset_pack(store, scene, scratch, out)
}

/// Packed check: the depth of a proper file. Refused by 11, 3, 4, 5, 6, in this order (docs/FORMATS.md, 'Proper files').
pub fn check(file: &[u8], scratch: &mut [u8]) -> Result<u32, Refusal>
    ensures { CheckPromise file.now scratch.old result scratch.new }
{
    proper::check(file, scratch)
}

/// Headset check: the depth of a proper file that meets the headset's profile. Refused by 11, 3, 4, 5, 6, 14, 15, in this order (docs/FORMATS.md, 'Proper files').
pub fn headset_check(file: &[u8], scratch: &mut [u8]) -> Result<u32, Refusal>
    ensures { HeadsetCheckPromise file.now scratch.old result scratch.new }
{
    proper::headset_check(file, scratch)
}

/// Packed voxel: solid, or empty with the height of the emptiness; beside it the number of records read on the way. Refused by 3, 4, 5, 10, 6, in this order
/// (docs/RULES.md, 'Questions on a packed file').
pub fn packed_voxel(file: &[u8], v: Point) -> Result<Found, Refusal>
    ensures { PackedVoxelPromise file.now (at v) result }
{
    packed::packed_voxel(file, v)
}

/// Detail: the height at which to draw a scene of this depth. Refused by 5, 13, in this order (docs/RULES.md, 'Detail').
pub fn detail(depth: u32, wish: Wish) -> Result<u32, Refusal>
    ensures { DetailPromise depth wish result }
{
    detail::detail(depth, wish)
}
