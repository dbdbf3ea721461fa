// A scene's file, and the calls. Scratch is cleared before it is used and after.
ghost use Rattle.std.specs.Prelude.{◌≡◌, cond, [], ◌∷◌, ◌+◌, ◌≤◌, ◌<◌, T, length, take, drop, replicate};
ghost use Rattle.paper.specs.Rooms.{depth_ok};
ghost use Rattle.paper.specs.Store.{capacity_of, kept_of};
ghost use Rattle.paper.specs.Packed.{packed_head};
ghost use Rattle.paper.specs.Pack.{empty_file, packed_file};
ghost use Rattle.paper.specs.Answers.{outcome, written};
ghost use Rattle.paper.specs.Calls.{over, pack_scratch, pack_outcome};
ghost use Rattle.paper.specs.Headset.{headset_pack_outcome};
ghost use Rattle.numbers.specs.Laid.{reached, writing};
ghost use Rattle.pack_order.specs.OrderParts.{SceneRoot};
ghost use Rattle.pack_bytes.specs.Writing.{head_of, fitted};
ghost use Rattle.pack.specs.Ready.{Ready, profiled};
ghost use Rattle.pack.specs.Profiles.{for_headset};

use file_head::write_head;
use limits::{EMPTY_MARK, HEADSET_DEPTH, LEAF_HEIGHT, PACKED_VERSION};
use pack_bytes::{HEAD, file_length, write_lists, write_sizes};
use pack_order::order_lists;
use pack_places::{all_near, place_lists};
use pack_scratch::scratch_words;
use paper::Refusal;
use store::clear;
use store_pointers::tag;
use store_whole::WholeStore;

// Byte 6 of an empty scene.
const EMPTY: u32 = EMPTY_MARK as u32;

// Whom a file is for: any reader, or the headset, whose depth and pointers have limits.
#[derive(Clone, Copy)]
enum Profile {
    Any,
    Headset,
}

impl Profile {
    fn is_headset(self) -> bool
        ensures { result ≡ for_headset self }
    {
        match self {
            Profile::Any => false,
            Profile::Headset => true,
        }
    }
}

// Writes the header of a file of this length, the root's mirror or the mark of an empty scene behind what every file
// begins with; answers the position after it.
fn write_packed_head(out: &mut [u8], total: u64, depth: u32, mirror: u32) -> usize
    requires packed_head_in_bounds { packed_head ≤ length out.old }
    requires depth_bound { (depth < 256) × (mirror < 256) }
    ensures { reached result out.new ≡ writing (head_of total depth mirror) 0 out.old }
{
    let at = write_head(out, PACKED_VERSION, total, depth);
    out[at] = mirror as u8;
    at + 1
}

// Writes the file of an empty scene.
fn pack_empty(depth: u32, out: &mut [u8]) -> Result<u32, Refusal>
    requires { T (depth_ok depth) }
    ensures { outcome (written result) (out.new ∷ []) ≡ fitted (empty_file depth) out.old }
{
    if (out.len() as u64) < HEAD {
        return Err(Refusal::OutputShort);
    }
    write_packed_head(out, HEAD, depth, EMPTY);
    Ok(HEAD as u32)
}

// Writes the file of a scene that is prepared: how many cells each list has, the lists' sizes, the file's length, and in scratch the order and the places
// of each list.
fn write_prepared(
    whole: WholeStore,
    top: u32,
    root: u32,
    counts: [u32; 15],
    sizes: [u32; 15],
    total: u64,
    scratch: &[u32],
    out: &mut [u8],
)
    requires ready { Ready whole.store.words.now top root counts sizes total scratch.now }
    requires total_in_bounds { total ≤ length out.old }
    ensures { out.new ≡ over (packed_file (kept_of whole.entry.store.words.now) (top + 2) root) out.old }
{
    let after_head = write_packed_head(out, total, top + LEAF_HEIGHT, tag(root));
    let after_sizes = write_sizes(sizes, top, out, after_head);
    write_lists(whole, top, counts, scratch, out, after_sizes);
}

// Writes the file of the scene with this root in list `top`: prepared (ordered, placed, measured), and written where no pointer is too long for the headset and
// the output has room.
fn pack_root(
    whole: WholeStore,
    top: u32,
    root: u32,
    profile: Profile,
    scratch: &mut [u32],
    out: &mut [u8],
) -> Result<u32, Refusal>
    requires scene_root { SceneRoot whole.store.words.now top root }
    requires scratch_room { pack_scratch (capacity_of whole.store.words.now) ≤ length scratch.old }
    requires scratch_clear { take (pack_scratch (capacity_of whole.store.words.now)) scratch.old ≡ replicate (pack_scratch (capacity_of whole.store.words.now)) 0 }
    ensures told { outcome (written result) (out.new ∷ []) ≡ profiled (for_headset profile) (packed_file (kept_of whole.entry.store.words.now) (top + 2) root) out.old }
    ensures rest_unchanged { (length scratch.new ≡ length scratch.old) × (drop (pack_scratch (capacity_of whole.entry.store.words.now)) scratch.new ≡ drop (pack_scratch (capacity_of whole.entry.store.words.now)) scratch.old) }
{
    let counts = order_lists(whole, top, root, scratch);
    let sizes = place_lists(whole, top, counts, scratch);
    let total = file_length(sizes, top);
    if profile.is_headset() & !all_near(whole, top, counts, scratch) {
        return Err(Refusal::LongPointer);
    }
    if (out.len() as u64) < total {
        return Err(Refusal::OutputShort);
    }
    write_prepared(whole, top, root, counts, sizes, total, scratch, out);
    Ok(total as u32)
}

// Packs a scene: the length written; refused by 2 (the whole store), 9, 11, for the headset then 14 and 15, and 12.
fn pack_scene(
    store: &[u32],
    scene: u32,
    profile: Profile,
    scratch: &mut [u32],
    out: &mut [u8],
) -> Result<u32, Refusal>
    ensures { outcome (written result) (scratch.new ∷ out.new ∷ []) ≡ cond (for_headset profile) (headset_pack_outcome store.now scene scratch.old out.old) (pack_outcome store.now scene scratch.old out.old) }
{
    let whole = WholeStore::open(store)?;
    if !whole.store.holds(scene) {
        return Err(Refusal::NoScene);
    }
    let depth = whole.store.scene_depth(scene);
    let root = whole.store.scene_root(scene);
    let words = scratch_words(whole.store.capacity());
    if scratch.len() < words {
        return Err(Refusal::ScratchShort);
    }
    clear(scratch, words);
    if profile.is_headset() & (depth > HEADSET_DEPTH) {
        return Err(Refusal::TooDeep);
    }
    if root == 0 {
        return pack_empty(depth, out);
    }
    let answer = pack_root(whole, depth - LEAF_HEIGHT, root, profile, scratch, out);
    clear(scratch, words); // so that it is left clear
    answer
}

// Pack: the length written; refused by 2 (the whole store), 9, 11, then 12.
pub fn pack(store: &[u32], scene: u32, scratch: &mut [u32], out: &mut [u8]) -> Result<u32, Refusal>
    ensures { outcome (written result) (scratch.new ∷ out.new ∷ []) ≡ pack_outcome store.now scene scratch.old out.old }
{
    pack_scene(store, scene, Profile::Any, scratch, out)
}

// Pack for the headset: the length written; refused by 2 (the whole store), 9, 11, 14, 15, then 12.
pub fn headset_pack(
    store: &[u32],
    scene: u32,
    scratch: &mut [u32],
    out: &mut [u8],
) -> Result<u32, Refusal>
    ensures { outcome (written result) (scratch.new ∷ out.new ∷ []) ≡ headset_pack_outcome store.now scene scratch.old out.old }
{
    pack_scene(store, scene, Profile::Headset, scratch, out)
}
