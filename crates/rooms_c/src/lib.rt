#![tactic(auto)]

// The public calls for C. A slice is a pointer and a length, the answer is document 01's number, 0 where the call is accepted, and the
// values are written through the last parameters, zeros on a refusal. Each promise stands in specs/Exports.antt, by name, as one equation,
// on the same outcome as the call of `rooms`; where C passes numbers in the place of a struct or of a wish, that file says which. No
// call asks anything of the values it is given; what it asks of pointers and memory is in the header.
ghost use Rattle.paper.specs.Rooms.{point};
ghost use Rattle.rooms_c.specs.Exports.{RoomsNewPromise, RoomsAddPromise, RoomsVoxelPromise, RoomsSightPromise, RoomsCellPromise, RoomsBoxPromise, RoomsAnyPromise, RoomsKeptPromise, RoomsOutlinePromise, RoomsPackPromise, RoomsHeadsetPackPromise, RoomsCheckPromise, RoomsHeadsetCheckPromise, RoomsPackedVoxelPromise, RoomsOpenPromise, RoomsAskPromise, RoomsDetailPromise};

use rooms::{
    Point, blocked_voxel, found_entered, non_empty, number, solid_height, solid_records_height,
};
use rooms_numbers::{ask_numbers, detail_numbers, open_numbers};

// New store.
#[unsafe(no_mangle)]
pub extern "C" fn rooms_new(store: &mut [u32], capacity: u32) -> u32
    ensures { RoomsNewPromise capacity store.old result store.new }
{
    let answer = rooms::new_store(store, capacity);
    number(answer)
}

// Add: the scene's number.
#[unsafe(no_mangle)]
pub extern "C" fn rooms_add(store: &mut [u32], file: &[u8], scene: &mut u32) -> u32
    ensures { RoomsAddPromise store.old file.now result scene.new store.new }
{
    let answer = rooms::add(store, file);
    *scene = answer.unwrap_or(0);
    number(answer)
}

// Voxel: 1 for solid, 0 for empty, and the height of the emptiness.
#[unsafe(no_mangle)]
pub extern "C" fn rooms_voxel(
    store: &[u32],
    scene: u32,
    x: u32,
    y: u32,
    z: u32,
    solid: &mut u32,
    height: &mut u32,
) -> u32
    ensures { RoomsVoxelPromise store.now scene (point x y z) result solid.new height.new }
{
    let answer = rooms::voxel(store, scene, Point { x: x, y: y, z: z });
    [*solid, *height] = solid_height(answer);
    number(answer)
}

// Sight line: 1 where it is blocked, and the voxel that blocks it.
#[unsafe(no_mangle)]
pub extern "C" fn rooms_sight(
    store: &[u32],
    scene: u32,
    fromx: u32,
    fromy: u32,
    fromz: u32,
    tox: u32,
    toy: u32,
    toz: u32,
    blocked: &mut u32,
    x: &mut u32,
    y: &mut u32,
    z: &mut u32,
) -> u32
    ensures { RoomsSightPromise store.now scene (point fromx fromy fromz) (point tox toy toz) result blocked.new x.new y.new z.new }
{
    let from = Point {
        x: fromx,
        y: fromy,
        z: fromz,
    };
    let to = Point {
        x: tox,
        y: toy,
        z: toz,
    };
    let answer = rooms::sight(store, scene, from, to);
    [*blocked, *x, *y, *z] = blocked_voxel(answer);
    number(answer)
}

// Cell: 1 for non-empty, 0 for empty, x, y and z counted in cells of its height.
#[unsafe(no_mangle)]
pub extern "C" fn rooms_cell(
    store: &[u32],
    scene: u32,
    height: u32,
    x: u32,
    y: u32,
    z: u32,
    full: &mut u32,
) -> u32
    ensures { RoomsCellPromise store.now scene height (point x y z) result full.new }
{
    let answer = rooms::cell(store, scene, height, Point { x: x, y: y, z: z });
    *full = non_empty(answer);
    number(answer)
}

// Box: the number of solid voxels from the low corner up to the high one, which is outside.
#[unsafe(no_mangle)]
pub extern "C" fn rooms_box(
    store: &[u32],
    scene: u32,
    lowx: u32,
    lowy: u32,
    lowz: u32,
    highx: u32,
    highy: u32,
    highz: u32,
    count: &mut u64,
) -> u32
    ensures { RoomsBoxPromise store.now scene (point lowx lowy lowz) (point highx highy highz) result count.new }
{
    let low = Point {
        x: lowx,
        y: lowy,
        z: lowz,
    };
    let high = Point {
        x: highx,
        y: highy,
        z: highz,
    };
    let answer = rooms::box_count(store, scene, low, high);
    *count = answer.unwrap_or(0);
    number(answer)
}

// Anything in the way: 1 where the box holds a solid voxel, else 0, and the number of cells entered.
#[unsafe(no_mangle)]
pub extern "C" fn rooms_any(
    store: &[u32],
    scene: u32,
    lx: u32,
    ly: u32,
    lz: u32,
    hx: u32,
    hy: u32,
    hz: u32,
    solid: &mut u32,
    entered: &mut u64,
) -> u32
    ensures { RoomsAnyPromise store.now scene (point lx ly lz) (point hx hy hz) result solid.new entered.new }
{
    let low = Point {
        x: lx,
        y: ly,
        z: lz,
    };
    let high = Point {
        x: hx,
        y: hy,
        z: hz,
    };
    let answer = rooms::anything(store, scene, low, high);
    (*solid, *entered) = found_entered(answer);
    number(answer)
}

// Kept: the cells kept at a height.
#[unsafe(no_mangle)]
pub extern "C" fn rooms_kept(store: &[u32], height: u32, count: &mut u32) -> u32
    ensures { RoomsKeptPromise store.now height result count.new }
{
    let answer = rooms::kept(store, height);
    *count = answer.unwrap_or(0);
    number(answer)
}

// Outline out: the outline of a scene, and its length.
#[unsafe(no_mangle)]
pub extern "C" fn rooms_outline(store: &[u32], scene: u32, out: &mut [u8], length: &mut u32) -> u32
    ensures { RoomsOutlinePromise store.now scene out.old result length.new out.new }
{
    let answer = rooms::outline_out(store, scene, out);
    *length = answer.unwrap_or(0);
    number(answer)
}

// Pack: a scene as a packed file, and its length.
#[unsafe(no_mangle)]
pub extern "C" fn rooms_pack(
    store: &[u32],
    scene: u32,
    scratch: &mut [u32],
    out: &mut [u8],
    length: &mut u32,
) -> u32
    ensures { RoomsPackPromise store.now scene scratch.old out.old result length.new scratch.new out.new }
{
    let answer = rooms::pack(store, scene, scratch, out);
    *length = answer.unwrap_or(0);
    number(answer)
}

// Pack for the headset: a scene that meets its profile as a packed file, and its length.
#[unsafe(no_mangle)]
pub extern "C" fn rooms_headset_pack(
    store: &[u32],
    scene: u32,
    scratch: &mut [u32],
    out: &mut [u8],
    length: &mut u32,
) -> u32
    ensures { RoomsHeadsetPackPromise store.now scene scratch.old out.old result length.new scratch.new out.new }
{
    let answer = rooms::headset_pack(store, scene, scratch, out);
    *length = answer.unwrap_or(0);
    number(answer)
}

// Packed check: the depth of a proper file.
#[unsafe(no_mangle)]
pub extern "C" fn rooms_check(file: &[u8], scratch: &mut [u8], depth: &mut u32) -> u32
    ensures { RoomsCheckPromise file.now scratch.old result depth.new scratch.new }
{
    let answer = rooms::check(file, scratch);
    *depth = answer.unwrap_or(0);
    number(answer)
}

// Headset check: the depth of a proper file that meets the headset's profile.
#[unsafe(no_mangle)]
pub extern "C" fn rooms_headset_check(file: &[u8], scratch: &mut [u8], depth: &mut u32) -> u32
    ensures { RoomsHeadsetCheckPromise file.now scratch.old result depth.new scratch.new }
{
    let answer = rooms::headset_check(file, scratch);
    *depth = answer.unwrap_or(0);
    number(answer)
}

// Packed voxel: 1 for solid, 0 for empty, the number of records read on the way, and the height of the emptiness.
#[unsafe(no_mangle)]
pub extern "C" fn rooms_packed_voxel(
    file: &[u8],
    x: u32,
    y: u32,
    z: u32,
    solid: &mut u32,
    records: &mut u32,
    height: &mut u32,
) -> u32
    ensures { RoomsPackedVoxelPromise file.now (point x y z) result solid.new records.new height.new }
{
    let answer = rooms::packed_voxel(file, Point { x: x, y: y, z: z });
    [*solid, *records, *height] = solid_records_height(answer);
    number(answer)
}

// Opening: the depth and the fifteen list starts, written to the first sixteen numbers.
#[unsafe(no_mangle)]
pub extern "C" fn rooms_open(file: &[u8], numbers: &mut [u32]) -> u32
    ensures { RoomsOpenPromise file.now numbers.old result numbers.new }
{
    let answer = open_numbers(file, numbers);
    number(answer)
}

// A question on bytes held beside the numbers that an opening wrote.
#[unsafe(no_mangle)]
pub extern "C" fn rooms_ask(
    file: &[u8],
    numbers: &[u32],
    x: u32,
    y: u32,
    z: u32,
    solid: &mut u32,
    records: &mut u32,
    height: &mut u32,
) -> u32
    ensures { RoomsAskPromise file.now numbers.now (point x y z) result solid.new records.new height.new }
{
    let answer = ask_numbers(file, numbers, Point { x: x, y: y, z: z });
    [*solid, *records, *height] = solid_records_height(answer);
    number(answer)
}

// Detail: the height at which to draw a scene of this depth; the wish is given by its kind and two numbers.
#[unsafe(no_mangle)]
pub extern "C" fn rooms_detail(depth: u32, kind: u32, a: f64, b: f64, height: &mut u32) -> u32
    ensures { RoomsDetailPromise depth kind a b result height.new }
{
    let answer = detail_numbers(depth, kind, a, b);
    *height = answer.unwrap_or(0);
    number(answer)
}
