#![tactic(auto)]

// Packed voxel: a question on the bytes of a packed file, with its whole outcome as `paper` defines it.
ghost use Rattle.std.specs.Prelude.{◌≡◌, false, [], Ok};
ghost use Rattle.paper.specs.Packed.{file_walk};
ghost use Rattle.paper.specs.Answers.{outcome, found};
ghost use Rattle.paper.specs.Calls.{packed_outside, packed_voxel_outcome};
ghost use Rattle.packed_lists.specs.Header.{Tested};
ghost use Rattle.packed_walk.specs.Walk.{ending, ending_of, found_at};
ghost use Rattle.packed.specs.Headers.{HeaderRead};
ghost use Rattle.points.specs.Points.{at};

use file_head::{depth, test_head};
use limits::{EMPTY_MARK, LEAF_HEIGHT, MIRROR_POSITION, PACKED_HEAD, PACKED_VERSION};
use packed_lists::read_lists;
use packed_walk::{Ended, Walked, walk};
use paper::{Broken, Found, Refusal, Voxel};
use points::{Point, leaf_solid, outside};

// Refusal 10: the point is outside.
fn point_outside(file: &[u8], v: Point) -> bool
    requires { Tested file.now }
    ensures { result ≡ packed_outside file.now (at v) }
{
    outside(depth(file), v)
}

// The voxel at a walk's end.
fn answer(walked: Walked, v: Point) -> Found
    ensures { Ok result ≡ found_at (ending (at v) (Ok walked)) }
{
    let voxel = match walked.end {
        Ended::Absent(height) => Voxel::Empty(height),
        Ended::InLeaf(bits, mirror) => {
            if leaf_solid(bits, mirror, v) {
                Voxel::Solid
            } else {
                Voxel::Empty(0)
            }
        }
    };
    Found {
        voxel,
        records: walked.records,
    }
}

// The walk to a point inside a file whose lists start here; an empty scene reads nothing.
fn found_in(file: &[u8], starts: [u32; 15], v: Point) -> Result<Found, Broken>
    requires header_read { HeaderRead file.now starts }
    requires inside { packed_outside file.now (at v) ≡ false }
    ensures { result ≡ found_at (ending_of (file_walk file.now (at v))) }
{
    let mark = file[MIRROR_POSITION];
    if mark == EMPTY_MARK {
        return Ok(Found {
            voxel: Voxel::Empty(depth(file)),
            records: 0,
        });
    }
    let last = starts[0] as usize;
    let leaves = &file[last..];
    let top = depth(file) - LEAF_HEIGHT;
    let walked = walk(file, leaves, starts, top, u32::from(mark), v)?;
    Ok(answer(walked, v))
}

// Packed voxel: whether a point is solid, with the number of records read and the height of the emptiness; refused by 3, 4, 5, 10, 6.
pub fn packed_voxel(file: &[u8], v: Point) -> Result<Found, Refusal>
    ensures { outcome (found result) [] ≡ packed_voxel_outcome file.now (at v) }
{
    test_head(file, PACKED_VERSION, PACKED_HEAD)?;
    if point_outside(file, v) {
        return Err(Refusal::Outside);
    }
    let mut starts = [0u32; 15];
    read_lists(file, &mut starts)?;
    let seen = found_in(file, starts, v)?;
    Ok(seen)
}

// The same for a file whose header is tested and whose lists start here: refused by 10, 6.
pub fn voxel_in(file: &[u8], starts: [u32; 15], v: Point) -> Result<Found, Refusal>
    requires { HeaderRead file.now starts }
    ensures { outcome (found result) [] ≡ packed_voxel_outcome file.now (at v) }
{
    if point_outside(file, v) {
        return Err(Refusal::Outside);
    }
    let seen = found_in(file, starts, v)?;
    Ok(seen)
}
