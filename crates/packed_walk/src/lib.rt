#![tactic(auto)]

// The walk of a packed voxel question, list by list from the top record, counting the records read.
ghost use Rattle.std.specs.Prelude.{◌≡◌, ◌%◌, ◌<◌, length};
ghost use Rattle.std.specs.Int.Bits.{bit_xor};
ghost use Rattle.paper.specs.Store.{heights};
ghost use Rattle.packed_records.specs.Records.{child_is};
ghost use Rattle.packed_walk.specs.Walk.{Parts, ending, ending_of, leaf_ending, parts_walk, taken_at};
ghost use Rattle.points.specs.Points.{at};
ghost use Rattle.points.specs.Seeing.{child_no_at};

use limits::LEAF_HEIGHT;
use packed_records::{Target, child, leaf, record_bad};
use paper::Broken;
use points::{Point, child_number};

// Where a walk ends.
#[derive(Clone, Copy)]
pub enum Ended {
    // The child of this height is absent.
    Absent(u32),
    // In a leaf of these bits, seen under this mirror.
    InLeaf(u64, u32),
}

// A walk that met nothing broken, with the number of records read, a leaf's among them.
#[derive(Clone, Copy)]
pub struct Walked {
    pub end: Ended,
    pub records: u32,
}

// Which child of a record of list k + 1 holds a point, the record being seen under a mirror.
fn number_seen(k: u32, mirror: u32, v: Point) -> u32
    requires k_lt_heights { k < heights }
    requires mirror_bound { mirror < 8 }
    ensures { (result ≡ bit_xor (child_no_at k (at v)) mirror) × (result < 8) }
{
    child_number(k, v) ^ mirror
}

// What the child that holds a point is, of the record at a place of list k + 1, seen under a mirror. The record is tested first: fewer
// numbers are at hand at once.
fn step(list: &[u8], place: u32, k: u32, mirror: u32, v: Point) -> Result<Option<Target>, Broken>
    requires k_lt_heights { k < heights }
    requires mirror_bound { mirror < 8 }
    ensures { child_is result ≡ taken_at list.now place (bit_xor (child_no_at k (at v)) mirror) }
{
    if record_bad(list, place) {
        return Err(Broken);
    }
    child(list, place, number_seen(k, mirror, v))
}

// How the walk ends in a leaf, after `read` records; the leaf is one more.
fn in_leaf(leaves: &[u8], place: u32, mirror: u32, read: u32) -> Result<Walked, Broken>
    requires leaves_len { length leaves.now % 8 ≡ 0 }
    requires read_bound { read < 16 }
    ensures { result ≡ leaf_ending leaves.now place mirror read }
{
    let bits = leaf(leaves, place);
    if bits == 0 {
        return Err(Broken);
    }
    Ok(Walked {
        end: Ended::InLeaf(bits, mirror),
        records: read + 1,
    })
}

// The walk from the top record, list by list, counting the records read. `starts` says where each list lies in the inner part, which
// ends with list 1; a pointer past its list is found out where it leads. The starts stay fifteen numbers: each is read once, since a list
// ends where the one below it starts.
pub fn walk(
    inner: &[u8],
    leaves: &[u8],
    starts: [u32; 15],
    top: u32,
    mirror: u32,
    v: Point,
) -> Result<Walked, Broken>
    requires parts { Parts inner.now leaves.now starts top }
    requires mirror_bound { mirror < 8 }
    ensures { ending (at v) result ≡ ending_of (parts_walk inner.now leaves.now starts top mirror (at v)) }
{
    let mut start = starts[top as usize] as usize;
    let mut place = 0u32;
    let mut seen = mirror;
    let mut records = 0u32;
    for k in (0..top).rev() {
        let end = starts[k as usize] as usize;
        let taken = step(&inner[start..end], place, k, seen, v)?;
        records += 1;
        let Some(below) = taken else {
            return Ok(Walked {
                end: Ended::Absent(k + LEAF_HEIGHT),
                records,
            });
        };
        place = below.place;
        seen = below.mirror ^ seen;
        start = end;
    }
    in_leaf(leaves, place, seen, records)
}
