// Matching and symmetries, by the marks one list down, and whether two records of a list match.
ghost use Rattle.std.specs.Prelude.{◌≡◌, not, map, ◌/◌, ◌≤◌, ◌<◌, T, length, replicate};
ghost use Rattle.paper.specs.Numbers.{all_in};
ghost use Rattle.paper.specs.Packed.{record_ok};
ghost use Rattle.packed_records.specs.Records.{pointer_is};
ghost use Rattle.proper_marks.specs.Places.{places_in, leaves_in, LeafList, RecordList, WholeList};
ghost use Rattle.proper_marks.specs.Marks.{Grouped};
ghost use Rattle.proper_sorted.specs.Slots.{slots_of, distinct};
ghost use Rattle.proper_sorted.specs.Sorting.{Sortable};
ghost use Rattle.proper_alike.specs.Matching.{self_by, leaves_match, place_match, TwoTags, records_match, record_symmetry, record_rules, apart_in, leaf_key_at};
ghost use Rattle.proper_alike.specs.Shares.{Placed};

use limits::{CHILDREN, HALF_BYTES, LEAF_BYTES, MIRRORS};
use numbers::put_number;
use packed_records::{Pointer, leaf, pointer_at};
use proper_keys::{LeafKeys, Order, Records, least_leaf};
use proper_marks::{Marks, clear, place_after};
use proper_sorted::any_equal;

// The bytes of a slot that holds a place.
const SLOT: usize = 4;

// Whether two of the elements laid in a list's share have the same key: they are sorted there, and then the share is zero.
fn two_equal<const N: usize, O: Order>(by: &O, share: &mut [u8], count: usize) -> bool
    requires { Sortable N count (O.has_key by.now) share.old }
    ensures same { result ≡ not (distinct (map (O.key by.now) (slots_of N count share.old))) }
    ensures zero { share.new ≡ replicate (length share.old) 0 }
{
    let found = any_equal::<N, O>(by, share, count);
    clear(share);
    found
}

// ---- leaves

// Lays the leaves' keys over their share.
fn lay_keys(leaves: &[u8], share: &mut [u8])
    requires leaf_list { LeafList leaves.now }
    requires share_len { length share.old ≡ length leaves.now }
    ensures { (slots_of 8 (length leaves.now / 8) share.new ≡ map (leaf_key_at leaves.now) (leaves_in leaves.now)) × (length share.new ≡ length share.old) }
{
    let count = (leaves.len() / LEAF_BYTES) as u32;
    for place in 0..count {
        let key = least_leaf(leaf(leaves, place));
        put_number(share, LEAF_BYTES * (place as usize), LEAF_BYTES, key);
    }
}

// Whether two of the leaves match: their keys are sorted in the share, which is lent for the work and left as it was.
pub fn two_leaves_match(leaves: &[u8], share: &mut [u8]) -> bool
    requires leaf_list { LeafList leaves.now }
    requires share_zero { share.old ≡ replicate (length leaves.now) 0 }
    ensures { (result ≡ not (apart_in (leaves_match leaves.now) (leaves_in leaves.now))) × (share.new ≡ share.old) }
{
    let count = leaves.len() / LEAF_BYTES;
    lay_keys(leaves, share);
    two_equal::<LEAF_BYTES, LeafKeys>(&LeafKeys, share, count)
}

// ---- records, in a list beside the marks one list down

// Whether two pointers match under a mirror.
fn place_match(marks: Marks, mirror: u32, a: Pointer, b: Pointer) -> bool
    requires { TwoTags mirror a.tag b.tag }
    ensures { result ≡ place_match (self_by marks.entry.unit marks.entry.bytes.now) mirror (pointer_is a) (pointer_is b) }
{
    if a.code == 0 {
        return b.code == 0;
    }
    if (b.code == 0) | (a.place != b.place) {
        return false;
    }
    (marks.at(a.place) >> (a.tag ^ b.tag ^ mirror)) % 2 == 1
}

// Whether the records at two places match under a mirror.
fn records_match(records: Records, place: u32, other: u32, mirror: u32) -> bool
    requires whole { T (record_ok records.list.now place) × T (record_ok records.list.now other) }
    requires mirror_below { mirror < 8 }
    ensures { result ≡ records_match records.entry.marks.unit records.entry.marks.bytes.now records.entry.list.now place other mirror }
{
    for i in (0..CHILDREN).rev() {
        let a = pointer_at(records.list, place, i);
        let b = pointer_at(records.list, other, i ^ mirror);
        if !place_match(records.marks, mirror, a, b) {
            return false;
        }
    }
    true
}

// The symmetry of the record at a place: bit t is set where it matches itself under mirror t.
pub fn record_symmetry(records: Records, place: u32) -> u8
    requires { T (record_ok records.list.now place) }
    ensures { result ≡ record_symmetry records.entry.marks.unit records.entry.marks.bytes.now records.entry.list.now place }
{
    let mut symmetry = 0u8;
    // not `leaf::symmetry_of`: its closure would hold lent slices, and the proof of that call did not close
    for mirror in (0..MIRRORS).rev() {
        symmetry = 2 * symmetry + u8::from(records_match(records, place, place, mirror));
    }
    symmetry
}

// Lays the records' places over the list's own share, and answers how many they are.
fn lay_places(list: &[u8], share: &mut [u8]) -> usize
    requires whole_list { WholeList list.now }
    requires share_len { length share.old ≡ length list.now }
    ensures { Placed result list.now share.new }
{
    let mut count = 0usize;
    let mut place = 0u32;
    // by position: each record says by its width where the next one starts
    while HALF_BYTES * (place as usize) < list.len() {
        put_number(share, SLOT * count, SLOT, u64::from(place));
        count += 1;
        place = place_after(list, place);
    }
    count
}

// Whether two of the records match: their places are sorted by the records' keys in the list's share, which is lent for the
// work and left as it was. (By plain slices, not `Records`: the proof needs that each element is a byte, which is known of
// a parameter, not of a field.)
pub fn two_match<'a>(list: &'a [u8], marks: &'a [u8], unit: usize, share: &mut [u8]) -> bool
    requires record_list { RecordList list.now }
    requires unit_bound { unit ≤ 8 }
    requires grouped { Grouped unit marks.now }
    requires share_zero { share.old ≡ replicate (length list.now) 0 }
    requires rules { T (all_in (record_rules unit marks.now list.now) (places_in list.now)) }
    ensures { (result ≡ not (apart_in (records_match unit marks.now list.now) (places_in list.now))) × (share.new ≡ share.old) }
{
    let count = lay_places(list, share);
    let marks = Marks { bytes: marks, unit };
    two_equal::<SLOT, Records>(&Records { list, marks }, share, count)
}
