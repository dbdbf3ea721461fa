#![tactic(auto)]

// What the parts of a check have in common: the places of a list one after the other, and marks. A list's share is the part of the check's scratch that
// lies there as the list does in the file; a record's mark is its symmetry, at the record's first byte in that share, and 0 stands where no record starts.
ghost use Rattle.std.specs.Prelude.{◌≡◌, not, ◌≤◌, ◌<◌, T, length, replicate};
ghost use Rattle.paper.specs.Packed.{record_ok};
ghost use Rattle.proper_marks.specs.Places.{RecordList, After};
ghost use Rattle.proper_marks.specs.Marks.{mark_of, low_tag, low_by};

mod in_file; // the lists of a file

pub use in_file::Lists;
use packed_records::width;

// All bytes zero.
pub fn clear(scratch: &mut [u8])
    ensures { scratch.new ≡ replicate (length scratch.old) 0 }
{
    scratch.fill(0);
}

// The place after a record: where the next one starts, or the list's end.
pub fn place_after(list: &[u8], place: u32) -> u32
    requires record_list { RecordList list.now }
    requires t { T (record_ok list.now place) }
    ensures { After list.now place result }
{
    place + width(list, place)
}

// A list's marks, as the records one list up name them: `unit` is how many bytes a place counts there, 8 for leaves and 2 for half-words.
#[derive(Clone, Copy)]
pub struct Marks<'a> {
    pub bytes: &'a [u8],
    pub unit: usize,
    ghost few: { unit ≤ 8 },
}

impl Marks<'_> {
    // The mark of a place, 0 where none is: a number, since it stands so in the scratch.
    pub fn at(self, place: u32) -> u32
        ensures { (result ≡ mark_of self.entry.unit self.entry.bytes.now place) × (result < 256) }
    {
        self.bytes
            .get(self.unit * (place as usize))
            .map_or(0, |mark| u32::from(*mark))
    }
}

// The lowest tag with the same meaning, for a record with this symmetry.
pub fn low_tag(symmetry: u32, tag: u32) -> u32
    requires { tag < 8 }
    ensures { (result ≡ low_tag symmetry tag) × (result < 8) }
{
    if symmetry == 1 {
        return tag;
    }
    for lower in 0..tag {
        if (symmetry >> (lower ^ tag)) % 2 == 1 {
            return lower;
        }
    }
    tag
}

// Whether a lower tag has the same meaning, for a record with this symmetry.
pub fn tag_high(symmetry: u32, tag: u32) -> bool
    requires { tag < 8 }
    ensures { result ≡ not (low_by symmetry tag) }
{
    low_tag(symmetry, tag) != tag
}
