// One record: its rules and those of its pointers, by the marks one list down.
ghost use Rattle.std.specs.Prelude.{◌≡◌, is_ok, ◌<◌, T};
ghost use Rattle.paper.specs.Numbers.{all_in};
ghost use Rattle.paper.specs.Packed.{pointers_at, record_ok};
ghost use Rattle.packed_records.specs.Records.{pointer_is};
ghost use Rattle.proper_alike.specs.Matching.{pointer_rules, record_rules};

use limits::CHILDREN;
use packed_records::{Pointer, code_for, pointer_at, record_bad};
use paper::Broken;
use proper_keys::Records;
use proper_marks::{Marks, tag_high};

// A pointer's rules: it names the start of a record, has the width that its place calls for, and the lowest tag of its meaning.
fn test_pointer(pointer: Pointer, marks: Marks) -> Result<(), Broken>
    requires { pointer.tag < 8 }
    ensures { is_ok result ≡ pointer_rules marks.entry.unit marks.entry.bytes.now (pointer_is pointer) }
{
    if pointer.code == 0 {
        return Ok(());
    }
    let symmetry = marks.at(pointer.place);
    if (symmetry == 0)
        | (pointer.code != code_for(pointer.place))
        | tag_high(symmetry, pointer.tag)
    {
        return Err(Broken);
    }
    Ok(())
}

// The rules of a record's pointers.
fn test_pointers(records: Records, place: u32) -> Result<(), Broken>
    requires { T (record_ok records.list.now place) }
    ensures { is_ok result ≡ all_in (pointer_rules records.entry.marks.unit records.entry.marks.bytes.now) (pointers_at records.entry.list.now place) }
{
    for i in 0..CHILDREN {
        test_pointer(pointer_at(records.list, place, i), records.marks)?;
    }
    Ok(())
}

// The rules of a record: it is whole, and its pointers keep theirs.
pub fn test_record(records: Records, place: u32) -> Result<(), Broken>
    ensures { is_ok result ≡ record_rules records.entry.marks.unit records.entry.marks.bytes.now records.entry.list.now place }
{
    if record_bad(records.list, place) {
        return Err(Broken);
    }
    test_pointers(records, place)
}
