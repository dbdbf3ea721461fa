#![tactic(auto)]

// Phase 1 of a check: the lists of a file tested from the leaves up, each marked once it is found good.
ghost use Rattle.std.specs.Prelude.{◌≡◌, is_ok, OnOk, OnErr, suc, ◌≤◌, ◌<◌, length, drop, replicate};
ghost use Rattle.paper.specs.Numbers.{all_in, all_below};
ghost use Rattle.paper.specs.Packed.{top_of, leaf_ok};
ghost use Rattle.proper_marks.specs.Places.{places_in, leaves_in, LeafList, RecordList, WholeList};
ghost use Rattle.proper_marks.specs.Marks.{Grouped};
ghost use Rattle.proper_alike.specs.Matching.{record_rules};
ghost use Rattle.proper_lists.specs.Marking.{leaves_rules, leaf_marks, inner_rules, record_marks, list_rules, scratch_at, Shares, Marked};

use leaf::leaf_symmetry;
use limits::{HALF_BYTES, LEAF_BYTES};
use packed_lists::{list_end, unit_of};
use packed_records::leaf;
use paper::Broken;
use proper_alike::{record_symmetry, test_record, two_leaves_match, two_match};
use proper_keys::Records;
use proper_marks::{Marks, place_after};

// ---- leaves

// The rule of each leaf: it is not zero.
fn test_leaves(leaves: &[u8]) -> Result<(), Broken>
    requires { LeafList leaves.now }
    ensures { is_ok result ≡ all_in (leaf_ok leaves.now) (leaves_in leaves.now) }
{
    let count = (leaves.len() / LEAF_BYTES) as u32;
    for place in 0..count {
        if leaf(leaves, place) == 0 {
            return Err(Broken);
        }
    }
    Ok(())
}

// Writes the leaves' marks over their share.
fn mark_leaves(leaves: &[u8], share: &mut [u8])
    requires leaf_list { LeafList leaves.now }
    requires share_len { length share.old ≡ length leaves.now }
    ensures { share.new ≡ leaf_marks leaves.now share.old }
{
    let count = (leaves.len() / LEAF_BYTES) as u32;
    for place in 0..count {
        share[LEAF_BYTES * (place as usize)] = leaf_symmetry(leaf(leaves, place));
    }
}

// Marks the leaves where they keep their rules: none is zero, and no two match. Else their share is left as it was.
// (Beside `mark_beside`, not one with it: each of the three steps has other rules there, and a trait of three laws would be longer.)
fn mark_leaf_list(leaves: &[u8], share: &mut [u8]) -> Result<(), Broken>
    requires leaf_list { LeafList leaves.now }
    requires share_zero { share.old ≡ replicate (length leaves.now) 0 }
    ensures rules { is_ok result ≡ leaves_rules leaves.now }
    ensures marked { OnOk result (share.new ≡ leaf_marks leaves.now share.old) }
    ensures kept { OnErr result (share.new ≡ share.old) }
{
    test_leaves(leaves)?;
    if two_leaves_match(leaves, share) {
        return Err(Broken);
    }
    mark_leaves(leaves, share);
    Ok(())
}

// ---- inner lists, each beside the marks one list down

// The rules of each record, and that the list ends with one.
fn test_records(records: Records) -> Result<(), Broken>
    requires { RecordList records.list.now }
    ensures { is_ok result ≡ all_in (record_rules records.entry.marks.unit records.entry.marks.bytes.now records.entry.list.now) (places_in records.entry.list.now) }
{
    let mut place = 0u32;
    // by position: each record says by its width where the next one starts
    while HALF_BYTES * (place as usize) < records.list.len() {
        test_record(records, place)?;
        place = place_after(records.list, place);
    }
    Ok(())
}

// Writes the records' marks over their share.
fn mark_records(records: Records, share: &mut [u8])
    requires whole_list { WholeList records.list.now }
    requires share_len { length share.old ≡ length records.list.now }
    ensures { share.new ≡ record_marks records.entry.marks.unit records.entry.marks.bytes.now records.entry.list.now share.old }
{
    let mut place = 0u32;
    // by position: each record says by its width where the next one starts
    while HALF_BYTES * (place as usize) < records.list.len() {
        share[HALF_BYTES * (place as usize)] = record_symmetry(records, place);
        place = place_after(records.list, place);
    }
}

// Marks the records of a list in its share, beside the marks one list down, where they keep their rules: each does, and no two
// match. Else the share is left as it was.
fn mark_beside<'a>(
    list: &'a [u8],
    marks: &'a [u8],
    unit: usize,
    share: &mut [u8],
) -> Result<(), Broken>
    requires record_list { RecordList list.now }
    requires unit_bound { unit ≤ 8 }
    requires grouped { Grouped unit marks.now }
    requires share_zero { share.old ≡ replicate (length list.now) 0 }
    ensures rules { is_ok result ≡ inner_rules unit marks.now list.now }
    ensures marked { OnOk result (share.new ≡ record_marks unit marks.now list.now share.old) }
    ensures kept { OnErr result (share.new ≡ share.old) }
{
    let records = Records {
        list,
        marks: Marks { bytes: marks, unit },
    };
    test_records(records)?;
    if two_match(list, marks, unit, share) {
        return Err(Broken);
    }
    mark_records(records, share);
    Ok(())
}

// Marks an inner list where it keeps its rules. Else its share is left as it was. `shares` has the list's own share, and after it
// the marks one list down.
fn mark_inner_list(list: &[u8], shares: &mut [u8], unit: usize) -> Result<(), Broken>
    requires { Shares unit list.now shares.old }
    ensures rules { is_ok result ≡ inner_rules unit (drop (length list.now) shares.old) list.now }
    ensures marked { OnOk result (shares.new ≡ record_marks unit (drop (length list.now) shares.old) list.now shares.old) }
    ensures kept { OnErr result (shares.new ≡ shares.old) }
{
    let (share, marks) = shares.split_at_mut(list.len());
    mark_beside(list, marks, unit, share)
}

// ---- the lists in the file

// Marks list 0 where it keeps its rules. Else the scratch is left as it was.
#[tactic(auto, using(crate::proofs::Cuts::leaf_cut))]
fn mark_bottom(file: &[u8], scratch: &mut [u8], starts: [u32; 15]) -> Result<(), Broken>
    requires { Marked file.now starts 0 scratch.old }
    ensures rules { is_ok result ≡ list_rules file.now 0 }
    ensures marked { OnOk result (scratch.new ≡ scratch_at file.now 1) }
    ensures kept { OnErr result (scratch.new ≡ scratch.old) }
{
    let a = starts[0] as usize;
    mark_leaf_list(&file[a..], &mut scratch[a..])
}

// Marks the list over list `below` where it keeps its rules, the lists below it being marked. Else the scratch is left as it was.
#[tactic(auto, using(crate::proofs::Cuts::list_room))]
fn mark_list(file: &[u8], scratch: &mut [u8], starts: [u32; 15], below: u32) -> Result<(), Broken>
    requires marked_below { Marked file.now starts (suc below) scratch.old }
    requires below_bound { below < top_of file.now }
    ensures rules { is_ok result ≡ list_rules file.now (suc below) }
    ensures marked { OnOk result (scratch.new ≡ scratch_at file.now (suc (suc below))) }
    ensures kept { OnErr result (scratch.new ≡ scratch.old) }
{
    let a = starts[(below + 1) as usize] as usize;
    let b = starts[below as usize] as usize;
    let c = list_end(starts, file.len(), below);
    mark_inner_list(&file[a..b], &mut scratch[a..c], unit_of(below))
}

// Marks all lists, from the leaves up, where each keeps its rules.
pub fn mark_lists(
    file: &[u8],
    scratch: &mut [u8],
    starts: [u32; 15],
    top: u32,
) -> Result<(), Broken>
    requires unmarked { Marked file.now starts 0 scratch.old }
    requires top_value { top ≡ top_of file.now }
    ensures rules { is_ok result ≡ all_below (suc (top_of file.now)) (list_rules file.now) }
    ensures marked { OnOk result (scratch.new ≡ scratch_at file.now (suc (top_of file.now))) }
{
    mark_bottom(file, scratch, starts)?;
    for below in 0..top {
        mark_list(file, scratch, starts, below)?;
    }
    Ok(())
}
