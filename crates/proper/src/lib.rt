#![tactic(auto)]

// The check of untrusted packed bytes: refusals 11, 3, 4 and 5, then all rules, by places and symmetries, in a scratch of as many bytes as the file. Phase 1,
// in the crate `proper_lists`, goes from the leaves up and leaves in the scratch, at the first byte of each record, its mark; phase 2, in the crate
// `proper_popular`, counts there the pointers that name it. The headset check comes after: depth, and long pointers, which the crate `proper_long` finds.
ghost use Rattle.std.specs.Prelude.{◌≡◌, false, is_ok, [], ◌∷◌, suc, T, length, replicate};
ghost use Rattle.paper.specs.Numbers.{all_below};
ghost use Rattle.paper.specs.Packed.{top_of, is_empty, top_ok};
ghost use Rattle.paper.specs.Answers.{outcome, checked};
ghost use Rattle.paper.specs.Calls.{check_outcome};
ghost use Rattle.paper.specs.Headset.{headset_check_outcome};
ghost use Rattle.packed_lists.specs.Header.{Tested, Opens};
ghost use Rattle.packed_lists.specs.Ends.{Listed};
ghost use Rattle.proper_lists.specs.Marking.{list_rules, Marked};
ghost use Rattle.proper_rules.specs.Rules.{root_low, marked_by, rules_by, packed_by};

use file_head::{depth, test_head};
use limits::{
    DEPTH_POSITION, EMPTY_MARK, HALF_BYTES, HEADSET_DEPTH, LEAF_BYTES, LEAF_HEIGHT,
    MIRROR_POSITION, PACKED_HEAD, PACKED_VERSION,
};
use packed_lists::{head_bad, list_end};
use packed_records::width;
use paper::{Broken, Refusal};
use proper_lists::mark_lists;
use proper_long::any_long;
use proper_marks::{Lists, clear, tag_high};

// Whether the top list has exactly one record.
#[tactic(auto, using(crate::proofs::Top::top_room))]
fn one_on_top(file: &[u8], starts: [u32; 15], top: u32) -> bool
    requires listed { Listed file.now starts }
    requires top_value { top ≡ top_of file.now }
    requires rules { T (all_below (suc (top_of file.now)) (list_rules file.now)) }
    ensures { result ≡ top_ok file.now }
{
    let a = starts[top as usize] as usize;
    let b = list_end(starts, file.len(), top);
    let list = &file[a..b];
    if top == 0 {
        return list.len() == LEAF_BYTES;
    }
    if list.len() == 0 {
        return false;
    }
    HALF_BYTES * (width(list, 0) as usize) == list.len()
}

// Whether the root's tag is the lowest with its meaning.
#[tactic(auto, using(crate::proofs::Root::root_mark))]
fn root_low(file: &[u8], scratch: &[u8], starts: [u32; 15], top: u32) -> bool
    requires marked { Marked file.now starts (suc (top_of file.now)) scratch.now }
    requires top_value { top ≡ top_of file.now }
    requires one { T (top_ok file.now) }
    ensures { result ≡ root_low file.now }
{
    let a = starts[top as usize] as usize;
    !tag_high(u32::from(scratch[a]), u32::from(file[MIRROR_POSITION]))
}

// Phase 1: each list keeps its rules, the top list has exactly one record, and the root's tag is the lowest. The scratch is zero before. A frame
// of its own, as below: together they would pass 512 bytes (docs/STACK.md).
#[inline(never)]
fn test_marked(file: &[u8], scratch: &mut [u8], starts: [u32; 15], top: u32) -> Result<(), Broken>
    requires unmarked { Marked file.now starts 0 scratch.old }
    requires top_value { top ≡ top_of file.now }
    ensures { is_ok result ≡ marked_by file.now }
{
    mark_lists(file, scratch, starts, top)?;
    if one_on_top(file, starts, top) && root_low(file, scratch, starts, top) {
        return Ok(());
    }
    Err(Broken)
}

// The rules past the sizes, 2 to 8, of the file of a scene that is not empty. The scratch is left as the last test has it.
#[inline(never)]
fn test_lists(file: &[u8], scratch: &mut [u8]) -> Result<(), Broken>
    requires opens { Opens file.now }
    requires not_empty { is_empty file.now ≡ false }
    requires scratch_len { length scratch.old ≡ length file.now }
    ensures { is_ok result ≡ rules_by file.now }
{
    let top = u32::from(file[DEPTH_POSITION]) - LEAF_HEIGHT;
    let lists = Lists::of(file, top);
    clear(scratch);
    test_marked(file, scratch, lists.starts, top)?;
    clear(scratch);
    proper_popular::test(&lists, scratch)
}

// The rules of byte 6, the sizes, the records and the lists. The scratch is left as the last test has it.
fn test_file(file: &[u8], scratch: &mut [u8]) -> Result<(), Broken>
    requires tested { Tested file.now }
    requires scratch_len { length scratch.old ≡ length file.now }
    ensures { is_ok result ≡ packed_by file.now }
{
    if head_bad(file) {
        return Err(Broken);
    }
    if file[MIRROR_POSITION] == EMPTY_MARK {
        return Ok(());
    }
    test_lists(file, scratch)
}

// The same, and the scratch is left zero.
fn test_rules(file: &[u8], scratch: &mut [u8]) -> Result<(), Broken>
    requires tested { Tested file.now }
    requires scratch_len { length scratch.old ≡ length file.now }
    ensures rules { is_ok result ≡ packed_by file.now }
    ensures zero { scratch.new ≡ replicate (length file.now) 0 }
{
    let rules = test_file(file, scratch);
    clear(scratch);
    rules
}

// Packed check: whether the bytes are a proper file, with its depth; refused by 11, 3, 4, 5, 6. The scratch takes as many
// bytes as the file, and is zero after 0 and 6.
pub fn check(file: &[u8], scratch: &mut [u8]) -> Result<u32, Refusal>
    ensures { outcome (checked result) (scratch.new ∷ []) ≡ check_outcome file.now scratch.old }
{
    let n = file.len();
    if scratch.len() < n {
        return Err(Refusal::ScratchShort);
    }
    test_head(file, PACKED_VERSION, PACKED_HEAD)?;
    test_rules(file, &mut scratch[..n])?;
    Ok(depth(file))
}

// Headset check: whether the bytes are a proper file that meets the headset's profile, with its depth; refused as the packed check, then by 14 and
// 15. The scratch is the packed check's, and is zero after 0, 6, 14 and 15.
pub fn headset_check(file: &[u8], scratch: &mut [u8]) -> Result<u32, Refusal>
    ensures { outcome (checked result) (scratch.new ∷ []) ≡ headset_check_outcome file.now scratch.old }
{
    let depth = check(file, scratch)?;
    let deep = HEADSET_DEPTH < depth;
    let long = any_long(file);
    if deep {
        return Err(Refusal::TooDeep);
    }
    if long {
        return Err(Refusal::LongPointer);
    }
    Ok(depth)
}
