#![tactic(auto)]

// Document 01, 'The outline file': the records by position, and the refusals of a file by itself. The readers
// of a record and of its children call each other: the height falls.
ghost use Rattle.std.specs.Prelude.{◌≡◌, ◌-◌, ◌≤◌, is_ok};
ghost use Rattle.paper.specs.Rooms.{least, deepest};
ghost use Rattle.paper.specs.Outline.{outline_rules};
ghost use Rattle.paper.specs.Answers.{answer_number};
ghost use Rattle.paper.specs.Order.{first_number};
ghost use Rattle.paper.specs.Calls.{outline_order};
ghost use Rattle.outline.specs.Positions.{reading_of, leaf_at, children_at, record_at, GoodHead};

use file_head::{depth, test_head};
use limits::{CHILDREN, LEAF_BYTES, LEAF_HEIGHT, OUTLINE_HEAD, OUTLINE_VERSION};
use numbers::be64;
use paper::{Broken, Refusal};

// A leaf's record: eight bytes, not zero.
fn leaf(file: &[u8], at: usize) -> Result<usize, Broken>
    ensures { reading_of result ≡ leaf_at file.now at }
{
    if file.len() < LEAF_BYTES {
        return Err(Broken);
    }
    if file.len() - LEAF_BYTES < at {
        return Err(Broken);
    }
    if be64(file, at) == 0 {
        return Err(Broken);
    }
    Ok(at + LEAF_BYTES)
}

// The record of a cell of this height: a leaf's, or a mask byte, not zero, and the children's records. Answers the position after it.
#[cycle(children_record)]
pub fn record(file: &[u8], at: usize, height: u32) -> Result<usize, Broken>
    requires { (least ≤ height) × (height ≤ deepest) }
    ensures { reading_of result ≡ record_at file.now (height - 2) at }
{
    if height == LEAF_HEIGHT {
        return leaf(file, at);
    }
    if file.len() <= at {
        return Err(Broken);
    }
    let mask = file[at];
    if mask == 0 {
        return Err(Broken);
    }
    children(file, at + 1, height - 1, mask)
}

// The records of the children of this height; bit i of the mask is for child i.
#[cycle(children_record)]
fn children(file: &[u8], at: usize, height: u32, mask: u8) -> Result<usize, Broken>
    requires { (least ≤ height) × (height ≤ deepest) }
    ensures { reading_of result ≡ children_at (record_at file.now (height - 2)) 8 mask at }
{
    let mut end = at;
    for i in 0..CHILDREN {
        if (mask >> i) % 2 == 1 {
            end = record(file, end, height)?;
        }
    }
    Ok(end)
}

// The rules of what follows the head: nothing, or the root's record alone.
pub fn test_rules(file: &[u8]) -> Result<(), Broken>
    requires { GoodHead file.now }
    ensures { is_ok result ≡ outline_rules file.now }
{
    if file.len() == OUTLINE_HEAD {
        return Ok(());
    }
    if record(file, OUTLINE_HEAD, depth(file))? != file.len() {
        return Err(Broken);
    }
    Ok(())
}

// ---- refusals

// Tests an outline by itself: refusals 3, 4, 5, 6 in this order.
pub fn test(file: &[u8]) -> Result<(), Refusal>
    ensures { answer_number result ≡ first_number (outline_order file.now) }
{
    test_head(file, OUTLINE_VERSION, OUTLINE_HEAD)?;
    test_rules(file)?;
    Ok(())
}
