#![tactic(auto)]

// The call: a file's scene added to a store, its cells merged into those that the store keeps, equal cells and mirror images once; or
// refused with the store as it was.
ghost use Rattle.std.specs.Prelude.{◌≡◌, [], ◌∷◌};
ghost use Rattle.laws.specs.InOrder.{InOrder};
ghost use Rattle.paper.specs.Answers.{outcome, added};
ghost use Rattle.paper.specs.Order.{first_number};
ghost use Rattle.paper.specs.Calls.{outline_order, add_outcome};
ghost use Rattle.add_records.specs.RecordAdding.{record_adding};
ghost use Rattle.add.specs.SceneAdding.{Ready, add_root};

use add_keep::{counts, cut_back, hold_scene};
use add_records::{Record, add_record};
use file_head::depth;
use limits::OUTLINE_HEAD;
use paper::{Full, Refusal};
use store::{MOST_SCENES, Store};
use store_whole::WholeStore;

// The root's record, or none for an empty scene.
fn add_root(file: &[u8], store: &mut [u32]) -> Result<Record, Full>
    requires file_value { first_number (outline_order file.now) ≡ 0 }
    requires in_order { InOrder store.old }
    ensures { record_adding result store.new ≡ add_root file.now store.old }
{
    if file.len() == OUTLINE_HEAD {
        return Ok(Record {
            end: OUTLINE_HEAD,
            pointer: 0,
            symmetry: 0,
            solid: 0,
        });
    }
    add_record(file, store, OUTLINE_HEAD, depth(file))
}

// The scene of a file that breaks no rule, in a store that can hold one more: its cells, then its two words. Where a
// height is full the lists are cut back.
fn take_scene(file: &[u8], store: &mut [u32]) -> Result<u32, Refusal>
    requires { Ready store.old file.now }
    ensures { outcome (added result) (store.new ∷ []) ≡ add_outcome store.old file.now }
{
    let lent = Store::of(store);
    let number = lent.scenes_held();
    let before = counts(lent);
    match add_root(file, store) {
        Err(full) => {
            cut_back(store, before);
            Err(Refusal::from(full))
        }
        Ok(root) => {
            hold_scene(store, depth(file), root.pointer);
            Ok(number)
        }
    }
}

// Add: the scene's number; refused by 2, 3, 4, 5, 6, 7, 8 in this order.
pub fn add(store: &mut [u32], file: &[u8]) -> Result<u32, Refusal>
    ensures { outcome (added result) (store.new ∷ []) ≡ add_outcome store.old file.now }
{
    let whole = WholeStore::open(store)?;
    outline::test(file)?;
    if MOST_SCENES <= whole.store.scenes_held() {
        return Err(Refusal::ScenesFull);
    }
    take_scene(file, store)
}
