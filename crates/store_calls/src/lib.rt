#![tactic(auto)]

// New store and kept, each with its whole outcome as `paper` defines it.
ghost use Rattle.std.specs.Prelude.{◌≡◌, [], ◌∷◌};
ghost use Rattle.paper.specs.Answers.{outcome, started, kept as kept-told};
ghost use Rattle.paper.specs.Calls.{new_outcome, kept_outcome};

use limits::LEAF_HEIGHT;
use paper::Refusal;
use points::depth_bad;
use store::{Store, clear, size_bad, used_words};

// New store: the words of this capacity zeroed, then word 0 set; refused by 1.
pub fn new_store(words: &mut [u32], capacity: u32) -> Result<(), Refusal>
    ensures { outcome (started result) (words.new ∷ []) ≡ new_outcome capacity words.old }
{
    if size_bad(capacity, words.len()) {
        return Err(Refusal::BadSize);
    }
    clear(words, used_words(capacity));
    words[0] = capacity;
    Ok(())
}

// Kept: the cells kept at a height; refused by 2 (header), then 10.
pub fn kept(words: &[u32], height: u32) -> Result<u32, Refusal>
    ensures { outcome (kept-told result) [] ≡ kept_outcome words.now height }
{
    let store = Store::open(words)?;
    if depth_bad(height) {
        return Err(Refusal::Outside);
    }
    Ok(store.kept_count(height - LEAF_HEIGHT))
}
