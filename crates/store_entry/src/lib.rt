#![tactic(auto)]

// What every question on a scene tests first: the header (2), the scene's number (9), the scene's two words (2).
ghost use Rattle.std.specs.Prelude.{◌≡◌, IfOk};
ghost use Rattle.store_entry.specs.Entry.{entry_of};
ghost use Rattle.store_entry.specs.Entering.{entered};

use paper::Refusal;
use store::{Scene, Store};

// Scene n of these words; or its refusal: 2 (header), 9, 2 (the scene's two words), in this order.
pub fn enter(words: &[u32], n: u32) -> Result<Scene<'_>, Refusal>
    ensures same_words { IfOk result (λ scene. scene.store.words.now ≡ words.now) }
    ensures entry { entered result ≡ entry_of words.now n }
{
    let store = Store::open(words)?;
    if !store.holds(n) {
        return Err(Refusal::NoScene);
    }
    Ok(store.scene(n)?)
}
