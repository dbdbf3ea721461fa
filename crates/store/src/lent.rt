// The lent words of a store whose header is in order. Every method that reads a word is a method of it, so the header is tested once.
ghost use Rattle.std.specs.Prelude.{◌≡◌, ◌≤◌, ◌<◌, ℕ, length, is_ok, IsTrue, IfOk};
ghost use Rattle.paper.specs.Store.{heights, most_capacity, most_scenes, used, capacity_of, scenes_held, is_held, kept_count, header_ok};

use crate::header::{FIRST_COUNT, header_bad};
use paper::Damaged;

// The words, with what their header says of the room and of the numbers in it.
#[derive(Clone, Copy)]
pub struct Store<'a> {
    pub words: &'a [u32],
    pub ghost header_ok: { IsTrue (header_ok words.now) },
    pub ghost room: { used (capacity_of words.now) ≤ length words.now },
    pub ghost most: { capacity_of words.now ≤ most_capacity },
    pub ghost scenes: { scenes_held words.now ≤ most_scenes },
    pub ghost counts: { (k : ℕ) → k < heights → kept_count words.now k ≤ capacity_of words.now },
}

impl<'a> Store<'a> {
    // These words as a store, where the header is in order. Put into its callers, so that a call answers one bool and no struct in memory.
    #[inline(always)]
    pub fn open(words: &'a [u32]) -> Result<Store<'a>, Damaged>
        ensures same_words { IfOk result (λ store. store.words.now ≡ words.now) }
        ensures opened { is_ok result ≡ header_ok words.now }
    {
        if header_bad(words) {
            return Err(Damaged);
        }
        Ok(Store { words })
    }

    // These words as a store, for those who know the header.
    pub fn of(words: &'a [u32]) -> Store<'a>
        requires { IsTrue (header_ok words.now) }
        ensures { result.words.now ≡ words.now }
    {
        Store { words }
    }

    // The capacity.
    pub fn capacity(self) -> u32
        ensures { result ≡ capacity_of self.entry.words.now }
    {
        self.words[0]
    }

    // How many scenes are held.
    pub fn scenes_held(self) -> u32
        ensures { result ≡ scenes_held self.entry.words.now }
    {
        self.words[1]
    }

    // Whether a scene is held under number n.
    pub fn holds(self, n: u32) -> bool
        ensures { result ≡ is_held self.entry.words.now n }
    {
        n < self.words[1]
    }

    // How many cells list k keeps.
    pub fn kept_count(self, k: u32) -> u32
        requires k_lt_heights { k < heights }
        ensures { result ≡ kept_count self.entry.words.now k }
    {
        self.words[(FIRST_COUNT + k) as usize]
    }
}
