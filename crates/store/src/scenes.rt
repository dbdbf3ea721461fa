// The words of the scenes: two for each, its depth and its root pointer.
ghost use Rattle.std.specs.Prelude.{◌≡◌, false, not, ◌-◌, ◌≤◌, ◌<◌, T, is_ok, IsTrue, IfOk};
ghost use Rattle.paper.specs.Rooms.{deepest, depth_ok};
ghost use Rattle.paper.specs.Store.{most_scenes, kept_count, bad_pointer, scene_position, scene_depth, scene_root, header_ok, scene_ok};

use crate::lent::Store;
use limits::LEAF_HEIGHT;
use paper::Damaged;
use points::depth_bad;
use store_pointers::bad_pointer;

// Scene 0's place, and the words of a scene.
const FIRST_SCENE: usize = 32;

const SCENE_WORDS: usize = 2;

// Where scene n's words start.
pub fn scene_position(n: u32) -> usize
    requires { n ≤ most_scenes }
    ensures { result ≡ scene_position n }
{
    FIRST_SCENE + SCENE_WORDS * (n as usize)
}

// A scene whose two words are in order, ready to be asked: its depth is 2 to 16, and its root pointer, in the list of that depth, isn't bad.
#[derive(Clone, Copy)]
pub struct Scene<'a> {
    pub store: Store<'a>,
    pub depth: u32,
    pub root: u32,
    pub ghost deep: { IsTrue (depth_ok depth) },
    pub ghost low: { 2 ≤ depth },
    pub ghost high: { depth ≤ deepest },
    pub ghost sound: { bad_pointer (kept_count store.words.now (depth - 2)) root ≡ false },
}

impl<'a> Store<'a> {
    // The depth of scene n.
    pub fn scene_depth(self, n: u32) -> u32
        requires n_lt_most_scenes { n < most_scenes }
        ensures { result ≡ scene_depth self.entry.words.now n }
    {
        self.words[scene_position(n)]
    }

    // The root pointer of scene n.
    pub fn scene_root(self, n: u32) -> u32
        requires n_lt_most_scenes { n < most_scenes }
        ensures { result ≡ scene_root self.entry.words.now n }
    {
        self.words[scene_position(n) + 1]
    }

    // Scene n, where its two words are in order.
    pub fn scene(self, n: u32) -> Result<Scene<'a>, Damaged>
        requires n_lt_most_scenes { n < most_scenes }
        ensures same_words { IfOk result (λ scene. scene.store.words.now ≡ self.entry.words.now) }
        ensures its_depth { IfOk result (λ scene. scene.depth ≡ scene_depth self.entry.words.now n) }
        ensures its_root { IfOk result (λ scene. scene.root ≡ scene_root self.entry.words.now n) }
        ensures opened { is_ok result ≡ scene_ok self.entry.words.now n }
    {
        let depth = self.scene_depth(n);
        if depth_bad(depth) {
            return Err(Damaged);
        }
        let root = self.scene_root(n);
        if bad_pointer(self.kept_count(depth - LEAF_HEIGHT), root) {
            return Err(Damaged);
        }
        Ok(Scene {
            store: self,
            depth,
            root,
        })
    }
}
