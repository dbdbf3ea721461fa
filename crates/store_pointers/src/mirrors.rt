// Mirroring a cell: its pointers change places, (i xor t) against i, and the tag of each is changed by exclusive or. A mirrored cell is read pointer by pointer, so
// that a comparison makes no more of it than it looks at.
ghost use Rattle.std.specs.Prelude.{◌≡◌, ◌<◌};
ghost use Rattle.paper.specs.Claims.{turned};

use crate::pointers::TAG_STEP;

// A pointer mirrored once more: none stays none.
pub fn mirrored_pointer(p: u32, mirror: u32) -> u32
    requires { mirror < 8 }
    ensures { result ≡ turned mirror p }
{
    if p == 0 { 0 } else { p ^ (mirror * TAG_STEP) }
}
