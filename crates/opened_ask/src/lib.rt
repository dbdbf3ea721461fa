#![tactic(auto)]

// A question on the bytes of a packed scene held beside the numbers of its header, over plain slices and numbers.
ghost use Rattle.std.specs.Prelude.{◌≡◌, not, ◌∷◌};
ghost use Rattle.paper.specs.Numbers.{same_list};
ghost use Rattle.paper.specs.Packed.{empty_mark, root_tag};
ghost use Rattle.paper.specs.Promises.{AskPromise};
ghost use Rattle.packed_lists.specs.Header.{Tested};
ghost use Rattle.opened_ask.specs.Compared.{opens_by};
ghost use Rattle.points.specs.Points.{at};

use file_head::test_head;
use limits::{EMPTY_MARK, MIRROR_POSITION, PACKED_HEAD, PACKED_VERSION};
use opened_head::Header;
use packed::voxel_in;
use packed_lists::{head_bad, read_lists};
use paper::{Found, Refusal};
use points::Point;

// Whether numbers are others than a file's own. All sixteen are compared, with no early exit: so they are compared side by side, at half
// of the instructions that a derived equality takes.
fn differ(own: Header, depth: u32, starts: [u32; 15]) -> bool
    ensures { result ≡ not (same_list (own.depth ∷ own.starts) (depth ∷ starts)) }
{
    let mut found = own.depth != depth;
    for k in 0..15usize {
        found |= own.starts[k] != starts[k];
    }
    found
}

// Whether a file whose scene is empty doesn't open to numbers: its starts are zeros.
fn empty_differs(file: &[u8], depth: u32, starts: [u32; 15]) -> bool
    requires tested { Tested file.now }
    requires empty { root_tag file.now ≡ empty_mark }
    ensures { result ≡ not (opens_by file.now depth starts) }
{
    let own = Header {
        depth: file_head::depth(file),
        starts: [0; 15],
    };
    head_bad(file) | differ(own, depth, starts)
}

// A question on bytes held beside numbers: 6 where they don't open to them, then as packed voxel. The sizes are read once, for
// the test and the walk. Bytes too short for a head are refused first: the head's own tests of their length fall away. An empty
// scene is compared apart: a comparison that both kinds of scene come to takes more instructions.
pub fn ask_bytes(bytes: &[u8], depth: u32, starts: [u32; 15], v: Point) -> Result<Found, Refusal>
    ensures { AskPromise bytes.now depth starts (at v) result }
{
    if bytes.len() < PACKED_HEAD {
        return Err(Refusal::BrokenRules);
    }
    if test_head(bytes, PACKED_VERSION, PACKED_HEAD).is_err() {
        return Err(Refusal::BrokenRules);
    }
    let mut own = Header {
        depth: 0,
        starts: [0; 15],
    };
    if bytes[MIRROR_POSITION] == EMPTY_MARK {
        if empty_differs(bytes, depth, starts) {
            return Err(Refusal::BrokenRules);
        }
    } else {
        own.depth = file_head::depth(bytes);
        read_lists(bytes, &mut own.starts)?;
        if differ(own, depth, starts) {
            return Err(Refusal::BrokenRules);
        }
    }
    voxel_in(bytes, own.starts, v)
}
