#![tactic(auto)]

// Opened packed scenes: a scene's bytes beside the numbers of its header, for many questions. The structs hold a slice; the work is done by
// functions over plain slices and numbers, and these are straight lines above them.
ghost use Rattle.std.specs.Prelude.{◌≡◌, []};
ghost use Rattle.paper.specs.Answers.{outcome, found, refusal_number};
ghost use Rattle.paper.specs.Calls.{open_outcome};
ghost use Rattle.paper.specs.Promises.{OpenPromise, AskPromise};
ghost use Rattle.points.specs.Points.{at};
ghost use Rattle.opened.specs.Asked.{asked_of};

pub use opened_ask::ask_bytes;
pub use opened_head::{Header, read_header};
use paper::{Found, Opened, Opening, Refusal};
use points::Point;

// Opening: refused by 3, 4, 5, 6; the scene holds an empty part and zeros then.
pub fn open<'a>(file: &'a [u8]) -> Opening<'a>
    ensures { OpenPromise file.now result }
{
    match read_header(file) {
        Ok(header) => {
            let starts = header.starts;
            Opening {
                refusal: None,
                scene: Opened {
                    bytes: file,
                    depth: header.depth,
                    starts,
                },
            }
        }
        Err(refusal) => Opening {
            refusal: Some(refusal),
            scene: Opened {
                bytes: &file[..0],
                depth: 0,
                starts: [0; 15],
            },
        },
    }
}

// An opening's number: 0 where it is accepted, else its refusal's.
pub fn opening_number(opening: Opening<'_>) -> u32
    ensures { result ≡ refusal_number opening.entry.refusal }
{
    match opening.refusal {
        None => 0,
        Some(refusal) => refusal.number(),
    }
}

// A question on an opened scene: refused by 6, then as packed voxel.
pub fn ask<'a>(scene: Opened<'a>, v: Point) -> Result<Found, Refusal>
    ensures { AskPromise scene.entry.bytes.now scene.entry.depth scene.entry.starts (at v) result }
{
    ask_bytes(scene.bytes, scene.depth, scene.starts, v)
}

// A question on the scene that a file opens to, refused or not. Its parameters are plain: a caller's proof needs no walk.
pub fn open_and_ask(file: &[u8], v: Point) -> Result<Found, Refusal>
    ensures { outcome (found result) [] ≡ asked_of (open_outcome file.now) (at v) }
{
    let opening = open(file);
    ask(opening.scene, v)
}
