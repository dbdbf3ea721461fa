#![tactic(auto)]

// Opening a packed file, over a plain slice: its refusal, or the numbers of its header.
ghost use Rattle.std.specs.Prelude.{◌≡◌};
ghost use Rattle.opened_head.specs.Opens.{header_told, open_told};

use file_head::{depth, test_head};
use limits::{PACKED_HEAD, PACKED_VERSION};
use packed_lists::read_lists;
use paper::Refusal;

// What the header of a packed file says: the depth, and where each list starts, leaves first.
#[derive(Clone, Copy)]
pub struct Header {
    pub depth: u32,
    pub starts: [u32; 15],
}

// The numbers of an opening; refused by 3, 4, 5, 6 in this order.
pub fn read_header(file: &[u8]) -> Result<Header, Refusal>
    ensures { header_told result ≡ open_told file.now }
{
    test_head(file, PACKED_VERSION, PACKED_HEAD)?;
    let mut begins = [0u32; 15];
    read_lists(file, &mut begins)?;
    Ok(Header {
        depth: depth(file),
        starts: begins,
    })
}
