// The lists of a file whose header is read, leaves first, and where each lies.
ghost use Rattle.std.specs.Prelude.{◌≡◌, false, ◌≤◌};
ghost use Rattle.paper.specs.Packed.{top_of, is_empty, list_at};
ghost use Rattle.paper.specs.Runs.{Bytes};
ghost use Rattle.packed_lists.specs.Header.{Opens};
ghost use Rattle.packed_lists.specs.Ends.{Listed};
ghost use Rattle.proper_marks.specs.Places.{Lies};

use packed_lists::{list_end, starts};
use std::ops::Range;

// A file of a scene that is not empty, where each of its lists starts, and the number of the top list.
#[derive(Drop)]
pub struct Lists<'a> {
    pub file: &'a [u8],
    pub starts: [u32; 15],
    pub top: u32,
    ghost bytes: { Bytes file.now },
    ghost listed: { Listed file.now starts },
    ghost top_is: { top ≡ top_of file.now },
}

impl<'a> Lists<'a> {
    // Those of a file with its top list's number.
    pub fn of(file: &'a [u8], top: u32) -> Lists<'a>
        requires opens { Opens file.now }
        requires not_empty { is_empty file.now ≡ false }
        requires top_number { top ≡ top_of file.now }
        ensures { (result.file.now ≡ file.now) × (result.top ≡ top) }
    {
        let starts = starts(file);
        Lists { file, starts, top }
    }

    // Where list k lies in the file.
    pub fn range(&self, k: u32) -> Range<usize>
        requires { k ≤ self.now.top }
        ensures { Lies self.now.file.now k result.start result.end }
    {
        let start = self.starts[k as usize] as usize;
        start..list_end(self.starts, self.file.len(), k)
    }

    // List k.
    pub fn list(&self, k: u32) -> &'a [u8]
        requires { k ≤ self.now.top }
        ensures { result.now ≡ list_at self.now.file.now k }
    {
        &self.file[self.range(k)]
    }
}
