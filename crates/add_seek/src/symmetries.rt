// Matching by symmetries. A cell's symmetry has 8 bits, bit t set where it matches itself under mirror t; with the symmetries of a
// cell's children, matching looks at no cell below them. A cell matches another under t exactly where it
// matches the other so mirrored under 0, and a leaf matches itself under t where it is its own image.
ghost use Rattle.std.specs.Prelude.{◌≡◌, not, ◌<◌, eqb};
ghost use Rattle.paper.specs.Leaf.{mirror_leaf};
ghost use Rattle.paper.specs.Match.{pointer_match};
ghost use Rattle.laws.specs.Symmetries.{symmetry_for, marked, symmetry_match};
ghost use Rattle.laws.specs.Chains.{NamesCells};
ghost use Rattle.add_seek.specs.Sought.{leaf_images};

use leaf::symmetry_of;
use limits::CHILDREN;
use store_pointers::{cell_number, mirrored_pointer, numbers_differ, tag};

// The symmetry of a leaf, from its eight images.
pub fn image_symmetry(leaf: u64, images: [u64; 8]) -> u8
    requires { images ≡ leaf_images leaf }
    ensures { result ≡ symmetry_for (λ t. eqb leaf (mirror_leaf t leaf)) }
{
    symmetry_of(
        |t|
            requires below { t < 8 }
            requires given { images ≡ leaf_images leaf }
            ensures { result ≡ eqb leaf (mirror_leaf t leaf) }
        { leaf == images[t as usize] },
    )
}

// Whether two pointers don't match under mirror 0, `symmetry` being that of the cell that p names.
fn pointers_differ(p: u32, q: u32, symmetry: u8) -> bool
    ensures { result ≡ not (pointer_match (λ n u. marked symmetry u) 0 p q) }
{
    if p == 0 {
        return q != 0;
    }
    if q == 0 {
        return true;
    }
    if cell_number(p) != cell_number(q) {
        return true;
    }
    (symmetry >> (tag(p) ^ tag(q))) % 2 != 1
}

// Whether a cell matches another under a mirror, `symmetries` being those of the cell's children: its pointers against those of the other so mirrored.
pub fn same_cell(cell: [u32; 8], symmetries: [u8; 8], mirror: u32, other: [u32; 8]) -> bool
    requires mirror_bound { mirror < 8 }
    requires names_cells { NamesCells other }
    ensures { result ≡ symmetry_match symmetries cell other mirror }
{
    for i in (0..CHILDREN).rev() {
        let at = i as usize;
        let from = (i ^ mirror) as usize;
        let q = mirrored_pointer(other[from], mirror);
        if pointers_differ(cell[at], q, symmetries[at]) {
            return false;
        }
    }
    true
}

// Whether a cell matches itself under a mirror. Most cells that don't, differ in the first pointer: it is looked at before the arrays are handed on.
fn matches_itself(cell: [u32; 8], symmetries: [u8; 8], mirror: u32) -> bool
    requires mirror_bound { mirror < 8 }
    requires names_cells { NamesCells cell }
    ensures { result ≡ symmetry_match symmetries cell cell mirror }
{
    if numbers_differ(cell[0], cell[mirror as usize]) {
        return false;
    }
    same_cell(cell, symmetries, mirror, cell)
}

// The symmetry of a cell, from those of its children.
pub fn cell_symmetry(cell: [u32; 8], symmetries: [u8; 8]) -> u8
    requires { NamesCells cell }
    ensures { result ≡ symmetry_for (symmetry_match symmetries cell cell) }
{
    symmetry_of(|mirror| matches_itself(cell, symmetries, mirror))
}
