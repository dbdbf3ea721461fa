#![tactic(auto)]

// The numbers of document 01 that more than one crate needs, each under its one name. What a number means to a contract is said where a function
// uses it; here is no function.

// A depth is 2 to 16.
pub const LEAST_DEPTH: u32 = 2;

pub const DEEPEST: u32 = 16;

// A leaf's height: list k has the cells of height k + 2.
pub const LEAF_HEIGHT: u32 = 2;

// A cell has eight children, and eight mirrors.
pub const CHILDREN: u32 = 8;

pub const MIRRORS: u32 = 8;

// An outline and a packed file: the version byte, and the bytes before an outline's root record or a packed file's sizes.
pub const OUTLINE_VERSION: u8 = 0x11;

pub const OUTLINE_HEAD: usize = 6;

pub const PACKED_VERSION: u8 = 0x22;

pub const PACKED_HEAD: usize = 7;

// In both: where the four bytes of the length stand, and the depth; in a packed file the root's mirror, or the mark of an empty scene.
pub const LENGTH_POSITION: usize = 1;

pub const LENGTH_BYTES: usize = 4;

pub const DEPTH_POSITION: usize = 5;

pub const MIRROR_POSITION: usize = 6;

pub const EMPTY_MARK: u8 = 8;

// The bytes of a leaf in a file, and of a half-word of a packed record.
pub const LEAF_BYTES: usize = 8;

pub const HALF_BYTES: usize = 2;

// The farthest place of a 2-byte pointer; the places that a pointer of 2 and one of 4 bytes can name, above which its mirror bits stand.
pub const FARTHEST_SHORT: u32 = 8191;

pub const SHORT_PLACES: u32 = 8192;

pub const LONG_PLACES: u32 = 536870912;

// The deepest scene that the headset has room for (document 02, request 12).
pub const HEADSET_DEPTH: u32 = 10;
