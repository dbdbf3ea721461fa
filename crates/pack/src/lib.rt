#![tactic(auto)]

// A scene written as a packed file: prepared (its lists ordered and placed in scratch, the file measured from their
// sizes), then written; for the headset, where the scene meets its profile.
mod call; // a scene's file, and the calls

pub use call::{headset_pack, pack};
