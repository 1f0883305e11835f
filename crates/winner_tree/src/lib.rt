//! A tree of winners: it names the leaf that has the least key.
//!
//! A tournament tree (Knuth, The Art of Computer Programming 3, 5.4.1, 1973) over a fixed number of leaves. A
//! change of one leaf plays the matches on its way to the root again, up to the first whose outcome stands.
#![tactic(auto)]

pub mod key;
mod replay;
pub mod tree;

pub use key::Key;
pub use tree::Tree;
