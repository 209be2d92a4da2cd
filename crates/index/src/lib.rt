//! The index of a segmented store: a table in which a key's place is found by the key's hash. Its
//! memory is taken once. It stores no keys; they are compared where they stand, in the segments.
#![tactic(auto)]

mod backward_shift;
mod growing;
mod hash;
mod index;
mod laws;
mod layout;
mod search;
mod slots;

pub use growing::slots_for;
pub use index::{Entry, Index};
pub use layout::layout_for;
