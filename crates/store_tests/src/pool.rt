//! The pool of segments: its table of buckets, its layout, each public call once, and runs of
//! writes whose survivors were worked out by hand.

mod buckets;
mod calls;
mod deadlines;
mod layout;
mod rows;
mod run;
mod stock;
mod walks;
mod writes;
