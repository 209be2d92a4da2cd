//! Whole groups, over the segmented store.

mod eighths;
mod keeping_port;
mod meeting;
mod pace;
mod rows;
mod running;
mod second_gate;
mod told_early;
