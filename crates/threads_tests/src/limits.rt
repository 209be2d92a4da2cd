//! At the limits: where a book stops, that large runs find memory where there is some, how many
//! requests are on their way while much is unfinished, which session is shut where too much output
//! waits, and what a port plays while a session is paused.

mod book;
mod pause;
mod runs;
mod talk;
mod unfinished;
