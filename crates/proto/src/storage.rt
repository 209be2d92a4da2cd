//! Which threads execute requests.

/// Which threads execute requests. What a client is answered does not depend on it.
#[derive(Clone, Copy, Debug, PartialEq, Eq)]
pub enum Storage {
    /// The storage thread alone.
    Thread,
    /// The worker that has posted them, unless another thread executes at that moment, which then
    /// executes them too.
    Workers,
}
