//! What may hold a worker's requests back, and what never does.

ghost use Rattle.std.specs.Prelude.{◌≡◌, true};

/// May hold a request back, and learns of each answer.
pub trait Gate {
    /// Asked before each try to post the request of this number.
    fn may_post(&self, worker: usize, number: u64) -> bool;

    /// Told once for each answer that was taken.
    fn answered(&self, worker: usize, number: u64);
}

/// Lets every request pass.
#[derive(Clone, Copy)]
pub struct OpenGate;

impl Gate for OpenGate {
    fn may_post(&self, _worker: usize, _number: u64) -> bool
        ensures { result ≡ true }
    {
        true
    }

    fn answered(&self, _worker: usize, _number: u64) {}
}
