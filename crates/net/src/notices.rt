//! What a listener tells whoever runs it, and asks of them.

use crate::closings::Closing;

/// For how many microseconds processors ran the process, and the system for it.
#[derive(Clone, Copy, Default)]
pub struct ProcessorTimes {
    pub user: u64,
    pub system: u64,
}

/// Hears what is amiss while a listener runs, of each kind at most once a minute.
pub trait Notices {
    /// No worker has room: this many streams wait, and this many were closed so far.
    fn workers_are_full(&mut self, waiting: usize, closed: u64);

    /// Streams can't be accepted, as descriptors or memory are missing: this often so far.
    fn accepts_fail(&mut self, failed: u64);

    /// A connection is closed, as this many more were for the same reason since the last was told.
    /// Of each reason one is told in a second at most.
    fn connection_closed(&mut self, _closing: &Closing, _more: u64) {}

    /// The processor times of the process so far, if they are known. The listener asks at most ten
    /// times a second.
    fn processor_times(&mut self) -> Option<ProcessorTimes> {
        None
    }
}
