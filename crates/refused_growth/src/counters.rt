//! How often the ports and the clock of a run are asked, and that clock. They take no memory.

use proto::{Clock, ClockAnswer};
use std::sync::atomic::{AtomicU64, Ordering};

/// How often the ports and the clock of a run were asked.
#[derive(Drop)]
pub struct Counters {
    pub events: AtomicU64,
    moments: AtomicU64,
}

impl Counters {
    pub fn new() -> Counters {
        Counters {
            events: AtomicU64::new(0),
            moments: AtomicU64::new(0),
        }
    }

    /// Whether no event was taken and no moment asked.
    pub fn are_zero(&self) -> bool {
        self.events.load(Ordering::SeqCst) == 0 && self.moments.load(Ordering::SeqCst) == 0
    }
}

/// It is 1000 at all times.
#[derive(Drop)]
pub struct SteadyClock<'a> {
    pub counters: &'a Counters,
}

impl Clock for SteadyClock<'_> {
    ghost use Rattle.std.specs.Prelude.{⊤, None};

    ghost told = { λ _. None };

    ghost leads_to = { λ _ _. ⊤ };

    ghost start = { λ _. None };

    ghost leads_reflexive = { λ _. tt };

    ghost leads_transitive = { λ _ _ _ _ _. tt };

    fn now(&mut self) -> ClockAnswer {
        self.counters.moments.fetch_add(1, Ordering::SeqCst);
        ClockAnswer::given(1000)
    }
}
