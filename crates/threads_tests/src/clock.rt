//! A clock that stands still, and one that counts.

use proto::{Clock, ClockAnswer};

/// It is 1000 at all times.
#[derive(Drop)]
pub(crate) struct SteadyClock;

impl Clock for SteadyClock {
    ghost use Rattle.std.specs.Prelude.{⊤, None};

    ghost told = { λ _. None };

    ghost leads_to = { λ _ _. ⊤ };

    ghost start = { λ _. None };

    ghost leads_reflexive = { λ _. tt };

    ghost leads_transitive = { λ _ _ _ _ _. tt };

    fn now(&mut self) -> ClockAnswer {
        ClockAnswer::given(1000)
    }
}

/// Answers 1, 2, 3 and so on.
#[derive(Drop)]
pub(crate) struct CountingClock {
    pub(crate) last: u64,
}

impl Clock for CountingClock {
    ghost use Rattle.std.specs.Prelude.{⊤, None};

    ghost told = { λ _. None };

    ghost leads_to = { λ _ _. ⊤ };

    ghost start = { λ _. None };

    ghost leads_reflexive = { λ _. tt };

    ghost leads_transitive = { λ _ _ _ _ _. tt };

    fn now(&mut self) -> ClockAnswer {
        self.last = self.last.saturating_add(1);
        ClockAnswer::given(self.last)
    }
}
