//! A clock whose answers are known beforehand, and the same for a group, which tells them.

ghost use Rattle.std.specs.Prelude.{◌≡◌, ℕ, ◌+◌, ◌++◌, [], ◌∷◌, Option, None, ⊤};
ghost use Rattle.proto.specs.declared.logged_clock.ClockStart.{ClockStart};
ghost use Rattle.script.specs.Clocks.{clock_at, answer_of};

use engine::Clock;
use proto::{ClockAnswer, Trace};
use std::marker::Model;

/// A clock that goes on by the same number of seconds with each answer.
#[derive(Clone, Copy)]
pub struct ScriptClock {
    next: u64,
    tick: u64,
}

impl Model for ScriptClock {
    ghost use Rattle.script.specs.Clocks.{ClockState, clock_at};

    ghost Value = { ClockState };

    ghost view = { λ c. clock_at c.next c.tick };

    ghost inverse = { λ c. record { next = c.next; tick = c.tick } };
}

impl ScriptClock {
    /// The first answer is `now`, and each further one is `tick` more, up to the greatest number.
    pub fn new(now: u64, tick: u64) -> ScriptClock
        ensures { result ≡ clock_at now tick }
    {
        ScriptClock { next: now, tick }
    }

    /// The next answer.
    pub fn now(&mut self) -> u64
        ensures answer { result ≡ answer_of self.old 0 }
        ensures later { (n : ℕ) → answer_of self.new n ≡ answer_of self.old (n + 1) }
    {
        let answer = self.next;
        self.next = self.next.saturating_add(self.tick);
        answer
    }
}

/// A script's clock that tells the list of its readings. The list takes no memory.
#[derive(Drop)]
pub struct RecordingClock {
    clock: ScriptClock,
    answers: Trace<u64>,
}

impl RecordingClock {
    /// It gave no answer yet.
    pub fn new(clock: ScriptClock) -> RecordingClock
        ensures clock { result.clock ≡ clock }
        ensures answers { result.answers.items ≡ [] }
    {
        RecordingClock {
            clock,
            answers: Trace::new(),
        }
    }

    /// The next answer of the script's clock, which is noted.
    fn noted_answer(&mut self) -> u64
        ensures noted { self.new.answers.items ≡ self.old.answers.items ++ result ∷ [] }
        ensures next { result ≡ answer_of self.old.clock 0 }
        ensures later { (n : ℕ) → answer_of self.new.clock n ≡ answer_of self.old.clock (n + 1) }
    {
        let answer = self.clock.now();
        self.answers.note(&[answer]);
        answer
    }
}

impl Clock for RecordingClock {
    ghost use Rattle.std.specs.Prelude.{Some, None};
    ghost use Rattle.script.specs.ClockLeading.{GivesAnswers, gives_none, gives_more};

    ghost told = { λ clock. Some clock.answers.items };

    ghost leads_to = { GivesAnswers };

    ghost start = { λ _. None };

    ghost leads_reflexive = { gives_none };

    ghost leads_transitive = { gives_more };

    /// The next answer of the script's clock.
    fn now(&mut self) -> ClockAnswer
        ensures told { Some self.new.answers.items ≡ Some (self.old.answers.items ++ result.seconds ∷ []) }
        ensures start { ◌≡◌ {A = Option ClockStart} None None }
        ensures read { ⊤ }
        ensures leads { GivesAnswers self.old self.new }
        ensures next { result.seconds ≡ answer_of self.old.clock 0 }
        ensures later { (n : ℕ) → answer_of self.new.clock n ≡ answer_of self.old.clock (n + 1) }
    {
        ClockAnswer::given(self.noted_answer())
    }
}
