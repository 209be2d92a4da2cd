//! What the storage thread asks for the moment.

ghost use Rattle.std.specs.Prelude.{◌≡◌, ◌++◌, [], ◌∷◌, Some, IfSome, IsSome, option_map};
ghost use Rattle.proto.specs.ClockAnswers.{GivenAnswer, IsRead};

use crate::system_clock::ClockAnswer;
use crate::trace::{Noted, Trace};
use std::marker::Model;
use std::time::Instant;

/// A clock, by the list of its answers, if it tells them.
pub trait Clock: Drop {
    ghost use Rattle.std.specs.Prelude.{ℕ, List, Option};
    ghost use Rattle.proto.specs.declared.logged_clock.ClockStart.{ClockStart};

    /// The answers that it gave; None if it doesn't tell them.
    ghost told: { Self → Option (List ℕ) };

    /// Whether the second clock is what the first became, once some answers were given. A clock may
    /// say here what its answers are.
    ghost leads_to: { Self → Self → Type 0 };

    /// The start from which it counts by the system's clock; None if it is another clock.
    ghost start: { Self → Option ClockStart };

    /// The moment in seconds. It may be any number, also one below the last.
    fn now(&mut self) -> ClockAnswer
        ensures told { told self.new ≡ option_map (λ answers. answers ++ result.seconds ∷ []) (told self.old) }
        ensures start { start self.new ≡ start self.old }
        ensures read { IfSome (start self.old) (λ from. IsRead from result) }
        ensures leads { leads_to self.old self.new };

    ghost leads_reflexive: { (clock : Self) → leads_to clock clock };

    ghost leads_transitive: { (first second third : Self) → leads_to first second → leads_to second third
        → leads_to first third };
}

/// What a clock has answered since it was wrapped up here, for clauses alone. It has no bytes, and
/// only `AskedClock` adds to it.
#[derive(Drop)]
pub struct ClockAnswers {
    answers: Trace<ClockAnswer>,
}

impl Model for ClockAnswers {
    ghost use Rattle.std.specs.Prelude.{List};
    ghost use Rattle.proto.specs.ClockAnswers.{GivenAnswer};

    ghost Value = { List GivenAnswer };

    ghost view = { λ a. a.answers.items };
}

impl ClockAnswers {
    /// Before the first answer.
    pub fn none() -> ClockAnswers
        ensures { result ≡ [] }
    {
        ClockAnswers {
            answers: Trace::new(),
        }
    }
}

impl Noted<ClockAnswer> for ClockAnswer {
    ghost noted = { λ answer. answer ∷ [] };
}

impl Noted<ClockAnswer> for ClockAnswers {
    ghost noted = { λ a. a };
}

/// A clock that is asked through `now` alone, with the list of its answers.
#[derive(Drop)]
pub struct AskedClock<C: Clock> {
    pub(crate) clock: C,
    pub(crate) answers: ClockAnswers,
    /// When the monotonic clock was read last, if it was read. No clause speaks of it.
    pub at: Option<Instant>,
}

impl<C: Clock> AskedClock<C> {
    /// The system's clock wasn't asked before, so that no answer of it was kept from then.
    pub fn new(clock: C) -> AskedClock<C>
        requires unasked { IsSome (C.start clock) → C.told clock ≡ Some [] }
        ensures clock { result.clock ≡ clock }
        ensures answers { result.answers ≡ [] }
    {
        AskedClock {
            clock,
            answers: ClockAnswers::none(),
            at: None,
        }
    }

    /// Asks the clock once.
    pub fn now(&mut self) -> u64
        ensures asked { (answer : GivenAnswer) × (result ≡ answer.seconds)
            × (self.new.answers ≡ self.old.answers ++ answer ∷ [])
            × (C.told self.new.clock ≡ option_map
            (λ answers. answers ++ answer.seconds ∷ []) (C.told self.old.clock))
            × IfSome (C.start self.old.clock) (λ from. IsRead from answer) }
        ensures start { C.start self.new.clock ≡ C.start self.old.clock }
        ensures leads { C.leads_to self.old.clock self.new.clock }
    {
        let answer = self.clock.now();
        self.answers.answers.note_as(&answer);
        self.at = answer.at;
        answer.seconds
    }

    /// Its answers so far.
    pub fn answers(&self) -> ClockAnswers
        ensures { result ≡ self.now.answers }
    {
        let mut answers = Trace::new();
        answers.note_as(&self.answers);
        ClockAnswers { answers }
    }

    pub fn into_clock(self) -> C
        ensures { result ≡ self.clock }
    {
        self.clock
    }
}
