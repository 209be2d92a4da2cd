//! A port of the tests' own, which plays a list of steps and keeps its records.

ghost use Rattle.std.specs.Prelude.{◌≡◌, ◌==◌, ◌++◌, ◌∷◌, [], true, false, ℕ, if◌then◌else◌, None};
ghost use Rattle.std.specs.Option.{option_map_or};
ghost use Rattle.worker_port.specs.declared.events.PortRecord.TheVariants.{EndOfInput};
ghost use Rattle.worker_port.specs.Ports.{is_in, is_open};

use crate::workers::records::{has_ended_in, has_input_ended_in, is_new_in, is_open_in};
use bytes::Bytes;
use exchange::{ExchangeName, WorkerLane};
use proto::Geometry;
use std::alloc::Global;
use std::collections::VecDeque;
use std::process::Abort;
use worker_port::{Gone, MAX_PIECE, Port, PortEvent, PortRecord, ToldHistory};

/// What a port plays.
#[derive(Drop)]
pub(crate) enum Step {
    Open(u64),
    Send(u64, Bytes),
    EndOfInput(u64),
    Gone(u64),
}

/// How a port takes what is given. Gives are counted for session 1 alone.
#[derive(Clone, Copy, Drop)]
pub(crate) struct Manners {
    /// The most bytes of each give that are accepted.
    pub(crate) accept: usize,
    /// The number of gives that accept nothing.
    pub(crate) slow_gives: u64,
    /// At this give the peer has gone; none where it is 0.
    pub(crate) gone_at: u64,
}

/// Plays its steps in order, but for those that may not come, and keeps its records.
#[derive(Drop)]
pub(crate) struct RecordingPort<R: Abort + Drop> {
    rt: R,
    alloc: Global,
    pub(crate) geometry: Geometry,
    pub(crate) records: Vec<PortRecord>,
    /// The exchange of its worker's end.
    pub(crate) exchange: ExchangeName,
    /// By which bytes were given last.
    pub(crate) history: Option<ToldHistory>,
    steps: VecDeque<Step>,
    manners: Manners,
    gives: u64,
    paused: Option<u64>,
    pub(crate) pauses: u64,
    pub(crate) resumes: u64,
}

impl<R: Abort + Drop> RecordingPort<R> {
    pub(crate) fn new(
        rt: R,
        alloc: Global,
        geometry: Geometry,
        steps: VecDeque<Step>,
        manners: Manners,
        exchange: ExchangeName,
    ) -> RecordingPort<R>
        ensures { (result.records.items ≡ []) × (result.history ≡ None) × (result.exchange ≡ exchange)
            × (result.geometry ≡ geometry) }
    {
        RecordingPort {
            rt,
            alloc,
            geometry,
            records: Vec::new(alloc),
            exchange,
            history: None,
            steps,
            manners,
            gives: 0,
            paused: None,
            pauses: 0,
            resumes: 0,
        }
    }

    /// How many gives will still accept nothing.
    pub(crate) fn slow_gives_left(&self) -> u64 {
        self.manners.slow_gives
    }

    // A session that has ended is paused no more.
    fn forget_pause(&mut self, session: u64)
        ensures rest { self.new ≡ record self.old { paused = self.new.paused } }
        ensures forgets { (s : ℕ) → option_map_or (λ t. t == s) self.new.paused false
            ≡ (if s == session then false else option_map_or (λ t. t == s) self.old.paused false) }
    {
        if self.paused == Some(session) {
            self.paused = None;
        }
    }

    // Whether the next step has to wait until its session is resumed.
    fn is_paused(&self) -> bool {
        match self.steps.front() {
            Some(Step::Send(session, _) | Step::EndOfInput(session)) => {
                self.paused == Some(*session)
            }
            _ => false,
        }
    }

    // Whether input of the session may be told.
    fn may_read(&self, session: u64) -> bool
        ensures open { result ≡ true → is_open session self.now.records.items ≡ true }
        ensures resumed { result ≡ true → option_map_or (λ t. t == session) self.now.paused false ≡ false }
        ensures going_on { result ≡ true → is_in (EndOfInput session) self.now.records.items ≡ false }
    {
        self.paused != Some(session)
            && is_open_in(self.records.as_slice(), session)
            && !has_input_ended_in(self.records.as_slice(), session)
    }

    fn note(&mut self, entry: PortRecord)
        ensures rest { self.new ≡ record self.old { records = self.new.records } }
        ensures records { self.new.records.items ≡ self.old.records.items ++ entry ∷ [] }
    {
        self.records.push(entry).expect(&self.rt, "memory");
    }
}

impl<R: Abort + Drop> Port for RecordingPort<R> {
    ghost use Rattle.std.specs.Prelude.{Some, false, ◌==◌};
    ghost use Rattle.proto.specs.declared.dialect.Dialect.TheVariants.{Strict};
    ghost use Rattle.std.specs.Option.{option_map_or};
    ghost use Rattle.worker_port.specs.Ports.{told_last};
    ghost use Rattle.worker_port.specs.Giving.{by_any_clock};

    ghost told = { λ p. Some (record {
      events = p.records.items;
      paused = λ s. option_map_or (λ t. t == s) p.paused false;
      terms = by_any_clock p.geometry;
      dialect = Strict;
      worker = 0;
      exchange = p.exchange;
      history = told_last p.history;
    }) };

    ghost leads_to = { λ _ _. Unit {0} };

    fn next(&mut self, _may_wait: bool, _sender: &WorkerLane) -> PortEvent {
        if has_ended_in(self.records.as_slice()) || self.is_paused() {
            return PortEvent::Idle;
        }
        match self.steps.pop_front() {
            Some(Step::Open(session)) => {
                if !is_new_in(self.records.as_slice(), session) {
                    return PortEvent::Idle;
                }
                self.note(PortRecord::Opened(session));
                PortEvent::Opened(session)
            }
            Some(Step::Send(session, bytes)) => {
                if bytes.len() > MAX_PIECE || !self.may_read(session) {
                    return PortEvent::Idle;
                }
                let copy = bytes.clone().expect(&self.rt, "memory");
                self.note(PortRecord::Data(session, copy));
                PortEvent::Data(session, bytes)
            }
            Some(Step::EndOfInput(session)) => {
                if !self.may_read(session) {
                    return PortEvent::Idle;
                }
                self.note(PortRecord::EndOfInput(session));
                PortEvent::EndOfInput(session)
            }
            Some(Step::Gone(session)) => {
                if !is_open_in(self.records.as_slice(), session) {
                    return PortEvent::Idle;
                }
                self.forget_pause(session);
                self.note(PortRecord::Gone(session));
                PortEvent::Gone(session)
            }
            None => {
                self.note(PortRecord::Ended);
                PortEvent::Ended
            }
        }
    }

    fn give(&mut self, session: u64, bytes: &[u8], history: ToldHistory) -> Result<usize, Gone> {
        self.history = Some(history);
        if self.manners.slow_gives > 0 {
            self.manners.slow_gives -= 1;
            return Ok(0);
        }
        if session == 1 {
            self.gives = self.gives.saturating_add(1);
            if self.gives == self.manners.gone_at {
                self.forget_pause(session);
                self.note(PortRecord::Gone(session));
                return Err(Gone);
            }
        }
        let accepted = bytes.len().min(self.manners.accept);
        if accepted > 0 {
            let copy = Bytes::copy_from_slice(self.alloc, &bytes[..accepted]).expect(
                &self.rt, "memory",
            );
            self.note(PortRecord::Accepted(session, copy));
        }
        Ok(accepted)
    }

    fn pause(&mut self, session: u64) {
        assert_eq!(self.rt; self.paused, None);
        self.paused = Some(session);
        self.pauses = self.pauses.saturating_add(1);
    }

    fn resume(&mut self, session: u64) {
        assert_eq!(self.rt; self.paused, Some(session));
        self.paused = None;
        self.resumes = self.resumes.saturating_add(1);
    }

    fn shut(&mut self, session: u64) {
        self.forget_pause(session);
        self.note(PortRecord::Shut(session));
    }

    ghost leads_reflexive = { λ _. tt };

    ghost leads_transitive = { λ _ _ _ _ _. tt };
}
