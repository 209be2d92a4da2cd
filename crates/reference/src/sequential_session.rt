//! One session of a run, and what executes its requests.

ghost use Rattle.std.specs.Prelude.{◌⊎◌, ◌≡◌, ℕ, ◌≤◌, ◌++◌, [], false, length, take, drop, IfOk, OnOk};
ghost use Rattle.proto.specs.declared.dialect.Dialect.TheVariants.{Strict};
ghost use Rattle.proto.specs.Grammar.{SpellsNone};
ghost use Rattle.proto.specs.History.{max_moment};
ghost use Rattle.reference.specs.Execution.{Execution, Executes, AnswersBehind};
ghost use Rattle.reference.specs.SequentialSessions.{AnswersNext, AnswersAll, IsNewSession, Feeds};

use engine::{MAX_MOMENT, StorageEngine, carry_out};
use proto::{Message, Next, NoMemory, Reply, Request, next_message, show};
use script::ScriptClock;
use std::alloc::Global;
use std::marker::Model;

/// A store, and the clock that tells its moments.
#[derive(Drop)]
pub struct Executor<E: StorageEngine + Drop> {
    engine: E,
    clock: ScriptClock,
}

impl<E: StorageEngine + Drop> Model for Executor<E> {
    ghost use Rattle.std.specs.Prelude.{◌≤◌};
    ghost use Rattle.proto.specs.History.{max_moment};
    ghost use Rattle.reference.specs.Execution.{Execution, execution_code};

    ghost Value = { Execution };

    ghost coded = { execution_code };

    ghost view = { λ x. record {
      sizes = E.sizes x.engine;
      cache = E.cache x.engine;
      moment = E.moment x.engine;
      clock = x.clock;
    } };

    ghost invariant = { λ x. E.moment x.engine ≤ max_moment };
}

/// The reply to a request, to which the store replied so. Nothing is counted here.
fn uncounted(request: &Request, reply: Reply) -> Reply
    ensures same { (reply ≡ result) ⊎ (request.now ≡ Request.Stats) }
    ensures refused { request.now ≡ Request.Stats → result ≡ Reply.NoMemory }
{
    match request {
        Request::Stats => Reply::NoMemory,
        _ => reply,
    }
}

impl<E: StorageEngine + Drop> Executor<E> {
    pub fn new(engine: E, clock: ScriptClock) -> Self
        requires { E.moment engine ≤ max_moment }
        ensures { result ≡ record {
          sizes = E.sizes engine;
          cache = E.cache engine;
          moment = E.moment engine;
          clock = clock;
        } }
    {
        Executor { engine, clock }
    }

    /// Executes the request at the clock's next moment.
    fn execute(&mut self, request: &mut Request) -> Reply
        ensures executes { (t : ℕ) × Executes self.old t request.old result self.new }
        ensures same { request.new ≡ request.old }
    {
        let told = self.clock.now().min(MAX_MOMENT);
        let moment = self.engine.last_moment().max(told);
        let stored = carry_out(&mut self.engine, moment, request);
        uncounted(request, stored)
    }

    /// Executes the message at the clock's next moment, if it is a request, and appends its answer.
    pub fn answer(&mut self, message: &mut Message, output: &mut Vec<u8>) -> Result<(), NoMemory>
        ensures answers { OnOk result (AnswersBehind self.old message.old self.new output.old.items output.new.items) }
        ensures same { message.new ≡ message.old }
    {
        match message {
            Message::Ask(request, _) => {
                let reply = self.execute(request);
                show(message, Some(&reply), output)
            }
            _ => show(message, None, output),
        }
    }
}

/// Reads and answers the message with which the bytes begin, if there is one. It says how many
/// bytes it has, and whether it ends the session.
fn answer_next<E: StorageEngine + Drop>(
    alloc: Global,
    executor: &mut Executor<E>,
    unread: &[u8],
    output: &mut Vec<u8>,
) -> Result<Option<(usize, bool)>, NoMemory>
    ensures { IfOk result (λ found. AnswersNext executor.old unread.now found executor.new output.old.items
        output.new.items) }
{
    match next_message(alloc, unread)? {
        Next::More => Ok(None),
        Next::Found(mut message, length) => {
            let answered = executor.answer(&mut message, output);
            let ended = matches!(message, Message::Quit | Message::Fatal(_));
            drop(message);
            answered?;
            Ok(Some((length, ended)))
        }
    }
}

/// Reads and answers the messages with which the bytes begin. It says how many bytes they have, and
/// whether the last one ended the session.
fn answer_all<E: StorageEngine + Drop>(
    alloc: Global,
    executor: &mut Executor<E>,
    unread: &[u8],
    output: &mut Vec<u8>,
) -> Result<(usize, bool), NoMemory>
    ensures answered { IfOk result (λ r. AnswersAll executor.old unread.now r.0 r.1 executor.new output.old.items
        output.new.items) }
    ensures within { IfOk result (λ r. r.0 ≤ length unread.now) }
    ensures more { IfOk result (λ r. r.1 ≡ false → SpellsNone Strict (drop r.0 unread.now)) }
{
    let mut taken = 0;
    while let Some((length, ended)) = answer_next(alloc, executor, &unread[taken..], output)? {
        taken += length;
        if ended {
            return Ok((taken, true));
        }
    }
    Ok((taken, false))
}

/// A session: what it sent and wasn't read yet, and what it was answered.
#[derive(Drop)]
pub struct SequentialSession {
    pub number: u64,
    pub unread: Vec<u8>,
    pub output: Vec<u8>,
    /// Whether it has quit or sent a fatal line.
    pub ended: bool,
}

impl SequentialSession {
    pub fn new(alloc: Global, number: u64) -> SequentialSession
        ensures { IsNewSession number result }
    {
        SequentialSession {
            number,
            unread: Vec::new(alloc),
            output: Vec::new(alloc),
            ended: false,
        }
    }

    /// Takes further bytes of the session, and executes and answers what is whole now.
    pub fn feed<E: StorageEngine + Drop>(
        &mut self,
        alloc: Global,
        executor: &mut Executor<E>,
        piece: &[u8],
    ) -> Result<(), NoMemory>
        ensures { OnOk result (Feeds self.old executor.old piece.now self.new executor.new) }
    {
        if self.ended {
            return Ok(());
        }
        self.unread.extend_from_slice(piece)?;
        let (taken, ended) = answer_all(alloc, executor, self.unread.as_slice(), &mut self.output)?;
        self.ended = ended;
        if taken > 0 {
            self.unread = Vec::from_slice(alloc, &self.unread[taken..])?;
        }
        Ok(())
    }
}
