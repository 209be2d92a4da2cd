//! A port that plays a script.

ghost use Rattle.std.specs.Prelude.{◌≡◌, ℕ, ◌++◌, [], ◌∷◌, ◌≤◌, ◌↔◌, length, true, false, IfOk, option_map, Some};
ghost use Rattle.script.specs.Events.{IsPlayable};
ghost use Rattle.worker_port.specs.declared.events.PortRecord.TheVariants.{Shut};
ghost use Rattle.worker_port.specs.Ports.{PortTrace, then_told, with_pause, event_records, then_gave, MayCome, given};
ghost use Rattle.worker_port.specs.Giving.{MayBeGiven};
ghost use Rattle.script.specs.PortEvents.{is_playable};
ghost use Rattle.script.specs.PortSessions.{numbers};
ghost use Rattle.script.specs.Records.{opened_sessions};
ghost use Rattle.script.specs.Following.{IsPlayed};
ghost use Rattle.script.specs.States.{trace_told, PlaysOn, Plays, Gives, PortGoesOn, CountsGive, SetsPaused};
ghost use Rattle.script.specs.States.{DropsSession, IsNewPort, IsOpenWhereTold, with_faults};

use crate::ScriptEvent;
use crate::player::Player;
use crate::sessions::{ScriptSession, Stage};
use exchange::{ExchangeName, WorkerLane};
use proto::{Dialect, Geometry};
use std::alloc::Global;
use std::marker::Model;
use worker_port::{Gone, Port, PortEvent, PortNote, ToldHistory};

/// Plays the events of a script in order, and keeps what each session is given.
///
/// It tells where each event of the script may come after those before it. A session that has gone
/// or was shut has no event left. Its list takes no memory. If it is out of memory, `next` answers
/// `Idle` and `give` accepts no bytes.
#[derive(Drop)]
pub struct ScriptPort {
    player: Player,
    geometry: Geometry,
    dialect: Dialect,
    worker: usize,
    /// The exchange of its worker's end, for clauses alone.
    exchange: ExchangeName,
    /// By which bytes were given last, for clauses alone. It is kept until the next give, so that
    /// it can be compared.
    history: Option<ToldHistory>,
}

impl Model for ScriptPort {
    ghost use Rattle.worker_port.specs.Ports.{told_last};
    ghost use Rattle.script.specs.States.{PortState};
    ghost use Rattle.script.specs.Players.{player_state};

    ghost Value = { PortState };

    ghost view = { λ p. record {
      player = player_state p.player;
      sizes = p.geometry;
      dialect = p.dialect;
      worker = p.worker;
      exchange = p.exchange;
      history = told_last p.history;
    } };
}

impl ScriptPort {
    /// The port of a worker of an exchange, over a store of these sizes, whose sessions write in
    /// this dialect. All events are left, and none was played.
    pub fn new(
        alloc: Global,
        geometry: Geometry,
        dialect: Dialect,
        worker: usize,
        exchange: ExchangeName,
        events: Vec<ScriptEvent>,
    ) -> ScriptPort
        ensures fresh { IsNewPort geometry dialect worker exchange events.items result }
        ensures tells { (is_playable result.player.script ≡ true) ↔ IsPlayable events.items }
    {
        ScriptPort {
            player: Player::new(alloc, events),
            geometry,
            dialect,
            worker,
            exchange,
            history: None,
        }
    }

    /// From now on each `give` accepts at most `accept` bytes, and the `fail_give`th that is
    /// offered at least one byte accepts none and answers that the peer has gone. 0 turns either
    /// off.
    pub fn with_faults(mut self, accept: usize, fail_give: u64) -> ScriptPort
        ensures { result ≡ record self { player = with_faults accept fail_give self.player } }
    {
        self.player.set_faults(accept, fail_give);
        self
    }

    /// The bytes given to a session; none to one that wasn't opened.
    pub fn given(&self, session: u64) -> &[u8]
        ensures { result.now ≡ given session self.now.player.records }
    {
        match self.player.sessions.get(session) {
            Some(session) => session.given(),
            None => &[],
        }
    }

    /// The sessions that were opened, in order. The list tells what the script says of them.
    pub fn sessions(&self) -> &[ScriptSession]
        ensures sessions { result.now ≡ self.now.player.sessions }
        ensures opened { numbers result.now ≡ opened_sessions self.now.player.records }
        ensures played { is_playable self.now.player.script ≡ true
            → IsPlayed self.now.player.script self.now.player.records self.now.player.can_fail }
    {
        self.player.sessions.as_slice()
    }
}

impl Port for ScriptPort {
    ghost use Rattle.script.specs.States.{trace_told, PlaysOn, plays_same, plays_later};

    ghost told = { trace_told };

    ghost leads_to = { PlaysOn };

    ghost leads_reflexive = { plays_same };

    ghost leads_transitive = { plays_later };

    /// It never waits.
    fn next(&mut self, _may_wait: bool, _sender: &WorkerLane) -> PortEvent
        ensures leads { PlaysOn self.old self.new }
        ensures told { trace_told self.new ≡ option_map (then_told (event_records result)) (trace_told self.old) }
        ensures may { (trace : PortTrace) → trace_told self.old ≡ Some trace → MayCome trace result }
        ensures plays { is_playable self.old.player.script ≡ true → Plays self.old.player result self.new.player }
        ensures goes_on { is_playable self.old.player.script ≡ true → PortGoesOn self.old.player self.new.player }
    {
        self.player.next()
    }

    fn give(&mut self, session: u64, bytes: &[u8], history: ToldHistory) -> Result<usize, Gone>
        requires open { IsOpenWhereTold self.old session }
        requires said { (trace : PortTrace) → trace_told self.old ≡ Some trace
            → MayBeGiven trace history.exchange history.items session bytes.now }
        ensures within { IfOk result (λ n. n ≤ length bytes.now) }
        ensures leads { PlaysOn self.old self.new }
        ensures told { trace_told self.new ≡ option_map (then_gave session bytes.now result history.items)
            (trace_told self.old) }
        ensures gives { is_playable self.old.player.script ≡ true
            → Gives self.old.player session bytes.now result self.new.player }
        ensures counts { CountsGive self.old.player bytes.now self.new.player }
    {
        self.history = Some(history);
        self.player.give(session, bytes)
    }

    fn pause(&mut self, session: u64)
        requires { IsOpenWhereTold self.old session }
        ensures leads { PlaysOn self.old self.new }
        ensures told { trace_told self.new ≡ option_map (with_pause session true) (trace_told self.old) }
        ensures paused { is_playable self.old.player.script ≡ true
            → SetsPaused self.old.player session true self.new.player }
    {
        self.player.set_stage(session, Stage::Paused);
    }

    fn resume(&mut self, session: u64)
        requires { IsOpenWhereTold self.old session }
        ensures leads { PlaysOn self.old self.new }
        ensures told { trace_told self.new ≡ option_map (with_pause session false) (trace_told self.old) }
        ensures paused { is_playable self.old.player.script ≡ true
            → SetsPaused self.old.player session false self.new.player }
    {
        self.player.set_stage(session, Stage::Playing);
    }

    fn shut(&mut self, session: u64)
        requires { IsOpenWhereTold self.old session }
        ensures leads { PlaysOn self.old self.new }
        ensures told { trace_told self.new ≡ option_map (then_told (Shut session ∷ [])) (trace_told self.old) }
        ensures shuts { is_playable self.old.player.script ≡ true
            → DropsSession self.old.player session self.new.player }
    {
        self.player.close(session, PortNote::Shut(session));
    }
}
