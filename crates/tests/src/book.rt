//! A book at its limits, and answers out of order or to closed sessions.

use crate::player::{Given, Player, WORKER};
use crate::same::check_same;
use bytes::Bytes;
use proto::Dialect;
use session_book::{EndCause, OpenFault, Received, Settled, Task, Tick, Unasked};
use std::alloc::Global;
use std::process::Abort;
use std::test::Fail;

/// What is done to a player, with what is to be seen of it.
#[derive(Clone, Copy)]
enum Step {
    Open(u64),
    /// The session isn't opened, since its number isn't above all before.
    Known(u64),
    /// Feeds a piece, or so many letters, which are to fit.
    Feed(u64, &'static [u8]),
    FeedLetters(u64, usize),
    /// A piece comes, and what becomes of it.
    Receive(u64, &'static [u8], Received),
    /// The session's input ends, and the session not yet.
    EndInput(u64),
    /// The number of the session's next request, if it has one.
    Ask(u64, Option<u64>),
    /// The session has a request, whose number is the next.
    AskNext(u64),
    AskLater(u64),
    Settle(usize, Settled),
    /// The first request is settled with the hit of an answer of this length, or with such lines of
    /// a `stats`.
    SettleHit(usize),
    SettleStats(usize),
    Give(u64),
    /// The session's client accepts so many bytes of its output.
    Accept(u64, usize),
    /// The book is told how many bytes output may take.
    Budget(usize),
    /// A second passes in which a session waited for room.
    Second,
    Close(u64),
    See(Sight),
}

/// What is to be seen of a player.
#[derive(Clone, Copy)]
enum Sight {
    Output(u64, &'static str),
    /// Whether and why the session has ended.
    Finished(u64, Option<EndCause>),
    /// Which session is to be taken up for the task.
    Ready(Task, Option<u64>),
    NextToAsk(Option<u64>),
    /// The session's next request waits.
    Waits(u64),
    WaitsForMemory(bool),
    /// Which session's client has stopped for ten seconds.
    Stalled(Option<u64>),
    IsCrowded(bool),
    HasLittleOutput(bool),
    Looks(u64),
}

use Sight::{
    Finished, HasLittleOutput, IsCrowded, Looks, NextToAsk, Output, Ready, Stalled, Waits,
    WaitsForMemory,
};
use Step::{
    Accept, Ask, AskLater, AskNext, Budget, Close, EndInput, Feed, FeedLetters, Give, Known, Open,
    Receive, Second, See, Settle, SettleHit, SettleStats,
};

/// The name of what is shown and the row's step, or the number of a turn.
type Place = (&'static str, u64);

fn check_sight(rt: &impl Abort, player: &mut Player, sight: &Sight, place: Place) {
    let book = &mut player.book;
    match sight {
        Output(session, output) => check_same(rt, book.out(*session), output.as_bytes(), place),
        Finished(session, cause) => check_same(rt, book.offer(*session).finished, *cause, place),
        Ready(task, session) => check_same(rt, book.next_ready(*task), *session, place),
        NextToAsk(session) => check_same(rt, book.next_to_ask(), *session, place),
        Waits(session) => {
            let waits = matches!(book.next_ask(*session), Err(Unasked::Waits));
            check_same(rt, waits, true, place);
        }
        WaitsForMemory(waits) => check_same(rt, book.waits_for_memory(), *waits, place),
        Stalled(session) => check_same(rt, book.find_stalled(), *session, place),
        IsCrowded(is_crowded) => check_same(rt, book.is_crowded(), *is_crowded, place),
        HasLittleOutput(has) => check_same(rt, book.has_little_output(), *has, place),
        Looks(count) => check_same(rt, book.looks(), *count, place),
    }
}

fn check_step(rt: &impl Abort, player: &mut Player, step: &Step, place: Place) -> Result<(), Fail> {
    match step {
        Open(session) => player.book.open(*session)?,
        Known(session) => {
            let opened = player.book.open(*session);
            check_same(rt, opened, Err(OpenFault::Known), place);
        }
        Feed(session, piece) => player.feed(*session, piece)?,
        FeedLetters(session, count) => player.feed_letters(*session, *count)?,
        Receive(session, piece, wanted) => {
            let received = player.book.receive(*session, Bytes::from_static(piece));
            check_same(rt, received, *wanted, place);
        }
        EndInput(session) => check_same(rt, player.book.end_input(*session), None, place),
        Ask(session, number) => check_same(rt, player.ask(*session)?, *number, place),
        AskNext(session) => {
            let next = Some(player.last.saturating_add(1));
            check_same(rt, player.ask(*session)?, next, place);
        }
        AskLater(session) => player.book.ask_later(*session),
        Settle(first, settled) => {
            let given = player.settle(*first, Given::Known)?;
            check_same(rt, given, Some(*settled), place);
        }
        SettleHit(length) => {
            let _ = player.settle(0, Given::Hit(*length))?;
        }
        SettleStats(length) => {
            let _ = player.settle(0, Given::Stats(*length))?;
        }
        Give(session) => player.give(*session)?,
        Accept(session, length) => player.give_some(*session, *length)?,
        Budget(bytes) => player.book.set_output_budget(*bytes),
        Second => player.book.count_tick(Tick::Second),
        Close(session) => player.book.close(*session),
        See(sight) => check_sight(rt, player, sight, place),
    }
    Ok(())
}

/// Steps, and how often they are taken.
type Part = (u64, &'static [Step]);

fn check_parts(
    rt: &impl Abort,
    player: &mut Player,
    name: &'static str,
    parts: &[Part],
) -> Result<(), Fail> {
    let mut number: u64 = 0;
    for (times, steps) in parts {
        for _ in 0..*times {
            for step in *steps {
                number = number.saturating_add(1);
                check_step(rt, player, step, (name, number))?;
            }
        }
    }
    Ok(())
}

/// A player of this dialect, whose store knows this value, if any, takes these steps.
#[derive(Clone, Copy)]
struct Row {
    name: &'static str,
    dialect: Dialect,
    found: Option<&'static str>,
    parts: &'static [Part],
}

const ROWS: [Row; 11] = [
    Row {
        name: "answers are settled in order",
        dialect: Dialect::Strict,
        found: None,
        parts: &[(
            1,
            &[
                Open(1),
                Feed(1, b"set a 0 0 1\r\nx\r\nset a 0 0 1\r\ny\r\n"),
                Ask(1, Some(1)),
                Ask(1, Some(2)),
                Settle(1, Settled::Stranger),
                See(Output(1, "")),
                Settle(0, Settled::Kept),
                See(Output(1, "STORED\r\n")),
            ],
        )],
    },
    Row {
        name: "262,144 bytes of input are fed, and one more is held",
        dialect: Dialect::Strict,
        found: None,
        parts: &[
            (1, &[Open(1)]),
            (16, &[FeedLetters(1, 16_384)]),
            (
                1,
                &[
                    Receive(1, b"k", Received::Held),
                    Receive(2, b"k", Received::Unknown),
                ],
            ),
        ],
    },
    // The input ends before its last message is read, which isn't answered: once it is read the
    // session is to be taken up.
    Row {
        name: "a session ends after a silent message",
        dialect: Dialect::Lenient(131_072),
        found: None,
        parts: &[(
            1,
            &[
                Open(1),
                Feed(1, b"verbosity 1 noreply\r\n"),
                EndInput(1),
                See(Ready(Task::Ask, Some(1))),
                Ask(1, None),
                See(Ready(Task::Give, Some(1))),
                See(Finished(1, Some(EndCause::EndOfInput))),
            ],
        )],
    },
    // The 65th request is asked once one of the 64 before it is settled.
    Row {
        name: "64 requests are asked at a time",
        dialect: Dialect::Strict,
        found: None,
        parts: &[
            (1, &[Open(1)]),
            (65, &[Feed(1, b"get a\r\n")]),
            (1, &[Ask(1, Some(1))]),
            (63, &[AskNext(1)]),
            (
                1,
                &[Ask(1, None), Settle(0, Settled::Kept), Ask(1, Some(65))],
            ),
        ],
    },
    Row {
        name: "above 1 MiB of output, over all sessions, is not little",
        dialect: Dialect::Lenient(131_072),
        found: None,
        parts: &[(
            1,
            &[
                Open(1),
                Feed(1, b"stats\r\n"),
                Ask(1, Some(1)),
                Open(2),
                Feed(2, b"stats\r\n"),
                Ask(2, Some(2)),
                See(HasLittleOutput(true)),
                SettleStats(1_048_576),
                See(HasLittleOutput(true)),
                SettleStats(5),
                See(HasLittleOutput(false)),
                Give(2),
                See(HasLittleOutput(true)),
            ],
        )],
    },
    // A key is likely to take as much as it took last, or half of what was likely before.
    Row {
        name: "a book is crowded above 1 MiB of likely answers",
        dialect: Dialect::Lenient(131_072),
        found: None,
        parts: &[
            (1, &[Open(1), Feed(1, b"get b\r\n"), AskNext(1)]),
            (1, &[SettleHit(131_072), Give(1)]),
            (8, &ASKED_FOR_1),
            (1, &[See(IsCrowded(false))]),
            (1, &ASKED_FOR_1),
            (1, &[See(IsCrowded(true))]),
            (1, &[Settle(0, Settled::Kept), See(IsCrowded(false))]),
            (1, &ASKED_FOR_1),
            (
                1,
                &[
                    See(IsCrowded(true)),
                    Close(1),
                    Settle(0, Settled::Dropped),
                    See(IsCrowded(false)),
                ],
            ),
        ],
    },
    Row {
        name: "numbers of sessions rise",
        dialect: Dialect::Strict,
        found: None,
        parts: &[(1, &[Open(5), Known(5), Known(4), Known(0), Open(6)])],
    },
    // A line that is answered without the cache stands in its place. A silent one has no answer.
    Row {
        name: "local lines are answered in their places",
        dialect: Dialect::Lenient(131_072),
        found: Some("x"),
        parts: &[(1, &LOCAL_LINES)],
    },
    // The first byte of a message of the binary protocol.
    Row {
        name: "the binary protocol is a line like others strictly",
        dialect: Dialect::Strict,
        found: None,
        parts: &[(
            1,
            &[
                Open(1),
                Feed(1, b"\x80"),
                Ask(1, None),
                See(Finished(1, None)),
                See(Output(1, "")),
            ],
        )],
    },
    Row {
        name: "the binary protocol is closed at once leniently",
        dialect: Dialect::Lenient(131_072),
        found: None,
        parts: &[(
            1,
            &[
                Open(1),
                Feed(1, b"\x80"),
                Ask(1, None),
                See(Finished(1, Some(EndCause::Fatal))),
                See(Output(1, "")),
            ],
        )],
    },
    Row {
        name: "answers of closed sessions are dropped",
        dialect: Dialect::Strict,
        found: Some("x"),
        parts: &[(1, &TO_CLOSED)],
    },
];

/// What comes byte by byte.
const SLOW_ROWS: [Row; 3] = [
    // A block of 100,000 bytes and its end come byte by byte.
    Row {
        name: "the parser looks twice at a large block",
        dialect: Dialect::Strict,
        found: None,
        parts: &[
            (
                1,
                &[Open(1), Feed(1, b"set a 0 0 100000\r\n"), Ask(1, None)],
            ),
            (100_001, &[Ask(1, None), Feed(1, b"\r")]),
            (
                1,
                &[Ask(1, None), Feed(1, b"\n"), Ask(1, Some(1)), See(Looks(2))],
            ),
        ],
    },
    // The longest line of the lenient dialect: a `get` with 32,761 spaces after its key.
    Row {
        name: "a long line comes byte by byte",
        dialect: Dialect::Lenient(131_072),
        found: Some("x"),
        parts: &[
            (1, &[Open(1), Feed(1, b"get a")]),
            (32_761, &[Ask(1, None), Feed(1, b" ")]),
            (1, &LONG_LINE_ENDS),
            (
                1,
                &[
                    Ask(1, Some(1)),
                    Settle(0, Settled::Kept),
                    See(Output(1, "VALUE a 0 1\r\nx\r\nEND\r\n")),
                ],
            ),
        ],
    },
    // Each of 32,766 bytes may begin the line's end.
    Row {
        name: "a long line of carriage returns comes byte by byte",
        dialect: Dialect::Lenient(131_072),
        found: None,
        parts: &[
            (1, &[Open(1), Feed(1, b"")]),
            (32_766, &[Ask(1, None), Feed(1, b"\r")]),
            (1, &LONG_LINE_ENDS),
            (1, &[Ask(1, None), See(Output(1, "ERROR\r\n"))]),
        ],
    },
];

const LONG_LINE_ENDS: [Step; 4] = [Ask(1, None), Feed(1, b"\r"), Ask(1, None), Feed(1, b"\n")];

const ASKED_FOR_1: [Step; 2] = [Feed(1, b"get b\r\n"), AskNext(1)];

const LOCAL_LINES: [Step; 10] = [
    Open(1),
    Feed(
        1,
        b"verbosity 2\r\nverbosity 1 noreply\r\nget a\r\nverbosity 1\r\n",
    ),
    Ask(1, Some(1)),
    Ask(1, None),
    Settle(0, Settled::Kept),
    See(Output(1, LOCAL_ANSWERS)),
    Feed(1, b"cache_memlimit 64 noreply\r\n"),
    Ask(1, None),
    See(Output(1, LOCAL_ANSWERS)),
    See(Finished(1, None)),
];

const LOCAL_ANSWERS: &str = "OK\r\nVALUE a 0 1\r\nx\r\nEND\r\nOK\r\n";

const TO_CLOSED: [Step; 12] = [
    Open(1),
    Feed(1, b"set a 0 0 1\r\nx\r\n"),
    Ask(1, Some(1)),
    Close(1),
    Open(2),
    Feed(2, b"get a\r\n"),
    Ask(2, Some(2)),
    Settle(0, Settled::Dropped),
    See(Output(1, "")),
    See(Output(2, "")),
    Settle(0, Settled::Kept),
    See(Output(2, "VALUE a 0 1\r\nx\r\nEND\r\n")),
];

fn check_rows(rt: &impl Abort, alloc: Global, rows: &[Row]) -> Result<(), Fail> {
    for row in rows {
        let mut player = Player::new(alloc, row.dialect, row.found);
        check_same(rt, player.book.worker(), WORKER, row.name);
        let checked = check_parts(rt, &mut player, row.name, row.parts);
        drop(player);
        checked?;
    }
    Ok(())
}

#[test]
fn books_are_as_their_rows_say(rt: HostRuntime) -> Result<(), Fail> {
    check_rows(&rt, rt.alloc(), &ROWS)
}

#[test]
fn input_comes_byte_by_byte(rt: HostRuntime) -> Result<(), Fail> {
    check_rows(&rt, rt.alloc(), &SLOW_ROWS)
}

/// Requests for 1, 9, 17 and 18 keys.
const FOR_1: &str = "get b\r\n";

const FOR_9: &str = "get b b b b b b b b b\r\n";

const FOR_17: &str = "get b b b b b b b b b b b b b b b b b\r\n";

const FOR_18: &str = "gets b b b b b b b b b b b b b b b b b b\r\n";

/// Session 1 is given the answers to requests, each of this length. Then it has 19 requests for a
/// key on their way and one more to be read, and session 2, which is new, has `next`. These parts
/// follow.
fn check_large(
    rt: &impl Abort,
    player: &mut Player,
    answers: &[(&'static str, usize)],
    next: &'static str,
    parts: &[Part],
) -> Result<(), Fail> {
    player.book.open(1)?;
    player.book.open(2)?;
    let mut output: usize = 0;
    for (request, length) in answers {
        output = output.saturating_add(*length);
        player.feed(1, request.as_bytes())?;
        for step in [See(NextToAsk(Some(1))), AskNext(1), SettleHit(*length)] {
            check_step(rt, player, &step, (*request, 0))?;
        }
        check_same(rt, player.book.out(1).len(), output, "the answers");
    }
    check_parts(rt, player, next, &UNDER_WAY)?;
    player.feed(1, FOR_1.as_bytes())?;
    player.feed(2, next.as_bytes())?;
    check_parts(rt, player, next, parts)
}

const UNDER_WAY: [Part; 1] = [(19, &ASKED_FOR_1)];

/// Then session 2 comes behind session 1.
const IN_TURN: [Step; 3] = [
    See(NextToAsk(Some(1))),
    AskLater(1),
    See(NextToAsk(Some(2))),
];

const PUT: [Part; 2] = [(1, &IN_TURN), (1, &[See(Waits(2))])];

const NOT_PUT: [Part; 2] = [(1, &IN_TURN), (1, &[AskNext(2)])];

/// While it waits others go before it 64 times. Then none is asked before 262,144 bytes or fewer
/// are likely to be on their way: 8 times 29,128.
const PUT_64_TIMES: [Part; 5] = [
    (1, &IN_TURN),
    (1, &[See(Waits(2))]),
    (64, &[See(NextToAsk(Some(1))), AskLater(1)]),
    (10, &[Settle(0, Settled::Kept), See(NextToAsk(None))]),
    (
        1,
        &[
            Settle(0, Settled::Kept),
            See(NextToAsk(Some(2))),
            AskNext(2),
        ],
    ),
];

/// A `get` waits for the answers on their way if its own is likely to have more than 262,144 bytes:
/// each key of the last answer took 29,128 bytes, 29,127 or 262,144, or half of the first.
const LARGE: [(&[(&str, usize)], &str, &[Part]); 8] = [
    (&[(FOR_9, 262_152)], FOR_9, &PUT_64_TIMES),
    (&[(FOR_9, 262_152)], "x\r\nget b b b b b b b b b\r\n", &PUT),
    (&[(FOR_9, 262_151)], FOR_9, &NOT_PUT),
    (
        &[(FOR_9, 262_152)],
        "set b 0 0 1\r\nx\r\nget b b b b b b b b b\r\n",
        &NOT_PUT,
    ),
    (&[(FOR_1, 262_144)], FOR_1, &NOT_PUT),
    (&[(FOR_9, 262_152), (FOR_1, 100_025)], FOR_9, &PUT),
    (&[(FOR_9, 262_152), (FOR_9, 100_025)], FOR_17, &NOT_PUT),
    (&[(FOR_9, 262_152), (FOR_9, 100_025)], FOR_18, &PUT),
];

#[test]
fn what_is_likely_to_be_large_waits(rt: HostRuntime) -> Result<(), Fail> {
    for (answers, next, parts) in &LARGE {
        let mut player = Player::new(rt.alloc(), Dialect::Lenient(131_072), None);
        let checked = check_large(&rt, &mut player, answers, next, parts);
        drop(player);
        checked?;
    }
    Ok(())
}

/// A key of session 1 took 29,128 bytes. Session 2 asks for one after session 1 has asked for nine
/// again, and goes first.
const OTHERS_FIRST: [Step; 12] = [
    Open(1),
    Open(2),
    Feed(1, FOR_9_BYTES),
    See(NextToAsk(Some(1))),
    AskNext(1),
    SettleHit(262_152),
    Feed(1, FOR_9_BYTES),
    Feed(2, b"get b\r\n"),
    See(NextToAsk(Some(1))),
    See(Waits(1)),
    See(NextToAsk(Some(2))),
    AskNext(2),
];

const FOR_9_BYTES: &[u8] = b"get b b b b b b b b b\r\n";

const OTHERS_FIRST_ROWS: [Row; 1] = [Row {
    name: "a get whose answer is likely to be large lets others go first",
    dialect: Dialect::Strict,
    found: None,
    parts: &[
        (1, &OTHERS_FIRST),
        (1, &[See(NextToAsk(Some(1))), AskNext(1)]),
    ],
}];

#[test]
fn large_answers_let_others_go_first(rt: HostRuntime) -> Result<(), Fail> {
    check_rows(&rt, rt.alloc(), &OTHERS_FIRST_ROWS)
}

/// Session 1 has had a small answer, and has asked again. Session 2 is new, and asks next.
const BEFORE_ROOM: [Step; 9] = [
    Open(1),
    Feed(1, b"get b\r\n"),
    AskNext(1),
    Settle(0, Settled::Kept),
    Give(1),
    Feed(1, b"get b\r\n"),
    AskNext(1),
    Open(2),
    Feed(2, b"get b b\r\n"),
];

/// Session 2 waits, while the first `get` for one key of session 3 goes on, as its answer is taken
/// to be small. Then the client of session 1 takes its output.
const WAITS_UNTIL_GIVEN: [Step; 15] = [
    See(NextToAsk(Some(1))),
    See(NextToAsk(Some(2))),
    See(Waits(2)),
    See(WaitsForMemory(true)),
    Open(3),
    Feed(3, b"get b\r\n"),
    See(NextToAsk(Some(3))),
    AskNext(3),
    See(NextToAsk(None)),
    See(Waits(2)),
    Give(1),
    See(WaitsForMemory(false)),
    See(NextToAsk(Some(1))),
    See(NextToAsk(Some(2))),
    AskNext(2),
];

/// Session 2 waits.
const LATER_WAITS: [Step; 4] = [
    See(NextToAsk(Some(1))),
    See(NextToAsk(Some(2))),
    See(Waits(2)),
    See(WaitsForMemory(true)),
];

/// The 100,025 bytes that are likely to be the answer of session 3 don't fit beside the output of
/// session 1 and what is likely to be that of session 2.
const ON_ITS_WAY: [Step; 23] = [
    Open(1),
    Open(2),
    Open(3),
    Feed(3, b"get b\r\n"),
    See(NextToAsk(Some(3))),
    AskNext(3),
    SettleHit(100_025),
    Give(3),
    Feed(1, b"get b\r\n"),
    See(NextToAsk(Some(1))),
    AskNext(1),
    SettleHit(33_554_432),
    Feed(2, b"get b b\r\n"),
    See(NextToAsk(Some(2))),
    AskNext(2),
    Feed(3, b"get b\r\n"),
    See(NextToAsk(Some(3))),
    See(Waits(3)),
    See(WaitsForMemory(true)),
    Settle(0, Settled::Kept),
    See(WaitsForMemory(false)),
    See(NextToAsk(Some(3))),
    AskNext(3),
];

/// Output may take this much, so half of it is enough for any answer.
const BUDGET: Step = Budget(24_000_000);

/// Session 1 has asked for what is large. Session 2 has had a small answer, and session 3 none.
const BEFORE_FIRST_GET: [Step; 12] = [
    BUDGET,
    Open(1),
    Open(2),
    Open(3),
    Feed(2, b"get b\r\n"),
    See(NextToAsk(Some(2))),
    AskNext(2),
    Settle(0, Settled::Kept),
    Give(2),
    Feed(1, b"get b\r\n"),
    See(NextToAsk(Some(1))),
    AskNext(1),
];

/// What waits until there is room, and whose client has stopped.
const ROOM_ROWS: [Row; 9] = [
    Row {
        name: "a get waits above 32 MiB of output, as its answer may be as large",
        dialect: Dialect::Strict,
        found: None,
        parts: &[
            (1, &BEFORE_ROOM),
            (1, &[SettleHit(33_554_433)]),
            (1, &WAITS_UNTIL_GIVEN),
        ],
    },
    Row {
        name: "with 32 MiB of output no get waits",
        dialect: Dialect::Strict,
        found: None,
        parts: &[
            (1, &BEFORE_ROOM),
            (
                1,
                &[
                    SettleHit(33_554_432),
                    See(NextToAsk(Some(1))),
                    See(NextToAsk(Some(2))),
                    AskNext(2),
                    See(WaitsForMemory(false)),
                ],
            ),
        ],
    },
    Row {
        name: "a get waits above half of a budget that was told",
        dialect: Dialect::Strict,
        found: None,
        parts: &[
            (1, &BEFORE_ROOM),
            (1, &[BUDGET, SettleHit(12_000_001)]),
            (1, &WAITS_UNTIL_GIVEN),
        ],
    },
    Row {
        name: "with half of it no get waits",
        dialect: Dialect::Strict,
        found: None,
        parts: &[
            (1, &BEFORE_ROOM),
            (
                1,
                &[
                    BUDGET,
                    SettleHit(12_000_000),
                    See(NextToAsk(Some(1))),
                    See(NextToAsk(Some(2))),
                    AskNext(2),
                    See(WaitsForMemory(false)),
                ],
            ),
        ],
    },
    Row {
        name: "what is on its way counts as output",
        dialect: Dialect::Strict,
        found: None,
        parts: &[(1, &ON_ITS_WAY)],
    },
    Row {
        name: "the first get of a session goes on with three times the budget of output",
        dialect: Dialect::Strict,
        found: None,
        parts: &[
            (1, &BEFORE_FIRST_GET),
            (
                1,
                &[
                    SettleHit(72_000_000),
                    Feed(3, b"get b\r\n"),
                    See(NextToAsk(Some(3))),
                    AskNext(3),
                ],
            ),
        ],
    },
    Row {
        name: "above that it waits, and no other with a small answer",
        dialect: Dialect::Strict,
        found: None,
        parts: &[
            (1, &BEFORE_FIRST_GET),
            (
                1,
                &[
                    SettleHit(72_000_001),
                    Feed(3, b"get b\r\n"),
                    See(NextToAsk(Some(3))),
                    See(Waits(3)),
                    Feed(2, b"get b\r\n"),
                    See(NextToAsk(Some(2))),
                    AskNext(2),
                ],
            ),
        ],
    },
    Row {
        name: "a lenient client that takes nothing for ten seconds while others wait has stopped",
        dialect: Dialect::Lenient(131_072),
        found: None,
        parts: &[
            (1, &BEFORE_ROOM),
            (1, &[SettleHit(60_000_000), Accept(1, 1_000), Accept(1, 0)]),
            (10, &[Second, See(Stalled(None))]),
            (1, &[Accept(1, 1), Accept(1, 0)]),
            (1, &LATER_WAITS),
            (9, &[Second, See(Stalled(None))]),
            (1, &[Accept(1, 1), Accept(1, 0)]),
            (9, &[Second, See(Stalled(None)), Accept(1, 0)]),
            (1, &[Second, See(Stalled(Some(1)))]),
            (1, &[Accept(1, 59_982_614), Accept(1, 0)]),
            (10, &[Second]),
            (1, &[See(Stalled(None))]),
        ],
    },
    Row {
        name: "no strict client has",
        dialect: Dialect::Strict,
        found: None,
        parts: &[
            (1, &BEFORE_ROOM),
            (1, &[SettleHit(60_000_000), Accept(1, 0)]),
            (1, &LATER_WAITS),
            (20, &[Second]),
            (1, &[See(Stalled(None))]),
        ],
    },
];

#[test]
fn large_answers_wait_for_room(rt: HostRuntime) -> Result<(), Fail> {
    check_rows(&rt, rt.alloc(), &ROOM_ROWS)
}
