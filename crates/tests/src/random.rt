//! Random requests, which the store is to answer as the list does.

use crate::list_cache::ListCache;
use crate::made::{Spelling, spell};
use crate::same::check_same;
use engine::{StorageEngine, carry_out};
use proto::{
    ByteString, Geometry, Keys, Message, NoMemory, PendingAnswer, Put, Request, Touch, Words,
};
use reference::PlainStore;
use std::alloc::{AllocError, Global};
use std::process::Abort;
use std::test::Fail;

/// A xorshift generator.
#[derive(Drop)]
struct Random(u64);

impl Random {
    fn next(&mut self) -> u64 {
        let mut x = self.0;
        x ^= x << 13;
        x ^= x >> 7;
        x ^= x << 17;
        self.0 = x;
        x
    }

    fn below(&mut self, n: u64) -> u64 {
        if n == 0 { 0 } else { self.next() % n }
    }
}

/// What is drawn at random is a letter, or one of these.
const KEYS: [Spelling; 3] = [("", b'k', 0, ""), ("", b'k', 251, ""), ("", b'k', 250, "")];

const VALUES: [Spelling; 9] = [
    ("", b'v', 0, ""),
    ("x", b'v', 0, ""),
    ("18446744073709551615", b'v', 0, ""),
    ("18446744073709551616", b'v', 0, ""),
    ("", b'0', 19, "7"),
    ("", b'0', 20, "7"),
    ("+7", b'v', 0, ""),
    ("", b'v', 487, ""),
    ("", b'v', 488, ""),
];

fn random_key(random: &mut Random) -> Spelling {
    match random.below(30) as usize {
        n @ 0..=2 => KEYS[n],
        n => ("", b"kabcdef"[n % 7], 1, ""),
    }
}

fn random_value(random: &mut Random) -> Spelling {
    match random.below(12) as usize {
        n @ 0..=8 => VALUES[n],
        _ => ("42", b'v', 0, ""),
    }
}

fn bytes(alloc: Global, spelling: Spelling) -> Result<ByteString, AllocError> {
    let mut bytes = Vec::new(alloc);
    spell(&mut bytes, spelling)?;
    Ok(ByteString::from_vec(bytes))
}

fn random_exptime(random: &mut Random, now: u64) -> i64 {
    match random.below(8) {
        0 => -1,
        1 => 1,
        2 => 5,
        3 => 2_592_000,
        4 => 2_592_001,
        5 => i64::try_from(now.saturating_add(random.below(4))).unwrap_or(i64::MAX),
        _ => 0,
    }
}

fn random_put(alloc: Global, random: &mut Random, now: u64) -> Result<Put, AllocError> {
    let exptime = random_exptime(random, now);
    Ok(Put {
        key: bytes(alloc, random_key(random))?,
        flags: (random.next() % 4_294_967_296) as u32,
        exptime,
        value: bytes(alloc, random_value(random))?,
    })
}

fn push_random_line(random: &mut Random, line: &mut Vec<u8>) -> Result<(), AllocError> {
    line.extend_from_slice(b"get")?;
    for _ in 0..random.below(4) {
        line.push(b' ')?;
        spell(line, random_key(random))?;
    }
    Ok(())
}

fn random_get(alloc: Global, random: &mut Random, now: u64) -> Result<Request, NoMemory> {
    let mut line = Vec::new(alloc);
    push_random_line(random, &mut line)?;
    let mut words = Words::new(line.as_slice());
    let _ = words.next();
    let keys = Keys::from_words(alloc, words);
    drop(line);
    let with_cas = random.below(2) == 0;
    let keys = keys?;
    Ok(if random.below(4) == 0 {
        let exptime = random_exptime(random, now);
        Request::GetAndTouch {
            keys,
            with_cas,
            exptime,
        }
    } else {
        Request::Get { keys, with_cas }
    })
}

fn random_write(
    alloc: Global,
    random: &mut Random,
    now: u64,
    list: &ListCache,
    pick: u64,
) -> Result<Request, NoMemory> {
    let put = random_put(alloc, random, now)?;
    Ok(match pick {
        5..=7 => Request::Set(put),
        8..=9 => Request::Add(put),
        10..=11 => Request::Replace(put),
        20..=21 => Request::Append(put),
        22..=23 => Request::Prepend(put),
        24..=25 => Request::Touch(Touch {
            key: put.key,
            exptime: put.exptime,
        }),
        _ => {
            let cas = list.cas_at(&put.key).saturating_add(random.below(3) / 2);
            Request::Cas(put, cas)
        }
    })
}

fn random_change(alloc: Global, random: &mut Random, pick: u64) -> Result<Request, NoMemory> {
    let key = bytes(alloc, random_key(random))?;
    if pick == 14 {
        return Ok(match random.below(4) {
            0 => Request::SetTooLarge { key },
            _ => Request::Delete { key },
        });
    }
    // A counter may pass its ends by the amount.
    let amount = match random.below(3) {
        0 => 0,
        1 => 50,
        _ => u64::MAX,
    };
    Ok(if pick <= 16 {
        Request::Incr { key, amount }
    } else {
        Request::Decr { key, amount }
    })
}

fn random_request(
    alloc: Global,
    random: &mut Random,
    now: u64,
    list: &ListCache,
) -> Result<Request, NoMemory> {
    match random.below(26) {
        0..=4 => random_get(alloc, random, now),
        pick @ 14..=18 => random_change(alloc, random, pick),
        19 => Ok(match random.below(6) {
            delay @ 0..=3 => Request::FlushAll { delay },
            _ => Request::Stats,
        }),
        pick => random_write(alloc, random, now, list, pick),
    }
}

/// Appends the answers of the store and of the list.
fn answer_both(
    rt: &impl Abort,
    alloc: Global,
    (store, list): (&mut PlainStore, &mut ListCache),
    now: u64,
    mut request: Request,
    (given, wanted): (&mut Vec<u8>, &mut Vec<u8>),
) -> Result<(), NoMemory> {
    list.answer(alloc, now, &request, wanted)?;
    assert!(rt; store.last_moment() <= now && now < 3_000_000);
    let mut reply = carry_out(store, now, &mut request);
    let asked = Message::Ask(request, false);
    let shown = PendingAnswer::of(&asked).show(Some(&mut reply), given);
    drop((asked, reply));
    shown
}

/// The store answers a random request as the list does, is as far, and has the same flush before
/// it. Says whether a value is shown.
fn check_turn(
    rt: &impl Abort,
    alloc: Global,
    random: &mut Random,
    store: &mut PlainStore,
    list: &mut ListCache,
    (turn, now): (u64, u64),
) -> Result<bool, NoMemory> {
    let request = random_request(alloc, random, now, list)?;
    let (mut given, mut wanted) = (Vec::new(alloc), Vec::new(alloc));
    let answers = (&mut given, &mut wanted);
    let answered = answer_both(rt, alloc, (store, list), now, request, answers);
    check_same(rt, given.as_slice(), wanted.as_slice(), turn);
    let is_shown = wanted.starts_with(b"VALUE");
    drop((given, wanted));
    answered?;
    let moments = (store.last_moment(), store.pending());
    check_same(rt, moments, (now, list.pending), turn);
    Ok(is_shown)
}

fn check_turns(
    rt: &impl Abort,
    alloc: Global,
    random: &mut Random,
    store: &mut PlainStore,
    list: &mut ListCache,
) -> Result<(), NoMemory> {
    let mut now = 2_591_995;
    let mut shown = 0u32;
    for turn in 0..5000 {
        if check_turn(rt, alloc, random, store, list, (turn, now))? {
            shown = shown.saturating_add(1);
        }
        now = now.saturating_add(random.below(6) / 4);
    }
    assert!(rt; shown > 150, "only {shown} answers show a value");
    Ok(())
}

/// Some thousand requests, most of them at moments from the one on at which an absolute deadline
/// begins.
#[test]
fn as_a_list(rt: HostRuntime) -> Result<(), Fail> {
    let alloc = rt.alloc();
    let mut random = Random(2_463_534_242);
    let mut store = PlainStore::new(alloc, Geometry::new(4096, 8)?)?;
    let mut list = ListCache::new(alloc, 512);
    let checked = check_turns(&rt, alloc, &mut random, &mut store, &mut list);
    drop((store, list));
    Ok(checked?)
}
