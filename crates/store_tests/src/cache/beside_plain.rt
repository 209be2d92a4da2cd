//! Random requests, which the segmented store is to answer as the plain one does: what is live fits
//! into one segment, so merges keep all of it, or there is always a segment without a live item.

use crate::cache::asking::answer;
use crate::cache::random::Random;
use crate::same::check_same;
use proto::{Dialect, Eviction, Geometry, NoMemory};
use reference::PlainStore;
use segcache::Store;
use std::alloc::{AllocError, Global};
use std::process::Abort;
use std::test::Fail;

/// How many keys there are; with 400 bytes of value each their items take 10,368 bytes.
const KEYS: u64 = 24;

/// A number, or up to 400 letters.
fn random_value(alloc: Global, random: &mut Random) -> Result<String, AllocError> {
    if random.below(3) == 0 {
        return format!(in alloc; "{}", random.below(1000));
    }
    let mut value = String::new(alloc);
    for _ in 0..random.below(400) {
        value.push_str("v")?;
    }
    Ok(value)
}

/// One that has come already, or a number below this one.
fn random_exptime(alloc: Global, random: &mut Random, lives: u64) -> Result<String, AllocError> {
    if random.below(10) == 0 {
        return String::from_str(alloc, "-1");
    }
    format!(in alloc; "{}", random.below(lives))
}

/// A put with this verb. `unique` is a cas number with a space before it, or nothing.
fn random_put(
    alloc: Global,
    random: &mut Random,
    lives: u64,
    verb: &str,
    unique: &str,
) -> Result<String, AllocError> {
    let value = random_value(alloc, random)?;
    let key = random.below(KEYS);
    let flags = random.below(4_294_967_296);
    let exptime = random_exptime(alloc, random, lives)?;
    format!(in alloc;
        "{verb} k{key} {flags} {exptime} {}{unique}\r\n{value}\r\n",
        value.len()
    )
}

/// A verb, a key, and a number or another key after it.
fn with_number(
    alloc: Global,
    verb: &str,
    key: u64,
    between: &str,
    number: u64,
) -> Result<String, AllocError> {
    format!(in alloc; "{verb} k{key}{between}{number}\r\n")
}

fn random_cas(alloc: Global, random: &mut Random, lives: u64) -> Result<String, AllocError> {
    let unique = format!(in alloc; " {}", random.below(200))?;
    random_put(alloc, random, lives, "cas", unique.as_str())
}

fn random_touch(
    alloc: Global,
    random: &mut Random,
    lives: u64,
    key: u64,
) -> Result<String, AllocError> {
    let exptime = random_exptime(alloc, random, lives)?;
    format!(in alloc; "touch k{key} {exptime}\r\n")
}

fn random_get_and_touch(
    alloc: Global,
    random: &mut Random,
    lives: u64,
    (key, other): (u64, u64),
) -> Result<String, AllocError> {
    let exptime = random_exptime(alloc, random, lives)?;
    format!(in alloc; "gats {exptime} k{key} k{other}\r\n")
}

/// A request for one or two keys, with exptimes below this one.
fn random_request(alloc: Global, random: &mut Random, lives: u64) -> Result<String, AllocError> {
    let key = random.below(KEYS);
    let other = random.below(KEYS);
    match random.below(16) {
        0..=1 => with_number(alloc, "get", key, " k", other),
        2..=3 => format!(in alloc; "gets k{key} k{other} k{key}\r\n"),
        4..=6 => random_put(alloc, random, lives, "set", ""),
        7 => random_put(alloc, random, lives, "add", ""),
        8 => random_put(alloc, random, lives, "replace", ""),
        9 => random_cas(alloc, random, lives),
        10 => format!(in alloc; "delete k{key}\r\n"),
        11 => with_number(alloc, "incr", key, " ", other),
        12 => format!(in alloc; "append k{key} 7 9 0\r\n\r\n"),
        13 => format!(in alloc; "prepend k{key} 7 9 1\r\nv\r\n"),
        14 => match random.below(2) {
            0 => random_touch(alloc, random, lives, key),
            _ => random_get_and_touch(alloc, random, lives, (key, other)),
        },
        _ => match random.below(40) {
            0 => String::from_str(alloc, "flush_all\r\n"),
            1 => String::from_str(alloc, "flush_all 2\r\n"),
            _ => with_number(alloc, "decr", key, " ", other),
        },
    }
}

/// Both stores answer the request alike: whether they show a value.
fn check_request(
    rt: &impl Abort,
    alloc: Global,
    segmented: &mut Store,
    plain: &mut PlainStore,
    request: &str,
    turn: u64,
) -> Result<bool, NoMemory> {
    let now = 1000 + turn / 100;
    let wanted = answer(alloc, plain, now, request)?;
    let given = answer(alloc, segmented, now, request)?;
    check_same(rt, wanted.is_empty(), false, (turn, request));
    check_same(rt, given.as_slice(), wanted.as_slice(), (turn, request));
    Ok(wanted.starts_with(b"VALUE"))
}

/// One random request.
fn check_turn(
    rt: &impl Abort,
    alloc: Global,
    segmented: &mut Store,
    plain: &mut PlainStore,
    random: &mut Random,
    lives: u64,
    turn: u64,
) -> Result<bool, Fail> {
    let request = random_request(alloc, random, lives)?;
    Ok(check_request(rt, alloc, segmented, plain, request.as_str(), turn)?)
}

/// Sends 20,000 requests in 200 seconds to both, and compares the answers.
fn compare(
    rt: &impl Abort,
    alloc: Global,
    segmented: &mut Store,
    plain: &mut PlainStore,
    lives: u64,
) -> Result<(), Fail> {
    let mut random = Random::new(88_172_645_463_325_252);
    let mut shown = 0u32;
    for turn in 0..20_000u64 {
        if check_turn(rt, alloc, segmented, plain, &mut random, lives, turn)? {
            shown = shown.saturating_add(1);
        }
    }
    check_same(rt, shown > 2000, true, shown);
    Ok(())
}

fn compare_with_plain(
    rt: &impl Abort,
    alloc: Global,
    segmented: &mut Store,
    geometry: Geometry,
    lives: u64,
) -> Result<(), Fail> {
    let mut plain = PlainStore::new(alloc, geometry)?;
    compare(rt, alloc, segmented, &mut plain, lives)
}

/// The answers are the plain store's. The items that are written take some twenty times the
/// segments' bytes.
#[test]
fn nothing_is_forgotten(rt: HostRuntime) -> Result<(), Fail> {
    let geometry = Geometry::new(16_384, 8)?;
    let mut segmented = Store::new(rt.alloc(), geometry)?;
    compare_with_plain(&rt, rt.alloc(), &mut segmented, geometry, 0)
}

/// So they are where the least read segment is evicted.
#[test]
fn nothing_is_forgotten_of_what_is_read(rt: HostRuntime) -> Result<(), Fail> {
    let geometry = Geometry::new(16_384, 8)?;
    let mut segmented = Store::evicting(
        rt.alloc(),
        geometry,
        false,
        Dialect::Strict,
        Eviction::LeastRead,
        false,
    )?;
    compare_with_plain(&rt, rt.alloc(), &mut segmented, geometry, 0)
}

/// So they are with TTLs of up to 29 seconds, where deadlines are kept to the second. There are
/// more segments than keys, so there is always one without a live item.
#[test]
fn ttls_are_kept_to_the_second(rt: HostRuntime) -> Result<(), Fail> {
    let geometry = Geometry::new(16_384, 32)?;
    let mut segmented = Store::evicting(
        rt.alloc(),
        geometry,
        false,
        Dialect::Strict,
        Eviction::Oldest,
        true,
    )?;
    compare_with_plain(&rt, rt.alloc(), &mut segmented, geometry, 30)
}

/// So they are where items stand in one chain whatever their TTLs: merges keep all of them that
/// live, and none that has expired.
#[test]
fn nothing_is_forgotten_in_one_chain(rt: HostRuntime) -> Result<(), Fail> {
    let geometry = Geometry::new(16_384, 8)?;
    let mut segmented = Store::evicting(
        rt.alloc(),
        geometry,
        false,
        Dialect::Strict,
        Eviction::LeastRead,
        true,
    )?;
    compare_with_plain(&rt, rt.alloc(), &mut segmented, geometry, 30)
}
