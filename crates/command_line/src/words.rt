//! Reads the words after the program's name.

ghost use Rattle.std.specs.Prelude.{◌≡◌, ◌≤◌, IfOk, IfSome, Err};
ghost use Rattle.clap.specs.Values.{kind_of};
ghost use Rattle.clap.specs.declared.error.ErrorKind.TheVariants as clap;
ghost use Rattle.std.specs.IoError.{error_kind};
ghost use Rattle.std.specs.declared.io.ErrorKind.TheVariants as io;
ghost use Rattle.command_line.specs.declared.words.WordsFault.TheVariants as words;
ghost use Rattle.command_line.specs.Words.{IsJob, IsReplayInRange, IsServeInRange, IsInRange, IsEnoughOutput, KeepsBlocks};

use crate::commands::{
    EVICT, EVICTIONS, EXACT_TTLS, FILE, LENIENT, LISTEN, QUIET, SOCKET_MODE, STORAGE, STORAGES,
    UPDATE_IN_PLACE, command,
};
use crate::number_option::{
    ACCEPT, CONNECTIONS, FAIL_GIVE, IDLE, LEAST_OUTPUT, MAX_ITEM_SIZE, NOW, NumberOption,
    OUTPUT_MEMORY, SEGMENT_SIZE, SEGMENTS, SESSIONS, SPIN, TICK, WORKERS,
};
use crate::options::{Job, Options, ServeOptions};
use crate::version::PROVED_WITH;
use clap::ArgMatches;
use clap::error::ErrorKind;
use proto::{Dialect, Eviction, ITEMS_PER_SEGMENT, Storage};
use std::alloc::{AllocError, Global};
use std::io;
use thiserror::Error;

/// The most addresses of a server.
const MAX_ADDRESSES: usize = 8;

/// Why the words ask for nothing.
#[derive(Debug, Drop, Error)]
pub enum WordsFault {
    /// The text to print on standard error, with its line ends.
    #[error("{0}")]
    BadWords(String),
    #[error("out of memory")]
    NoMemory,
}

impl From<AllocError> for WordsFault {
    ghost from_gives = { λ error fault. fault ≡ words.NoMemory };

    fn from(_error: AllocError) -> WordsFault {
        WordsFault::NoMemory
    }
}

/// The option's number, if it is in the option's range.
fn in_range(alloc: Global, option: &NumberOption, found: u64) -> Result<u64, WordsFault>
    ensures { IfOk result (IsInRange option.now) }
{
    let (name, value_name) = (option.name, option.value_name);
    let (least, most) = (option.least, option.most);
    if found < least || most < found {
        return Err(WordsFault::BadWords(format!(in alloc;
            "error: invalid value '{found}' for '--{name} <{value_name}>': {found} is not in {least}..={most}\n"
        )?));
    }
    Ok(found)
}

/// The option's number, which the words give or which is its default; None if there is neither.
fn number_or_none(
    alloc: Global,
    matches: &ArgMatches<'_>,
    option: &NumberOption,
) -> Result<Option<u64>, WordsFault>
    ensures { IfOk result (λ found. IfSome found (IsInRange option.now)) }
{
    match matches.get_one::<u64>(option.name) {
        Some(found) => Ok(Some(in_range(alloc, option, found)?)),
        None => Ok(None),
    }
}

/// The number of an option that has a default.
fn number(alloc: Global, matches: &ArgMatches<'_>, option: &NumberOption) -> Result<u64, WordsFault>
    ensures { IfOk result (IsInRange option.now) }
{
    in_range(
        alloc,
        option,
        matches.get_one::<u64>(option.name).unwrap_or(0),
    )
}

/// The dialect of the lines. Leniently data blocks are kept that have no more bytes than the
/// largest item, which an item of any key and value has.
fn dialect(matches: &ArgMatches<'_>, segment_size: u64, largest_item: Option<u64>) -> Dialect
    requires size { segment_size ≤ 1048576 }
    requires item { IfSome largest_item (λ n. n ≤ 1048512) }
    ensures { KeepsBlocks result segment_size largest_item }
{
    if !matches.get_flag(LENIENT) {
        return Dialect::Strict;
    }
    Dialect::Lenient(match largest_item {
        Some(limit) => limit as u32,
        None => segment_size as u32 / ITEMS_PER_SEGMENT,
    })
}

/// What the option's value asks for, one of these.
fn chosen<T: Copy + Drop>(
    alloc: Global,
    matches: &ArgMatches<'_>,
    name: &str,
    choices: &[(&str, T)],
) -> Result<T, WordsFault> {
    let word = matches.get_str(name).unwrap_or("");
    for choice in choices {
        let (value, asked) = *choice;
        if value == word {
            return Ok(asked);
        }
    }
    Err(WordsFault::BadWords(format!(in alloc; "error: invalid value '{word}' for '--{name}'\n")?))
}

fn replay_options(alloc: Global, matches: &ArgMatches<'_>) -> Result<Options, WordsFault>
    ensures { IfOk result IsReplayInRange }
{
    let segment_size = number(alloc, matches, &SEGMENT_SIZE)?;
    let max_item_size = number_or_none(alloc, matches, &MAX_ITEM_SIZE)?;
    Ok(Options {
        workers: number(alloc, matches, &WORKERS)?,
        segment_size,
        segments: number(alloc, matches, &SEGMENTS)?,
        max_item_size,
        now: number(alloc, matches, &NOW)?,
        tick: number(alloc, matches, &TICK)?,
        accept: number_or_none(alloc, matches, &ACCEPT)?.unwrap_or(0),
        fail_give: number_or_none(alloc, matches, &FAIL_GIVE)?.unwrap_or(0),
        dialect: dialect(matches, segment_size, max_item_size),
        update_in_place: matches.get_flag(UPDATE_IN_PLACE),
        eviction: chosen(alloc, matches, EVICT, &EVICTIONS)?,
        storage: chosen(alloc, matches, STORAGE, &STORAGES)?,
        exact_ttls: matches.get_flag(EXACT_TTLS),
        file: String::from_str(alloc, matches.get_str(FILE).unwrap_or(""))?,
    })
}

/// The mode that the octal digits say.
fn socket_mode(alloc: Global, matches: &ArgMatches<'_>) -> Result<u32, WordsFault>
    ensures { IfOk result (λ mode. mode ≤ 511) }
{
    let text = matches.get_str(SOCKET_MODE).unwrap_or("");
    match u32::from_str_radix(text, 8) {
        Ok(mode) if mode <= 0o777 => Ok(mode),
        _ => Err(WordsFault::BadWords(format!(in alloc;
            "error: invalid value '{text}' for '--socket-mode <MODE>': {text} is not in 0..=777, in octal\n"
        )?)),
    }
}

/// The bytes of output that all of so many workers may keep; None if they aren't given.
fn output_memory(
    alloc: Global,
    matches: &ArgMatches<'_>,
    workers: u64,
) -> Result<Option<u64>, WordsFault>
    ensures { IfOk result (λ found. IfSome found (IsEnoughOutput workers)) }
{
    let Some(bytes) = number_or_none(alloc, matches, &OUTPUT_MEMORY)? else {
        return Ok(None);
    };
    if bytes / LEAST_OUTPUT < workers {
        return Err(WordsFault::BadWords(format!(in alloc;
            "error: invalid value '{bytes}' for '--output-memory <BYTES>': {bytes} is less than {LEAST_OUTPUT} for each of {workers} workers
"
        )?));
    }
    Ok(Some(bytes))
}

/// The addresses after the first one.
fn further_addresses(alloc: Global, given: &[&str]) -> Result<Vec<String>, WordsFault> {
    if given.len() > MAX_ADDRESSES {
        return Err(WordsFault::BadWords(format!(in alloc;
            "error: --listen may be given {MAX_ADDRESSES} times at most\n"
        )?));
    }
    let mut further = Vec::with_capacity(alloc, MAX_ADDRESSES)?;
    for addr in given.iter().skip(1) {
        if further.push(String::from_str(alloc, addr)?).is_err() {
            return Err(WordsFault::NoMemory);
        }
    }
    Ok(further)
}

fn serve_options(alloc: Global, matches: &ArgMatches<'_>) -> Result<ServeOptions, WordsFault>
    ensures { IfOk result IsServeInRange }
{
    let segment_size = number(alloc, matches, &SEGMENT_SIZE)?;
    let max_item_size = number_or_none(alloc, matches, &MAX_ITEM_SIZE)?;
    let workers = number(alloc, matches, &WORKERS)?;
    Ok(ServeOptions {
        workers,
        connections: number_or_none(alloc, matches, &CONNECTIONS)?,
        output_memory: output_memory(alloc, matches, workers)?,
        sessions: number_or_none(alloc, matches, &SESSIONS)?,
        idle: number_or_none(alloc, matches, &IDLE)?,
        spin: number_or_none(alloc, matches, &SPIN)?.map(|micros| micros as u32),
        quiet: matches.get_flag(QUIET),
        segment_size,
        segments: number(alloc, matches, &SEGMENTS)?,
        max_item_size,
        dialect: dialect(matches, segment_size, max_item_size),
        update_in_place: matches.get_flag(UPDATE_IN_PLACE),
        eviction: chosen(alloc, matches, EVICT, &EVICTIONS)?,
        storage: chosen(alloc, matches, STORAGE, &STORAGES)?,
        exact_ttls: matches.get_flag(EXACT_TTLS),
        listen: String::from_str(alloc, matches.get_str(LISTEN).unwrap_or(""))?,
        also: further_addresses(alloc, matches.get_strs(LISTEN).unwrap_or(&[]))?,
        socket_mode: socket_mode(alloc, matches)?,
    })
}

/// What an error of the words' parser means: a text to show, bad words, or no memory.
fn parse_fault(alloc: Global, error: &clap::Error) -> Result<Job, WordsFault>
    ensures job { IfOk result IsJob }
    ensures memory { kind_of error.now ≡ clap.OutOfMemory → result ≡ Err words.NoMemory }
{
    if error.kind() == ErrorKind::OutOfMemory {
        return Err(WordsFault::NoMemory);
    }
    let mut text = error.to_string(alloc)?;
    if error.use_stderr() {
        return Err(WordsFault::BadWords(text));
    }
    if error.kind() == ErrorKind::DisplayVersion {
        text.push_str(PROVED_WITH)?;
    }
    Ok(Job::Help(text))
}

/// Why the words after the program's name can't be read: memory is missing, or a word isn't UTF-8.
pub fn unreadable_words(alloc: Global, error: &io::Error) -> WordsFault
    ensures { error_kind error.now ≡ io.OutOfMemory → result ≡ words.NoMemory }
{
    if error.kind() == io::ErrorKind::OutOfMemory {
        return WordsFault::NoMemory;
    }
    match String::from_str(alloc, "error: a word isn't UTF-8\n") {
        Ok(text) => WordsFault::BadWords(text),
        Err(_) => WordsFault::NoMemory,
    }
}

fn job_of(alloc: Global, matches: &ArgMatches<'_>) -> Result<Job, WordsFault>
    ensures { IfOk result IsJob }
{
    match matches.subcommand() {
        Some(("serve", serve)) => Ok(Job::Serve(serve_options(alloc, serve)?)),
        Some((_, replay)) => Ok(Job::Replay(replay_options(alloc, replay)?)),
        None => Err(WordsFault::BadWords(String::new(alloc))),
    }
}

/// What the words after the program's name ask for.
///
/// # Errors
///
/// BadWords, with the text to print, if the words ask for no job or give an option a value that it
/// can't have; NoMemory if memory is missing.
pub fn parse_words(alloc: Global, words: &[String]) -> Result<Job, WordsFault>
    ensures { IfOk result IsJob }
{
    let command = command(alloc)?;
    match command.try_get_matches_from(words) {
        Ok(matches) => job_of(alloc, &matches),
        Err(error) => parse_fault(alloc, &error),
    }
}
