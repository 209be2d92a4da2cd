//! The commands and their options, as they are shown and read.

use crate::number_option::{NumberOption, REPLAY_OPTIONS, SERVE_OPTIONS, WORKERS};
use clap::builder::ValueParser;
use clap::{Arg, ArgAction, Command};
use proto::{Eviction, Storage, VERSION};
use std::alloc::{AllocError, Global};

/// The names of the options that have no number.
pub(crate) const FILE: &str = "file";

pub(crate) const LISTEN: &str = "listen";

pub(crate) const SOCKET_MODE: &str = "socket-mode";

pub(crate) const LENIENT: &str = "lenient";

pub(crate) const UPDATE_IN_PLACE: &str = "update-in-place";

/// The name that this option had before.
const COUNTERS_IN_PLACE: &str = "counters-in-place";

pub(crate) const EVICT: &str = "evict";

pub(crate) const EXACT_TTLS: &str = "exact-ttls";

pub(crate) const STORAGE: &str = "storage";

pub(crate) const QUIET: &str = "quiet";

/// The values of `--storage`, and what they ask for. The first is the default.
pub(crate) const STORAGES: [(&str, Storage); 2] = [
    (BY_THREAD, Storage::Thread),
    (BY_WORKERS, Storage::Workers),
];

pub(crate) const BY_THREAD: &str = "thread";

const BY_WORKERS: &str = "workers";

/// The value of `--storage` that asks for this.
pub(crate) fn storage_word(storage: Storage) -> &'static str {
    match storage {
        Storage::Thread => BY_THREAD,
        Storage::Workers => BY_WORKERS,
    }
}

/// The values of `--evict`, and what they ask for. The first is the default.
pub(crate) const EVICTIONS: [(&str, Eviction); 2] = [
    (OLDEST, Eviction::Oldest),
    (LEAST_READ, Eviction::LeastRead),
];

pub(crate) const OLDEST: &str = "oldest";

const LEAST_READ: &str = "least-read";

/// The value of `--evict` that asks for this.
pub(crate) fn eviction_word(eviction: Eviction) -> &'static str {
    match eviction {
        Eviction::Oldest => OLDEST,
        Eviction::LeastRead => LEAST_READ,
    }
}

const LENIENT_HELP: &str =
    "Take what many clients send: spaces before a line's end, lines of up to 32768 bytes in place of 2048, delete with a time of 0, and the commands touch, append, prepend, stats, version and verbosity";

const UPDATE_IN_PLACE_HELP: &str =
    "incr, decr, append and prepend change a value where it stands if the new one fits there, so that it keeps its TTL";

const EXACT_TTLS_HELP: &str =
    "Items live to the second as long as their TTLs say: each keeps its own deadline, and not its segment's";

const STORAGE_HELP: &str =
    "Who executes requests: the storage thread, or the workers, which then wake no thread";

const LISTEN_HELP: &str =
    "An IP address and a port, where port 0 is any free one; or unix: and a path. It may be given eight times";

const QUIET_HELP: &str =
    "Write no line on standard error for connections that are closed for what they sent, for silence or for memory";

const EVICT_HELP: &str =
    "Which segments are merged or evicted: the oldest, or of the first third those whose items were read least";

const REPLAY_HELP: &str = "A script has a line for each event, with single spaces between its words:
  open W S      session S begins at worker W
  send W S HEX  its bytes come, in hexadecimal
  gone W S      its peer has gone
Workers are counted from 0. A session that begins has a number above those before it at its worker, from 1 on.

For each session that was opened, in order of worker and session, the line `W S HEX` is printed, where HEX is all that the session was given, or `-` where that is nothing.

Exit status: 0 done, 1 a fault (one line on standard error), 2 bad words";

const SERVE_HELP: &str =
    "The first line on standard output is `listening on ADDR`, with the first address and its real port. The first line on standard error has all options that are in force.

Exit status: 0 done, 1 a fault (the last line on standard error), 2 wrong options, 3 the address cannot be had";

fn number_option<'a>(alloc: Global, option: &NumberOption) -> Arg<'a> {
    Arg::new(alloc, option.name)
        .long(option.name)
        .value_name(option.value_name)
        .help(option.help)
        .value_parser(ValueParser::unsigned(0, u64::MAX))
        .default_values(option.default)
}

/// The option of how many workers run, with this default.
fn workers<'a>(alloc: Global, default: &'a [&'a str]) -> Arg<'a> {
    number_option(alloc, &WORKERS).default_values(default)
}

/// An option that has no value.
fn flag<'a>(alloc: Global, name: &'static str, help: &'static str) -> Arg<'a> {
    Arg::new(alloc, name)
        .long(name)
        .action(ArgAction::SetTrue)
        .help(help)
}

fn evict<'a>(alloc: Global) -> Arg<'a> {
    Arg::new(alloc, EVICT)
        .long(EVICT)
        .value_name("RULE")
        .help(EVICT_HELP)
        .value_parser(ValueParser::Names(&[OLDEST, LEAST_READ]))
        .default_values(&[OLDEST])
}

fn storage<'a>(alloc: Global) -> Arg<'a> {
    Arg::new(alloc, STORAGE)
        .long(STORAGE)
        .value_name("THREADS")
        .help(STORAGE_HELP)
        .value_parser(ValueParser::Names(&[BY_THREAD, BY_WORKERS]))
        .default_values(&[BY_THREAD])
}

/// The command with these options, and with those that both jobs have.
fn with_options<'a>(
    alloc: Global,
    mut command: Command<'a>,
    options: &[NumberOption],
) -> Result<Command<'a>, AllocError> {
    for option in options {
        command = command.arg(number_option(alloc, option))?;
    }
    let in_place = flag(alloc, UPDATE_IN_PLACE, UPDATE_IN_PLACE_HELP);
    let command = command.arg(in_place.alias(COUNTERS_IN_PLACE)?)?;
    let command = command.arg(evict(alloc))?;
    let command = command.arg(storage(alloc))?;
    let command = command.arg(flag(alloc, EXACT_TTLS, EXACT_TTLS_HELP))?;
    command.arg(flag(alloc, LENIENT, LENIENT_HELP))
}

fn replay<'a>(alloc: Global) -> Result<Command<'a>, AllocError> {
    let file = Arg::new(alloc, FILE)
        .value_name("FILE")
        .help("The script")
        .required(true);
    let command = Command::new(alloc, "replay")
        .about("Runs a script and prints what each session was given")
        .override_usage("segcached replay [OPTIONS] <FILE>")
        .after_help(REPLAY_HELP);
    let command = command.arg(file)?.arg(workers(alloc, &["1"]))?;
    with_options(alloc, command, &REPLAY_OPTIONS)
}

fn serve<'a>(alloc: Global) -> Result<Command<'a>, AllocError> {
    let listen = Arg::new(alloc, LISTEN)
        .long(LISTEN)
        .value_name("ADDR")
        .help(LISTEN_HELP)
        .action(ArgAction::Append)
        .required(true);
    let socket_mode = Arg::new(alloc, SOCKET_MODE)
        .long(SOCKET_MODE)
        .value_name("MODE")
        .help("The mode of the files of sockets, in octal")
        .default_values(&["0700"]);
    let command = Command::new(alloc, "serve")
        .about("Listens on addresses and serves")
        .override_usage("segcached serve [OPTIONS] --listen <ADDR>")
        .after_help(SERVE_HELP);
    let command = command.arg(listen)?.arg(socket_mode)?;
    let command = command.arg(workers(alloc, &["2"]))?;
    let command = command.arg(flag(alloc, QUIET, QUIET_HELP))?;
    with_options(alloc, command, &SERVE_OPTIONS)
}

/// The command of all words.
pub(crate) fn command<'a>(alloc: Global) -> Result<Command<'a>, AllocError> {
    let command = Command::new(alloc, "segcached")
        .about("A cache server: memcached's text protocol over Segcache's segments")
        .version(VERSION)
        .no_binary_name(true)
        .subcommand_required(true);
    let command = command.subcommand(replay(alloc)?)?;
    command.subcommand(serve(alloc)?)
}
