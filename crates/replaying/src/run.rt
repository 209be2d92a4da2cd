//! `segcached replay`.

ghost use Rattle.std.specs.Prelude.{◌≡◌, ℕ, List, [], IfOk, OnOk, IfSome, map};
ghost use Rattle.std.specs.String.{string_bytes};
ghost use Rattle.std.specs.Io.KnownBytes.{Appends};
ghost use Rattle.script.specs.Clocks.{clock_at};
ghost use Rattle.script.specs.Scripts.{AreEventsOf};
ghost use Rattle.replaying.specs.Printed.{in_hexadecimal, printed_line, printed_lines, lines_from, events_of};
ghost use Rattle.replaying.specs.Printed.{IsPort, ArePorts, IsPlayedAt, ArePlayed, IsReplayStore, IsPrinted};
ghost use Rattle.replaying.specs.Replayed.{IsReplayOf};

use crate::fault::Fault;
use crate::reading::script_bytes;
use command_line::Options;
use exchange::Exchange;
use group::{Config, GroupWorker, Runtime, run_group};
use proto::{Geometry, NoMemory, Terms, Trace};
use script::{RecordingClock, ScriptClock, ScriptPort, WorkerScript, read_script};
use segcache::Store;
use std::alloc::{AllocError, Global};
use std::io::{Read, Write};
use worker::OpenGate;

/// The events of the script, by worker, and the bytes that its reads gave.
fn read_events<R: Read + Drop>(
    alloc: Global,
    options: &Options,
    script: R,
) -> Result<(Vec<WorkerScript>, Trace<u8>), Fault>
    ensures events { IfOk result (λ r. AreEventsOf options.entry.now.workers r.1.items r.0.items) }
    ensures all { IfOk result (λ r. IfSome (R.remaining script) (λ text. r.1.items ≡ text)) }
{
    let (bytes, text) = script_bytes(alloc, options, script)?;
    let workers = options.workers as usize;
    let scripts = read_script(alloc, bytes.as_slice(), workers).map_err(Fault::Script)?;
    Ok((scripts, text))
}

/// The bytes in hexadecimal, or `-` if there are none.
fn in_hexadecimal(alloc: Global, bytes: &[u8]) -> Result<String, AllocError>
    ensures { IfOk result (λ text. string_bytes text ≡ in_hexadecimal bytes.now) }
{
    if bytes.is_empty() {
        String::from_str(alloc, "-")
    } else {
        hex::encode(alloc, bytes)
    }
}

/// The line of a session: its worker, its number and the bytes that it was given.
fn line(alloc: Global, worker: usize, session: u64, given: &[u8]) -> Result<String, AllocError>
    ensures { IfOk result (λ text. string_bytes text ≡ printed_line worker session given.now) }
{
    let mut text = worker.to_string(alloc)?;
    text.push_str(" ")?;
    text.push_str(session.to_string(alloc)?.as_str())?;
    text.push_str(" ")?;
    text.push_str(in_hexadecimal(alloc, given)?.as_str())?;
    text.push_str("\n")?;
    Ok(text)
}

/// Writes the line of each session of a worker.
fn write_worker<W: Write>(
    alloc: Global,
    out: &mut W,
    worker: usize,
    port: &ScriptPort,
) -> Result<(), Fault>
    ensures lines { OnOk result (Appends (W.contents out.old) (W.contents out.new)
        (printed_lines worker port.now.player.records)) }
    ensures played { IsPlayedAt port.now }
{
    for session in port.sessions() {
        let number = session.number();
        let line = line(alloc, worker, number, port.given(number))?;
        out.write_all(line.as_bytes())
            .map_err(|_| Fault::CannotWrite)?;
    }
    Ok(())
}

/// Writes the lines of all workers, in their order.
fn write_lines<W: Write>(
    alloc: Global,
    out: &mut W,
    workers: &[GroupWorker<ScriptPort>],
) -> Result<(), Fault>
    ensures { OnOk result (Appends (W.contents out.old) (W.contents out.new) (lines_from 0 (map events_of workers.now))
        × ArePlayed workers.now) }
{
    for worker in 0..workers.len() {
        write_worker(alloc, out, worker, &workers[worker].port)?;
    }
    if out.flush().is_err() {
        return Err(Fault::CannotWrite);
    }
    Ok(())
}

/// The port of a worker of the exchange for the events of its script, with the faults that the
/// options ask for.
fn port_of(
    alloc: Global,
    options: &Options,
    geometry: Geometry,
    exchange: &Exchange,
    worker: usize,
    script: WorkerScript,
) -> ScriptPort
    ensures { IsPort geometry options.entry.now.dialect exchange.entry.now.id options.entry.now.accept
        options.entry.now.fail_give worker script result }
{
    let name = exchange.name();
    let events = script.into_events();
    let port = ScriptPort::new(alloc, geometry, options.dialect, worker, name, events);
    port.with_faults(options.accept as usize, options.fail_give)
}

/// A port of the exchange for the events of each worker.
fn ports_of(
    alloc: Global,
    options: &Options,
    geometry: Geometry,
    exchange: &Exchange,
    scripts: Vec<WorkerScript>,
) -> Result<Vec<ScriptPort>, AllocError>
    ensures { IfOk result (λ ports. ArePorts geometry options.entry.now.dialect exchange.entry.now.id
        options.entry.now.accept options.entry.now.fail_give scripts.items ports.items) }
{
    let mut ports = Vec::with_capacity(alloc, scripts.len())?;
    for script in scripts {
        let worker = ports.len();
        let port = port_of(alloc, options, geometry, exchange, worker, script);
        ports.push_reserved(port);
    }
    Ok(ports)
}

/// The clock that the options ask for. It gave no answer yet.
fn clock_of(options: &Options) -> RecordingClock
    ensures clock { result.clock ≡ clock_at options.entry.now.now options.entry.now.tick }
    ensures answers { result.answers.items ≡ [] }
{
    RecordingClock::new(ScriptClock::new(options.now, options.tick))
}

/// A new store, as the options say.
fn new_store(alloc: Global, options: &Options, geometry: Geometry) -> Result<Store, NoMemory>
    ensures { IfOk result (IsReplayStore geometry options.entry.now.update_in_place options.entry.now.dialect
        options.entry.now.eviction options.entry.now.exact_ttls) }
{
    let in_place = options.update_in_place;
    Store::evicting(
        alloc,
        geometry,
        in_place,
        options.dialect,
        options.eviction,
        options.exact_ttls,
    )
}

/// Reads the script, runs a group of workers over it, and prints what each session was given: its
/// worker, its number and the bytes, a line each, in order of worker and session. What was printed
/// before a fault stays printed.
///
/// Gives the bytes that the script's reads gave, for clauses alone.
///
/// # Errors
///
/// CannotRead if a read of the script fails; Script if it is too large or a line has a fault;
/// Exchange if the options ask for none or for more than 8 workers, or memory for the exchange is
/// refused; Group if a thread can't be started, or the group has no memory; CannotWrite if a line
/// can't be printed; NoMemory if out of memory elsewhere.
pub fn replay<H: Runtime, R: Read + Drop, W: Write>(
    rt: &H,
    alloc: Global,
    options: &Options,
    geometry: Geometry,
    script: R,
    out: &mut W,
) -> Result<Trace<u8>, Fault>
    // they are all that it had, where it tells
    ensures read { IfOk result (λ read. IfSome (R.remaining script) (λ text. read.items ≡ text)) }
    ensures printed { IfOk result (λ read. (printed : List ℕ)
        × IsReplayOf geometry options.entry.now.dialect options.entry.now.exact_ttls
        (clock_at options.entry.now.now options.entry.now.tick) options.entry.now.workers options.entry.now.fail_give read.items printed
        × Appends (W.contents out.old) (W.contents out.new) printed) }

    // it is a group's run over ports with the faults that the options ask for, and over a store as
    // they say
    ensures ran { IfOk result (λ read. (printed : List ℕ)
        × IsPrinted geometry options.entry.now.update_in_place options.entry.now.dialect options.entry.now.eviction
        options.entry.now.exact_ttls
        (clock_at options.entry.now.now options.entry.now.tick) options.entry.now.workers options.entry.now.accept
        options.entry.now.fail_give read.items printed
        × Appends (W.contents out.old) (W.contents out.new) printed) }
{
    let (scripts, text) = read_events(alloc, options, script)?;
    let config = Config {
        terms: Terms {
            geometry,
            system_clock: false,
            may_refuse: true,
        },
        dialect: options.dialect,
        spin: None,
        output_budget: None,
        storage: options.storage,
    };
    let exchange = Exchange::new(alloc, scripts.len(), config.terms)?;
    let ports = ports_of(alloc, options, geometry, &exchange, scripts)?;
    let clock = clock_of(options);
    let store = new_store(alloc, options, geometry)?;
    let report = run_group(rt, alloc, ports, exchange, config, store, clock, &OpenGate)?;
    write_lines(alloc, out, report.workers.as_slice())?;
    Ok(text)
}
