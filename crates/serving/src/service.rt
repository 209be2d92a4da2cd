//! `segcached serve`.

ghost use Rattle.std.specs.Prelude.{◌≡◌, ℕ, List, length, IfOk, OnOk};
ghost use Rattle.std.specs.String.{string_bytes};
ghost use Rattle.std.specs.Io.KnownBytes.{Appends};
ghost use Rattle.serving.specs.Listening.{path_line, IsAddressLine, IsListeningLine, IsAnnounced};
ghost use Rattle.proto.specs.ClockAnswers.{ClockLog};
ghost use Rattle.worker_port.specs.Giving.{by_system_clock};
ghost use Rattle.net.specs.Traces.{trace_of, IsNew, TellsNothing};
ghost use Rattle.serving.specs.Runs.{AreNewPorts, IsSetUp, IsServed};

use crate::fault::Fault;
use crate::memory::{group_limit, most_bytes};
use crate::operator::{Operator, Watch};
use command_line::{ServeOptions, on_one_line, options_in_force};
use exchange::Exchange;
use group::{Config, GroupReport, Runtime, run_group};
use net::{Hand, ListenReport, Listener, MioPort, NetFault, Owner, StreamSender, is_path};
use proto::{Geometry, Storage, SystemClock, Terms};
use segcache::Store;
use std::alloc::Global;
use std::fs::Files;
use std::io::{Eprint, Write};
use std::net::Net;
use std::sync::Wait;
use std::thread::{self, JoinHandle};
use std::time;
use worker::OpenGate;

/// What serving asks of the system.
pub trait System: Runtime + Net + Files + Eprint + Copy + Drop + Send + 'static {}

impl<H: Runtime + Net + Files + Eprint + Copy + Drop + Send + 'static> System for H {}

/// What a served group leaves.
pub type Report<H> = GroupReport<MioPort<H>, SystemClock<H>>;

/// That it can't listen at the address, for this reason.
fn cannot_listen(alloc: Global, addr: &str, fault: NetFault) -> Fault {
    if matches!(fault, NetFault::NoMemory) {
        return Fault::NoMemory;
    }
    match on_one_line(alloc, addr) {
        Ok(addr) => Fault::CannotListen(addr, fault),
        Err(_) => Fault::NoMemory,
    }
}

/// For how many microseconds threads look for work before they sleep. No time is given if workers
/// execute requests.
fn spin_of(options: &ServeOptions) -> Option<u32> {
    match options.storage {
        Storage::Thread => options.spin,
        Storage::Workers => None,
    }
}

/// The bytes of output that each worker may keep.
fn output_budget_of(options: &ServeOptions) -> Option<usize> {
    let bytes = options.output_memory?;
    Some((bytes / options.workers.max(1)) as usize)
}

/// Sets how long a session of the port may be idle, and how long the port looks on after an event.
fn set_limits<H: Wait + Net + time::Clock + Copy + Drop>(
    port: &mut MioPort<H>,
    options: &ServeOptions,
)
    ensures { TellsNothing port.old.served port.new.served }
{
    if let Some(seconds) = options.idle {
        port.set_idle_limit(seconds);
    }
    if let Some(micros) = spin_of(options) {
        port.set_spin(micros);
    }
}

/// The listener's end of the hand of a worker of the exchange, which takes as many streams as it
/// opens sessions in a run, and its port, with the limits of the options.
fn make_port<H: Wait + Net + time::Clock + Copy + Drop>(
    rt: H,
    alloc: Global,
    geometry: Geometry,
    exchange: &Exchange,
    options: &ServeOptions,
    worker: usize,
) -> Result<(StreamSender, MioPort<H>), NetFault>
    ensures { IfOk result (λ made. IsNew geometry options.entry.now.dialect worker exchange.entry.now.id
        (trace_of made.1.served)) }
{
    let dialect = options.dialect;
    let (mut of_listener, mut of_port) = Hand::pair(&rt, alloc, dialect.most_sessions())?;
    if let Some(connections) = options.connections {
        of_listener.set_most_open(connections as usize);
        of_port.set_most_open(connections as usize);
    }
    let owner = Owner {
        geometry,
        dialect,
        worker,
    };
    let mut port = MioPort::new(rt, alloc, of_port, owner, exchange.name())?;
    set_limits(&mut port, options);
    Ok((of_listener, port))
}

/// A port for each worker of the exchange, and the listener's ends of their hands.
fn make_ports<H: Wait + Net + time::Clock + Copy + Drop>(
    rt: H,
    alloc: Global,
    geometry: Geometry,
    exchange: &Exchange,
    options: &ServeOptions,
) -> Result<(Vec<StreamSender>, Vec<MioPort<H>>), NetFault>
    ensures new { IfOk result (λ made. AreNewPorts geometry options.entry.now.dialect exchange.entry.now.id
        made.1.items) }
    ensures count { IfOk result (λ made. length made.1.items ≡ options.entry.now.workers) }
{
    let workers = options.workers as usize;
    let mut hands = Vec::with_capacity(alloc, workers)?;
    let mut ports = Vec::with_capacity(alloc, workers)?;
    for worker in 0..workers {
        let (hand, port) = make_port(rt, alloc, geometry, exchange, options, worker)?;
        hands.push_reserved(hand);
        ports.push_reserved(port);
    }
    Ok((hands, ports))
}

/// The line of a path.
fn path_line(alloc: Global, path: &str) -> Result<String, Fault>
    ensures { IfOk result (λ line. string_bytes line ≡ path_line path.now) }
{
    let mut line = String::from_str(alloc, "listening on ")?;
    line.push_str(path)?;
    line.push_str("\n")?;
    Ok(line)
}

/// The line of an address, with the real port after its last colon.
fn address_line(alloc: Global, listen: &str, port: u16) -> Result<String, Fault>
    ensures { IfOk result (λ line. IsAddressLine listen.now port (string_bytes line)) }
{
    let Some((host, _)) = listen.rsplit_once(':') else {
        return Err(cannot_listen(alloc, listen, NetFault::BadAddress));
    };
    let mut line = String::from_str(alloc, "listening on ")?;
    line.push_str(host)?;
    line.push_str(":")?;
    line.push_str(port.to_string(alloc)?.as_str())?;
    line.push_str("\n")?;
    Ok(line)
}

/// The line of the options' first address.
fn listening_line(alloc: Global, options: &ServeOptions, port: u16) -> Result<String, Fault>
    ensures { IfOk result (λ line. IsListeningLine (string_bytes options.entry.now.listen) port (string_bytes line)) }
{
    let listen = options.listen.as_str();
    if is_path(listen) {
        return path_line(alloc, listen);
    }
    address_line(alloc, listen, port)
}

/// Tells the operator the options in force and the memory that they may take, and prints that it
/// listens, with the real port.
fn announce<H: Eprint + Net + Files + Drop, W: Write>(
    rt: H,
    alloc: Global,
    options: &ServeOptions,
    geometry: Geometry,
    port: u16,
    out: &mut W,
) -> Result<(), Fault>
    ensures { OnOk result ((line : List ℕ) × IsListeningLine (string_bytes options.entry.now.listen) port line
        × Appends (W.contents out.old) (W.contents out.new) line) }
{
    let in_force = options_in_force(alloc, options)?;
    let limit = group_limit(&rt, alloc);
    let mut operator = Operator::new(rt, alloc);
    operator.serves_with(in_force.as_str());
    operator.may_take(most_bytes(options, geometry), limit);
    let line = listening_line(alloc, options, port)?;
    if out.write_all(line.as_bytes()).is_err() || out.flush().is_err() {
        return Err(Fault::CannotWrite);
    }
    Ok(())
}

/// The terms of what is served: moments are the system clock's, and a write is refused no memory.
fn terms_of(geometry: Geometry) -> Terms
    ensures { result ≡ by_system_clock geometry }
{
    Terms {
        geometry,
        system_clock: true,
        may_refuse: false,
    }
}

/// What is made before the line is printed: the listener with its ends of the hands, the exchange,
/// its workers' ports and the store.
#[derive(Drop)]
struct Opened<H: Drop> {
    listener: Listener,
    hands: Vec<StreamSender>,
    exchange: Exchange,
    ports: Vec<MioPort<H>>,
    store: Store,
}

/// Listens on the options' addresses.
fn listen<H: Net + Files>(
    rt: &H,
    alloc: Global,
    options: &ServeOptions,
) -> Result<Listener, Fault> {
    let (first, mode) = (options.listen.as_str(), options.socket_mode);
    let mut listener = match Listener::bind(rt, alloc, first, mode) {
        Ok(listener) => listener,
        Err(fault) => return Err(cannot_listen(alloc, first, fault)),
    };
    for addr in &options.also {
        if let Err(fault) = listener.also(rt, addr.as_str(), mode) {
            return Err(cannot_listen(alloc, addr.as_str(), fault));
        }
    }
    Ok(listener)
}

/// Listens on the options' addresses, and makes the rest.
fn open<H: Wait + Net + Files + time::Clock + Copy + Drop>(
    rt: H,
    alloc: Global,
    options: &ServeOptions,
    geometry: Geometry,
    seed: u64,
) -> Result<Opened<H>, Fault>
    ensures { IfOk result (λ opened. IsSetUp geometry seed options.entry.now opened.exchange opened.ports.items
        opened.store) }
{
    let listener = listen(&rt, alloc, options)?;
    let exchange = Exchange::new(alloc, options.workers as usize, terms_of(geometry))?;
    let (hands, ports) = match make_ports(rt, alloc, geometry, &exchange, options) {
        Ok(made) => made,
        Err(fault) => return Err(cannot_listen(alloc, options.listen.as_str(), fault)),
    };
    let store = Store::seeded(
        alloc,
        geometry,
        0,
        seed,
        options.update_in_place,
        options.dialect,
        options.eviction,
        options.exact_ttls,
    )?;
    Ok(Opened {
        listener,
        hands,
        exchange,
        ports,
        store,
    })
}

/// Runs a worker of the exchange for each port over the store, as the options say, until all have
/// ended.
fn run_workers<H: Runtime + Copy + Drop + Send + 'static>(
    rt: H,
    alloc: Global,
    ports: Vec<MioPort<H>>,
    exchange: Exchange,
    store: Store,
    geometry: Geometry,
    _seed: u64,
    options: &ServeOptions,
) -> Result<Report<H>, Fault>
    requires { IsSetUp geometry _seed options.now exchange ports.items store }
    ensures { IfOk result (λ report. IsServed geometry _seed options.entry.now report) }
{
    let config = Config {
        terms: terms_of(geometry),
        dialect: options.dialect,
        spin: spin_of(options),
        output_budget: output_budget_of(options),
        storage: options.storage,
    };
    let clock = SystemClock::new(rt);
    let report = run_group(&rt, alloc, ports, exchange, config, store, clock, &OpenGate)?;
    Ok(report)
}

/// Accepts streams in a thread, up to the options' limit. The address is free again once that
/// thread has ended.
fn start_listening<H: Runtime + Net + Eprint + Copy + Drop + Send + 'static>(
    rt: H,
    alloc: Global,
    mut listener: Listener,
    mut hands: Vec<StreamSender>,
    options: &ServeOptions,
) -> Result<JoinHandle<ListenReport>, Fault> {
    let watch = Watch::new(&rt, alloc);
    let (limit, is_quiet) = (options.sessions, options.quiet);
    thread::spawn(&rt, move || {
        os::set_thread_name(b"listener");
        let mut operator = Operator {
            rt,
            watch,
            is_quiet,
        };
        listener.run_heard(&rt, hands.as_mut_slice(), limit, &mut operator)
    })
    .map_err(|_| Fault::NoThread)
}

/// Listens on the options' address, prints it, and serves: a thread accepts streams, a group of
/// workers serves them, and moments are Unix seconds. Keys are hashed with the seed. With a number
/// of sessions it accepts that many streams, and ends once their sessions have ended; else it goes
/// on until each worker was given as many streams as it opens in a run, and ends in the same way.
/// It leaves what the group left.
///
/// # Errors
///
/// CannotListen if the address is none, can't be bound or can't be watched; CannotWrite if the line
/// of the address can't be printed; NoThread if the thread that accepts can't be started; Exchange
/// if out of memory for the exchange; Group if the group doesn't run, since a thread of it can't be
/// started or it has no memory; NoMemory if memory is missing elsewhere.
pub fn serve<H: System, W: Write>(
    rt: H,
    alloc: Global,
    options: &ServeOptions,
    geometry: Geometry,
    seed: u64,
    out: &mut W,
) -> Result<Report<H>, Fault>
    ensures announced { OnOk result (IsAnnounced (string_bytes options.entry.now.listen)
        (W.contents out.old) (W.contents out.new)) }
    ensures served { IfOk result (λ report. IsServed geometry seed options.entry.now report) }
{
    let Opened {
        listener,
        hands,
        exchange,
        ports,
        store,
    } = open(rt, alloc, options, geometry, seed)?;
    announce(rt, alloc, options, geometry, listener.port(), out)?;
    let listening = start_listening(rt, alloc, listener, hands, options)?;
    let report = run_workers(rt, alloc, ports, exchange, store, geometry, seed, options)?;
    listening.join(&rt);
    Operator::new(rt, alloc).has_ended();
    Ok(report)
}

/// Serves as `serve` does, and drops what the group left.
///
/// # Errors
///
/// As of `serve`.
pub fn serve_to_end<H: System, W: Write>(
    rt: H,
    alloc: Global,
    options: &ServeOptions,
    geometry: Geometry,
    seed: u64,
    out: &mut W,
) -> Result<(), Fault>
    ensures announced { OnOk result (IsAnnounced (string_bytes options.entry.now.listen)
        (W.contents out.old) (W.contents out.new)) }
    // there was such a report
    ensures served { OnOk result ((report : GroupReport (MioPort H) ClockLog)
        × IsServed geometry seed options.entry.now report) }
{
    serve(rt, alloc, options, geometry, seed, out)?;
    Ok(())
}
