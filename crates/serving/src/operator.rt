//! What an operator is told while it serves.

use crate::closing_text::ClosingText;
use crate::memory::mebibytes;
use crate::usage::processor_times;
use mio::unix::SourceFd;
use mio::{Events, Interest, Poll, Token};
use net::{Closing, Notices, ProcessorTimes};
use std::alloc::Global;
use std::io::Eprint;
use std::net::Net;
use std::os::fd::RawFd;
use std::time::Duration;

const STANDARD_ERROR: RawFd = 2;

/// Looks whether standard error takes a line at once.
#[derive(Drop)]
pub(crate) struct Watch {
    poll: Poll,
    events: Events,
}

impl Watch {
    /// None if standard error can't be watched, as where it is a file, which keeps no writer
    /// waiting.
    pub(crate) fn new<H: Net>(rt: &H, alloc: Global) -> Option<Watch> {
        let poll = Poll::new(rt).ok()?;
        let events = Events::with_capacity(alloc, 1).ok()?;
        poll.registry()
            .register(&mut SourceFd(&STANDARD_ERROR), Token(0), Interest::WRITABLE)
            .ok()?;
        Some(Watch { poll, events })
    }

    /// A pipe that takes anything takes at least 4,096 bytes. It is registered anew, since a poll
    /// tells only of what has changed.
    fn takes_a_line(&mut self) -> bool {
        let registered = self.poll.registry().reregister(
            &mut SourceFd(&STANDARD_ERROR),
            Token(0),
            Interest::WRITABLE,
        );
        registered.is_ok()
            && self
                .poll
                .poll(&mut self.events, Some(Duration::ZERO))
                .is_ok()
            && !self.events.is_empty()
    }
}

/// Tells the operator on standard error, a line each. It never waits: a line that standard error
/// doesn't take at once is dropped.
#[derive(Drop)]
pub(crate) struct Operator<H: Drop> {
    pub(crate) rt: H,
    pub(crate) watch: Option<Watch>,
    /// Tells of no connections that were closed.
    pub(crate) is_quiet: bool,
}

impl<H: Eprint + Net + Drop> Operator<H> {
    pub(crate) fn new(rt: H, alloc: Global) -> Operator<H> {
        let watch = Watch::new(&rt, alloc);
        Operator {
            rt,
            watch,
            is_quiet: false,
        }
    }
}

impl<H: Eprint + Drop> Operator<H> {
    fn can_write(&mut self) -> bool {
        match &mut self.watch {
            Some(watch) => watch.takes_a_line(),
            None => true,
        }
    }

    /// Tells with which options it serves.
    pub(crate) fn serves_with(&mut self, options: &str) {
        if self.can_write() {
            let _ = eprintln!(self.rt; "segcached: {options}");
        }
    }

    /// Tells how much memory it may take at most, and warns if its control group has a limit below
    /// that.
    pub(crate) fn may_take(&mut self, most: u64, limit: Option<u64>) {
        let most_mebibytes = mebibytes(most);
        if self.can_write() {
            let _ = eprintln!(self.rt;
                "segcached: takes about {most_mebibytes} MiB of memory at most"
            );
        }
        if let Some(limit) = limit {
            if limit < most && self.can_write() {
                let limit = mebibytes(limit);
                let _ = eprintln!(self.rt;
                    "segcached: warning: its control group may have {limit} MiB, so the kernel may kill it"
                );
            }
        }
    }

    /// Tells that it has ended.
    pub(crate) fn has_ended(&mut self) {
        if self.can_write() {
            let _ = eprintln!(self.rt; "serving has ended");
        }
    }
}

impl<H: Eprint + Drop> Notices for Operator<H> {
    fn workers_are_full(&mut self, waiting: usize, closed: u64) {
        if self.can_write() {
            let _ = eprintln!(self.rt;
                "all workers are full: {waiting} connections wait, {closed} were closed"
            );
        }
    }

    fn accepts_fail(&mut self, failed: u64) {
        if self.can_write() {
            let _ = eprintln!(self.rt;
                "connections can't be accepted, {failed} times so far: descriptors or memory are missing"
            );
        }
    }

    fn connection_closed(&mut self, closing: &Closing, more: u64) {
        if !self.is_quiet && self.can_write() {
            let text = ClosingText { closing, more };
            let _ = eprintln!(self.rt; "{text}");
        }
    }

    fn processor_times(&mut self) -> Option<ProcessorTimes> {
        processor_times()
    }
}
