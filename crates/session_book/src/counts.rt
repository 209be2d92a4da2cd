//! What a book counts for `stats`.

use proto::{FatalKind, Gauge, Gauges, LocalKind, Message};

/// What a book counts for `stats`. After the greatest number a count goes on from 0.
#[derive(Clone, Copy, Default)]
pub(crate) struct BookCounts {
    /// Bytes that came of open sessions.
    read: u64,
    /// Bytes of output that were given.
    written: u64,
    /// Bytes of open sessions that no message was read from yet.
    unread: u64,
    unknown: u64,
    bad_lines: u64,
    malformed: u64,
    binary: u64,
    too_large: u64,
    /// How often a session that may have further requests was set aside.
    yields: u64,
}

impl BookCounts {
    /// So many bytes came of an open session.
    pub(crate) fn received(&mut self, n: usize) {
        self.read = self.read.wrapping_add(n as u64);
    }

    /// So many bytes are to be read.
    pub(crate) fn fed(&mut self, n: usize) {
        self.unread = self.unread.wrapping_add(n as u64);
    }

    /// A message of this length was read.
    pub(crate) fn read(&mut self, message: &Message, length: usize) {
        self.unread = self.unread.wrapping_sub(length as u64);
        match message {
            Message::Ask(..) | Message::Quit => {}
            Message::Local(LocalKind::Unknown) => self.unknown = self.unknown.wrapping_add(1),
            Message::Local(LocalKind::BadLine) => self.bad_lines = self.bad_lines.wrapping_add(1),
            Message::Local(LocalKind::TooLarge(_)) => self.refused_item(),
            Message::Local(_) => {}
            Message::Fatal(FatalKind::Binary) => self.binary = self.binary.wrapping_add(1),
            Message::Fatal(_) => self.malformed = self.malformed.wrapping_add(1),
        }
    }

    /// So many bytes are not to be read any more.
    pub(crate) fn forget(&mut self, n: usize) {
        self.unread = self.unread.wrapping_sub(n as u64);
    }

    /// A storage command was refused as too large.
    pub(crate) fn refused_item(&mut self) {
        self.too_large = self.too_large.wrapping_add(1);
    }

    /// A session that may have further requests is asked later.
    pub(crate) fn yielded(&mut self) {
        self.yields = self.yields.wrapping_add(1);
    }

    /// So many bytes of output were given.
    pub(crate) fn gave(&mut self, n: usize) {
        self.written = self.written.wrapping_add(n as u64);
    }

    /// Sets the gauges of what it counted.
    pub(crate) fn set_gauges(&self, gauges: &Gauges) {
        gauges.set(&[
            (Gauge::BytesRead, self.read),
            (Gauge::BytesWritten, self.written),
            (Gauge::InputBytes, self.unread),
            (Gauge::StoreTooLarge, self.too_large),
            (Gauge::UnknownCommands, self.unknown),
            (Gauge::BadLines, self.bad_lines),
            (Gauge::ClosedMalformed, self.malformed),
            (Gauge::ClosedBinary, self.binary),
            (Gauge::ConnYields, self.yields),
        ]);
    }
}
