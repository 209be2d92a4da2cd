//! The line of a connection that was closed.

use net::Closing;
use proto::FatalKind;
use std::fmt;
use worker_port::CloseReason;

/// Shows the connection's peer, the reason, its line in quotes if it is closed for that, and how
/// many more there were.
#[derive(Drop)]
pub(crate) struct ClosingText<'a> {
    pub(crate) closing: &'a Closing,
    pub(crate) more: u64,
}

impl fmt::Display for ClosingText<'_> {
    fn fmt<W: fmt::Write>(&self, f: &mut fmt::Formatter<W>) -> fmt::Result {
        let reason = reason_text(self.closing.reason);
        write!(f, "closed {}: {reason}", self.closing.peer)?;
        let line = self.closing.line();
        if !line.is_empty() {
            write!(f, ": \"{}\"", Escaped { line })?;
        }
        if self.more > 0 {
            write!(f, "; {} more for this", self.more)?;
        }
        Ok(())
    }
}

fn reason_text(reason: CloseReason) -> &'static str {
    match reason {
        CloseReason::Sent(FatalKind::BadLine) => "malformed storage line",
        CloseReason::Sent(FatalKind::LongLine) => "line too long",
        CloseReason::Sent(FatalKind::BadChunk) => "data block of another length",
        CloseReason::Sent(FatalKind::TooLarge) => "data block too large",
        CloseReason::Sent(FatalKind::Binary) => "binary protocol",
        CloseReason::Idle => "idle",
        CloseReason::Memory => "out of memory",
        CloseReason::Stalled => "stalled",
    }
}

/// Bytes as text in quotes: printable ASCII as it is, but for quotes and backslashes, and other
/// bytes in hexadecimal.
#[derive(Drop)]
struct Escaped<'a> {
    line: &'a [u8],
}

impl fmt::Display for Escaped<'_> {
    fn fmt<W: fmt::Write>(&self, f: &mut fmt::Formatter<W>) -> fmt::Result {
        for byte in self.line {
            match *byte {
                b'"' => f.write_str("\\\"")?,
                b'\\' => f.write_str("\\\\")?,
                b' '..=b'~' => f.write_char(*byte as char)?,
                other => write!(f, "\\x{other:02x}")?,
            }
        }
        Ok(())
    }
}
