//! The lines for which sessions are ended, as an operator is shown them.

use crate::input::Input;
use bytes::Bytes;
use proto::FatalKind;
use std::alloc::Global;

/// The most bytes of a line that are shown.
const SHOWN: usize = 64;

/// The bytes of a message of the binary protocol before its key: no more of one is shown, as its
/// value has no line end before it.
const BINARY_HEADER: usize = 24;

/// What is shown of the line of a fatal message.
#[derive(Drop)]
pub struct FaultLine {
    pub kind: FatalKind,
    /// At most 64 bytes, of the first line alone, so none of a data block.
    pub line: Bytes,
}

impl FaultLine {
    /// That of the message of this kind that the input begins with. None if memory is missing.
    pub(crate) fn copied(alloc: Global, kind: FatalKind, input: &Input) -> Option<FaultLine> {
        let most = match kind {
            FatalKind::Binary => BINARY_HEADER,
            _ => SHOWN,
        };
        let line = Bytes::copy_from_slice(alloc, first_line(input.kept(), most)).ok()?;
        Some(FaultLine { kind, line })
    }
}

/// The first line, without its end, and at most so many bytes of it.
fn first_line(bytes: &[u8], most: usize) -> &[u8] {
    let (front, _) = bytes.split_at(most.min(bytes.len()));
    match front
        .iter()
        .position(|byte| *byte == b'\r' || *byte == b'\n')
    {
        Some(length) => front.split_at(length.min(front.len())).0,
        None => front,
    }
}
