//! Reads a script's bytes.

ghost use Rattle.std.specs.Prelude.{◌≡◌, ◌++◌, [], take, false, IfOk, OnOk, IfSome, MatchResult, string_bytes};
ghost use Rattle.std.specs.Io.{ReadsAtMost};
ghost use Rattle.std.specs.IoError.{error_kind};
ghost use Rattle.std.specs.Io.KnownBytes.{ReadConsumes, IsAtEnd};
ghost use Rattle.replaying.specs.Faults.{IsReadFault};
ghost use Rattle.replaying.specs.Reading.{ReadsPiece};

use crate::fault::Fault;
use command_line::{Options, on_one_line};
use proto::Trace;
use script::{MAX_SCRIPT, ScriptFault};
use std::alloc::Global;
use std::io::{self, ErrorKind, Read};

/// The most bytes that one read is asked for.
const PIECE: usize = 8192;

/// The fault if the options' file can't be read: NoMemory if out of memory, else CannotRead with
/// the file's path.
pub fn cannot_read(alloc: Global, options: &Options, error: &io::Error) -> Fault
    ensures { IsReadFault (string_bytes options.entry.now.file) (error_kind error.now) result }
{
    if error.kind() == ErrorKind::OutOfMemory {
        return Fault::NoMemory;
    }
    match on_one_line(alloc, options.file.as_str()) {
        Ok(file) => Fault::CannotRead(file),
        Err(_) => Fault::NoMemory,
    }
}

/// One read. The bytes that it gave are noted.
fn read_noted<R: Read>(script: &mut R, buf: &mut [u8], text: &mut Trace<u8>) -> io::Result<usize>
    ensures bound { ReadsAtMost result buf.new }
    ensures bytes { ReadConsumes (R.remaining script.old) (R.remaining script.new) result buf.new }
    ensures noted { MatchResult result (λ n. text.new.items ≡ text.old.items ++ take n buf.new)
        (λ _. text.new.items ≡ text.old.items) }
{
    let n = script.read(buf)?;
    text.note(&buf[..n]);
    Ok(n)
}

/// Adds what one read gives. False at the script's end.
fn add_piece<R: Read>(
    alloc: Global,
    options: &Options,
    script: &mut R,
    bytes: &mut Vec<u8>,
    text: &mut Trace<u8>,
) -> Result<bool, Fault>
    requires { bytes.old.items ≡ text.old.items }
    ensures same { OnOk result (bytes.new.items ≡ text.new.items) }
    ensures read { OnOk result (ReadsPiece (R.remaining script.old) text.old.items
        (R.remaining script.new) text.new.items) }
    ensures end { IfOk result (λ more. more ≡ false → IsAtEnd (R.remaining script.new)) }
{
    let mut piece = [0; PIECE];
    match read_noted(script, &mut piece, text) {
        Ok(0) => Ok(false),
        Ok(n) => {
            bytes.extend_from_slice(&piece[..n])?;
            Ok(true)
        }
        Err(error) if error.kind() == ErrorKind::Interrupted => Ok(true),
        Err(error) => Err(cannot_read(alloc, options, &error)),
    }
}

/// All bytes of the script, and beside them those that its reads gave.
pub(crate) fn script_bytes<R: Read + Drop>(
    alloc: Global,
    options: &Options,
    mut script: R,
) -> Result<(Vec<u8>, Trace<u8>), Fault>
    ensures same { IfOk result (λ r. r.0.items ≡ r.1.items) }
    ensures all { IfOk result (λ r. IfSome (R.remaining script) (λ text. r.1.items ≡ text)) }
{
    let mut bytes = Vec::new(alloc);
    let mut text = Trace::new();
    for _ in 0..u64::MAX {
        if !add_piece(alloc, options, &mut script, &mut bytes, &mut text)? {
            return Ok((bytes, text));
        }
        if bytes.len() > MAX_SCRIPT {
            return Err(Fault::Script(ScriptFault::TooLarge));
        }
    }
    Err(cannot_read(alloc, options, &ErrorKind::Interrupted.into()))
}
