//! Reads a script line by line.

ghost use Rattle.std.specs.Prelude.{◌≡◌, ◌+◌, ◌<◌, ◌≤◌, ◌↔◌, [], ◌∷◌, length, replicate, IfOk, IfErr, OnErr};
ghost use Rattle.std.specs.Prelude.{MatchResult, MatchOption, MatchBool, IfSome};
ghost use Rattle.script.specs.Lines.{lines_of};
ghost use Rattle.script.specs.Scripts.{MayAdd, HasLineFault, no_events, max_script, first_position};
ghost use Rattle.script.specs.Scripts.{ReadsLine, IsNextFault, AreEventsOf, IsFaultOf};

use crate::event::ScriptLine;
use crate::fault::{LineFault, ScriptFault};
use crate::line::script_line;
use crate::worker_script::WorkerScript;
use memchr::memchr;
use proto::NoMemory;
use std::alloc::Global;
use std::marker::Model;

/// The most bytes that a script may have.
pub const MAX_SCRIPT: usize = 16_777_216;

/// The first line, and what stands after its line feed; None if nothing is left.
fn first_line(script: &[u8]) -> Option<(&[u8], &[u8])>
    ensures lines { MatchOption result (script.now ≡ [])
        (λ p. lines_of script.now ≡ p.0.now ∷ lines_of p.1.now) }
    ensures shorter { IfSome result (λ p. length p.1.now < length script.now) }
{
    match memchr(b'\n', script) {
        Some(at) => {
            let (line, behind) = script.split_at(at);
            Some((line, behind.split_at(1).1))
        }
        None if script.is_empty() => None,
        None => Some(script.split_at(script.len())),
    }
}

/// What the line says, if it may be added; or what is wrong with it.
fn checked(
    alloc: Global,
    workers: &[WorkerScript],
    line: &[u8],
) -> Result<Result<ScriptLine, LineFault>, NoMemory>
    ensures { IfOk result
        (λ found. MatchResult found (MayAdd workers.now line.now) (HasLineFault workers.now line.now)) }
{
    let Some(said) = script_line(alloc, line)? else {
        return Ok(Err(LineFault::NotAScriptLine));
    };
    if said.worker >= workers.len() as u64 {
        return Ok(Err(LineFault::WorkerOutOfRange));
    }
    match workers[said.worker as usize].fault(&said.event) {
        Some(fault) => Ok(Err(fault)),
        None => Ok(Ok(said)),
    }
}

/// Reads a script line by line, and keeps the events of each worker.
#[derive(Drop)]
pub struct ScriptReader<'a> {
    rest: &'a [u8],
    workers: Vec<WorkerScript>,
    /// How many lines were read.
    read: u64,
    alloc: Global,
}

impl<'a> Model for ScriptReader<'a> {
    ghost use Rattle.std.specs.Prelude.{◌+◌, ◌≤◌, length};
    ghost use Rattle.script.specs.Lines.{lines_of};
    ghost use Rattle.script.specs.Scripts.{Position, max_script};

    ghost Value = { Position };

    ghost view = { λ r. record { left = lines_of r.rest.now; workers = r.workers.items; read = r.read } };

    ghost invariant = { λ r. r.read + length r.rest.now ≤ max_script };
}

/// As many workers, none with an event yet.
fn no_workers(alloc: Global, workers: usize) -> Result<Vec<WorkerScript>, NoMemory>
    ensures { IfOk result (λ made. made.items ≡ no_events workers) }
{
    let mut made = Vec::new(alloc);
    for _ in 0..workers {
        made.push(WorkerScript::new(alloc))?;
    }
    Ok(made)
}

impl<'a> ScriptReader<'a> {
    /// Reads the next line, if there is one, and says whether there was.
    ///
    /// # Errors
    ///
    /// Line with what is wrong with the line; NoMemory if out of memory. Either leaves the reader
    /// as it was.
    pub fn next_line(&mut self) -> Result<bool, ScriptFault>
        ensures read { IfOk result (λ more. MatchBool more (ReadsLine self.old self.new) ((self.old.left ≡ [])
            × (self.new ≡ self.old))) }
        ensures fault { IfErr result (IsNextFault self.old) }
        ensures err { OnErr result (self.new ≡ self.old) }
    {
        let Some((text, rest)) = first_line(self.rest) else {
            return Ok(false);
        };
        let line = self.read + 1;
        let said = match checked(self.alloc, self.workers.as_slice(), text)? {
            Ok(said) => said,
            Err(fault) => return Err(ScriptFault::Line { line, fault }),
        };
        self.workers[said.worker as usize].push(said.event)?;
        self.rest = rest;
        self.read = line;
        Ok(true)
    }
}

/// The events of a script for this number of workers, by the worker's number.
///
/// # Errors
///
/// TooLarge if the script has more than 16,777,216 bytes; Line for the first line that is none of a
/// script or says an event that may not come there; NoMemory if out of memory, also if a line has a
/// fault.
pub fn read_script(
    alloc: Global,
    script: &[u8],
    workers: usize,
) -> Result<Vec<WorkerScript>, ScriptFault>
    ensures { MatchResult result (λ found. AreEventsOf workers script.now found.items) (IsFaultOf workers script.now) }
{
    if script.len() > MAX_SCRIPT {
        return Err(ScriptFault::TooLarge);
    }
    let mut reader = ScriptReader {
        rest: script,
        workers: no_workers(alloc, workers)?,
        read: 0,
        alloc,
    };
    while reader.next_line()? {}
    Ok(reader.workers)
}
