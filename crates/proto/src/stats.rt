//! The lines of a `stats`, as text.

ghost use Rattle.std.specs.Prelude.{◌≡◌, ◌++◌, IsTrue, IfOk, OnOk, decimal, drop, flat_map};
ghost use Rattle.proto.specs.StatTexts.{stat_bytes, tally_lines, count_lines, is_plain};
ghost use Rattle.proto.specs.StatTexts.{names_gauge, IsStats};

use crate::byte_string::ByteString;
use crate::counts::{Counts, Tally};
use crate::gauges::{Gauges, gauge_names, worker_names};
use crate::no_memory::NoMemory;
use itoa::Buffer;
use std::alloc::Global;
use std::marker::Model;
use std::snapshot::Snapshot;

/// The room that is taken first: the lines have less than 3,000 bytes.
const FIRST_ROOM: usize = 4096;

/// The room of a number of seconds: twenty digits at most, a point and six more.
const SECONDS_ROOM: usize = 32;

/// The bytes behind the first one.
fn behind_first(bytes: &[u8]) -> &[u8]
    ensures { result.now ≡ drop 1 bytes.now }
{
    match bytes.split_first() {
        Some((_, behind)) => behind,
        None => bytes,
    }
}

/// Appends a line.
#[tactic(auto, unfolding(crate::specs::StatTexts::stat_bytes))]
fn push_line(text: &mut Vec<u8>, name: &[u8], value: &[u8]) -> Result<(), NoMemory>
    ensures { OnOk result (text.new.items ≡ text.old.items ++ stat_bytes (name.now, value.now)) }
{
    text.extend_from_slice(b"STAT ")?;
    text.extend_from_slice(name)?;
    text.extend_from_slice(b" ")?;
    text.extend_from_slice(value)?;
    text.extend_from_slice(b"\r\n")?;
    Ok(())
}

/// Appends the line of a count.
fn push_count(text: &mut Vec<u8>, name: &[u8], n: u64) -> Result<(), NoMemory>
    ensures { OnOk result (text.new.items ≡ text.old.items ++ stat_bytes (name.now, decimal n)) }
{
    push_line(text, name, Buffer::new().format(n).as_bytes())
}

/// Appends the line of a count whose name has two parts.
fn push_part(text: &mut Vec<u8>, name: &[u8], part: &[u8], n: u64) -> Result<(), NoMemory>
    ensures { OnOk result (text.new.items ≡ text.old.items ++ stat_bytes (name.now ++ part.now, decimal n)) }
{
    text.extend_from_slice(b"STAT ")?;
    text.extend_from_slice(name)?;
    text.extend_from_slice(part)?;
    text.extend_from_slice(b" ")?;
    text.extend_from_slice(Buffer::new().format(n).as_bytes())?;
    text.extend_from_slice(b"\r\n")?;
    Ok(())
}

/// Appends the lines of hits and misses.
fn push_tally(text: &mut Vec<u8>, name: &[u8], tally: Tally) -> Result<(), NoMemory>
    ensures { OnOk result (text.new.items ≡ text.old.items ++ flat_map stat_bytes (tally_lines name.now tally)) }
{
    push_part(text, name, b"_hits", tally.hits)?;
    push_part(text, name, b"_misses", tally.misses)?;
    Ok(())
}

/// Appends the lines of counts.
fn push_counts(text: &mut Vec<u8>, counts: &Counts) -> Result<(), NoMemory>
    ensures { OnOk result (text.new.items ≡ text.old.items ++ flat_map stat_bytes (count_lines counts.now)) }
{
    push_count(text, b"cmd_get", counts.gets.total())?;
    push_count(text, b"cmd_set", counts.sets.total())?;
    push_count(text, b"cmd_touch", counts.touches.total())?;
    push_count(text, b"cmd_flush", counts.flushes)?;
    push_count(text, b"total_items", counts.sets.hits)?;
    push_count(text, b"cas_badval", counts.badvals)?;
    push_count(text, b"out_of_memory", counts.refused)?;
    push_tally(text, b"get", counts.gets)?;
    push_tally(text, b"delete", counts.deletes)?;
    push_tally(text, b"incr", counts.incrs)?;
    push_tally(text, b"decr", counts.decrs)?;
    push_tally(text, b"touch", counts.touches)?;
    push_tally(text, b"cas", counts.cas)?;
    Ok(())
}

/// The lines of counts, and then those of gauges, of which no clause says more than that they are
/// lines of plain words. Contracts see the counts.
#[derive(Drop)]
pub struct StatsText {
    text: Vec<u8>,
    counts: Snapshot<Counts>,
}

impl Model for StatsText {
    ghost use Rattle.proto.specs.declared.counts.Counts.{Counts};
    ghost use Rattle.proto.specs.StatTexts.{IsStats};

    ghost Value = { Counts };

    ghost view = { λ a. a.counts.value };

    ghost invariant = { λ a. IsStats a.counts.value a.text.items };
}

impl StatsText {
    /// The lines of these counts. NoMemory if out of memory.
    pub fn of(alloc: Global, counts: &Counts) -> Result<StatsText, NoMemory>
        ensures { IfOk result (λ text. text ≡ counts.now) }
    {
        let mut text = Vec::with_capacity(alloc, FIRST_ROOM)?;
        push_counts(&mut text, counts)?;
        let counts = Snapshot::of(counts);
        Ok(StatsText { text, counts })
    }

    /// The same with a line more, of a gauge whose value is a word.
    pub fn with_word(mut self, name: &[u8], value: &[u8]) -> Result<StatsText, NoMemory>
        requires name { IsTrue (names_gauge self name.now) }
        requires value { IsTrue (is_plain value.now) }
        ensures { IfOk result (λ text. text ≡ self) }
    {
        push_line(&mut self.text, name, value)?;
        Ok(self)
    }

    /// The same, of a gauge whose value is a number.
    fn with(self, name: &[u8], n: u64) -> Result<StatsText, NoMemory>
        requires name { IsTrue (names_gauge self name.now) }
        ensures { IfOk result (λ text. text ≡ self) }
    {
        let mut buffer = Buffer::new();
        self.with_word(name, buffer.format(n).as_bytes())
    }

    /// The same, of a gauge whose value is a number of microseconds. It is told in seconds, with
    /// six digits behind the point.
    pub fn with_seconds(
        self,
        alloc: Global,
        name: &[u8],
        micros: u64,
    ) -> Result<StatsText, NoMemory>
        requires name { IsTrue (names_gauge self name.now) }
        ensures { IfOk result (λ text. text ≡ self) }
    {
        let mut whole = Buffer::new();
        let mut part = Buffer::new();
        let mut value = Vec::with_capacity(alloc, SECONDS_ROOM)?;
        value.extend_from_slice(whole.format(micros / 1_000_000).as_bytes())?;
        value.extend_from_slice(b".")?;
        // (six digits behind a first one)
        let digits = part.format(1_000_000 + micros % 1_000_000).as_bytes();
        value.extend_from_slice(behind_first(digits))?;
        self.with_word(name, value.as_slice())
    }

    /// The same with a line for each gauge.
    pub fn with_gauges(self, gauges: &Gauges) -> Result<StatsText, NoMemory>
        ensures { IfOk result (λ text. text ≡ self) }
    {
        let mut text = self;
        for (gauge, name) in gauge_names() {
            text = text.with(name, gauges.get(gauge))?;
        }
        Ok(text)
    }

    /// The same with the lines of one worker: how many connections it has, and how many
    /// microseconds it was busy.
    pub fn with_worker(
        self,
        worker: usize,
        connections: u64,
        busy: u64,
    ) -> Result<StatsText, NoMemory>
        ensures { IfOk result (λ text. text ≡ self) }
    {
        let (connections_name, busy_name) = worker_names(worker);
        self.with(connections_name, connections)?
            .with(busy_name, busy)
    }

    pub fn into_lines(self) -> ByteString
        ensures { IsStats self result }
    {
        ByteString::from_vec(self.text)
    }
}
