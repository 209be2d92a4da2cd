//! The options with which a server runs, as words.

use crate::commands::{
    BY_THREAD, EVICT, EXACT_TTLS, LENIENT, LISTEN, OLDEST, QUIET, SOCKET_MODE, STORAGE,
    UPDATE_IN_PLACE, eviction_word, storage_word,
};
use crate::number_option::{
    CONNECTIONS, IDLE, MAX_ITEM_SIZE, NumberOption, OUTPUT_MEMORY, SEGMENT_SIZE, SEGMENTS,
    SESSIONS, SPIN, WORKERS,
};
use crate::options::ServeOptions;
use std::alloc::{AllocError, Global};

/// Adds an option's name.
fn push_name(line: &mut String, name: &str) -> Result<(), AllocError> {
    if !line.is_empty() {
        line.push_str(" ")?;
    }
    line.push_str("--")?;
    line.push_str(name)
}

/// Adds an option with its value.
fn push_value(line: &mut String, name: &str, value: &str) -> Result<(), AllocError> {
    push_name(line, name)?;
    line.push_str(" ")?;
    line.push_str(value)
}

/// Adds an option with its number, if it has one.
fn push_number(
    alloc: Global,
    line: &mut String,
    option: &NumberOption,
    number: Option<u64>,
) -> Result<(), AllocError> {
    match number {
        Some(number) => push_value(line, option.name, number.to_string(alloc)?.as_str()),
        None => Ok(()),
    }
}

/// Adds an option that has no value, if it is given.
fn push_flag(line: &mut String, name: &str, is_given: bool) -> Result<(), AllocError> {
    if is_given {
        push_name(line, name)?;
    }
    Ok(())
}

/// Adds an option with its value, unless that is the default.
fn push_choice(
    line: &mut String,
    name: &str,
    value: &str,
    default: &str,
) -> Result<(), AllocError> {
    if value == default {
        return Ok(());
    }
    push_value(line, name, value)
}

/// Adds the options that have a number.
fn push_numbers(
    alloc: Global,
    line: &mut String,
    options: &ServeOptions,
) -> Result<(), AllocError> {
    let spin = options.spin.map(|micros| micros as u64);
    push_number(alloc, line, &WORKERS, Some(options.workers))?;
    push_number(alloc, line, &SEGMENT_SIZE, Some(options.segment_size))?;
    push_number(alloc, line, &SEGMENTS, Some(options.segments))?;
    push_number(alloc, line, &MAX_ITEM_SIZE, options.max_item_size)?;
    push_number(alloc, line, &CONNECTIONS, options.connections)?;
    push_number(alloc, line, &OUTPUT_MEMORY, options.output_memory)?;
    push_number(alloc, line, &SESSIONS, options.sessions)?;
    push_number(alloc, line, &IDLE, options.idle)?;
    push_number(alloc, line, &SPIN, spin)
}

/// Adds the options that choose among rules, and those that have no value.
fn push_rules(line: &mut String, options: &ServeOptions) -> Result<(), AllocError> {
    push_choice(line, EVICT, eviction_word(options.eviction), OLDEST)?;
    push_choice(line, STORAGE, storage_word(options.storage), BY_THREAD)?;
    push_flag(line, QUIET, options.quiet)?;
    push_flag(line, EXACT_TTLS, options.exact_ttls)?;
    push_flag(line, LENIENT, options.dialect.is_lenient())?;
    push_flag(line, UPDATE_IN_PLACE, options.update_in_place)
}

/// Adds the addresses, and the mode of sockets' files if there may be some.
fn push_addresses(
    alloc: Global,
    line: &mut String,
    options: &ServeOptions,
) -> Result<(), AllocError> {
    let mut has_path = options.listen.starts_with("unix:");
    push_value(line, LISTEN, options.listen.as_str())?;
    for addr in &options.also {
        has_path = has_path || addr.starts_with("unix:");
        push_value(line, LISTEN, addr.as_str())?;
    }
    if has_path {
        let mode = format!(in alloc; "{:04o}", options.socket_mode)?;
        push_value(line, SOCKET_MODE, mode.as_str())?;
    }
    Ok(())
}

/// All options of a server that are in force, as words that ask for the same: `--listen ADDR
/// --workers 2 ..`. An option that is left out is not in force. Fails only if out of memory.
pub fn options_in_force(alloc: Global, options: &ServeOptions) -> Result<String, AllocError> {
    let mut line = String::new(alloc);
    push_addresses(alloc, &mut line, options)?;
    push_numbers(alloc, &mut line, options)?;
    push_rules(&mut line, options)?;
    Ok(line)
}
