//! `segcached`: serves, and replays scripts.
#![tactic(auto)]

use command_line::{
    Job, Options, ServeOptions, WordsFault, geometry_of, parse_words, unreadable_words,
};
use replaying::{Runtime, cannot_read, replay};
use serving::{System, seed_of, serve_to_end};
use std::fmt::Display;
use std::fs::File;
use std::io::{self, BufWriter};
use std::process::ExitCode;
use std::{env, fs};

/// Replays the script in the file that the options name, with these threads.
fn replay_file<H: Runtime>(
    rt: &HostRuntime,
    threads: &H,
    options: &Options,
) -> Result<(), replaying::Fault> {
    let alloc = rt.alloc();
    let geometry = geometry_of(
        options.segment_size,
        options.segments,
        options.max_item_size,
    )?;
    let script: File = fs::open(rt, options.file.as_str()).map_err(|error| cannot_read(
        alloc, options, &error,
    ))?;
    let mut out = BufWriter::new(alloc, io::writer(rt)).map_err(|_| replaying::Fault::NoMemory)?;
    replay(threads, alloc, options, geometry, script, &mut out)?;
    Ok(())
}

/// Serves as the options say.
fn serve_at<H: System>(
    rt: &HostRuntime,
    threads: &H,
    options: &ServeOptions,
) -> Result<(), serving::Fault> {
    let alloc = rt.alloc();
    let geometry = geometry_of(
        options.segment_size,
        options.segments,
        options.max_item_size,
    )?;
    let mut out = BufWriter::new(alloc, io::writer(rt)).map_err(|_| serving::Fault::NoMemory)?;
    serve_to_end(*threads, alloc, options, geometry, seed_of(rt), &mut out)
}

/// What the words after the program's name ask for.
fn job(rt: &HostRuntime) -> Result<Job, WordsFault> {
    let alloc = rt.alloc();
    let words = env::args(rt).map_err(|error| unreadable_words(alloc, &error))?;
    let words: Vec<String> = words.skip(1).collect(alloc)?;
    parse_words(alloc, words.as_slice())
}

/// Prints the fault, if standard error takes it, and answers the exit status.
fn fail<F: Display + Drop>(rt: &HostRuntime, fault: F, status: u8) -> u8 {
    let _ = rt.eprintln(fault);
    status
}

/// The exit status of what was done, whose fault is printed.
fn status<F: Display + Drop>(rt: &HostRuntime, done: Result<(), F>) -> u8 {
    match done {
        Ok(()) => 0,
        Err(fault) => fail(rt, fault, 1),
    }
}

/// The exit status of what was served, whose fault is printed.
fn serve_status(rt: &HostRuntime, served: Result<(), serving::Fault>) -> u8 {
    match served {
        Ok(()) => 0,
        Err(fault) => {
            let status = fault.status();
            fail(rt, fault, status)
        }
    }
}

/// Does the job, and answers the exit status.
fn run<H: System>(rt: &HostRuntime, threads: &H, job: Job) -> u8 {
    match job {
        Job::Help(text) => status(rt, rt.print(text).map_err(|_| "fault: cannot write")),
        Job::Replay(options) => status(rt, replay_file(rt, threads, &options)),
        Job::Serve(options) => serve_status(rt, serve_at(rt, threads, &options)),
    }
}

fn main(rt: HostRuntime) -> ExitCode {
    let status = match job(&rt) {
        Ok(job) => run(&rt, &rt, job),
        Err(WordsFault::BadWords(text)) => {
            let _ = rt.eprint(text);
            2
        }
        Err(WordsFault::NoMemory) => fail(&rt, "fault: out of memory", 1),
    };
    ExitCode::from(status)
}
