//! What each layer does if out of memory: the same call made again gives what it would have given.
//! A group of two workers names a fault before anything was taken or executed, or it answers
//! `NoMemory` or names the session that it shut for it, and serves the others. It is run once for
//! each request for memory, which is refused in that run alone, and each run must write the same
//! text.
#![tactic(auto)]

mod book;
mod cache;
mod counters;
mod groups;
mod lanes;
mod pools;
mod protocol;
mod quiet_port;
mod served;

use std::process::ExitCode;

/// What a layer does whose call can be made again.
const REPEATED: &str = "as without a refusal";

/// What a group does.
const NAMED: &str = "each session answered, or named as refused";

/// Writes whether a layer did so.
fn report(rt: &impl Print, layer: &str, promise: &str, held: bool) -> bool {
    let outcome = if held { promise } else { "DIFFERS" };
    println!(rt; "{layer}: {outcome}").is_ok() && held
}

fn main(rt: HostRuntime) -> ExitCode {
    let alloc = rt.alloc();
    let messages = report(&rt, "messages", REPEATED, protocol::is_repeatable(alloc));
    let requests = report(&rt, "requests", REPEATED, cache::is_repeatable(&rt));
    let exchange = report(&rt, "lanes", REPEATED, lanes::is_repeatable(alloc));
    let sessions = report(&rt, "sessions", REPEATED, book::is_repeatable(alloc));
    let segments = report(&rt, "pools", REPEATED, pools::is_repeatable(alloc));
    let serving = report(&rt, "groups", NAMED, groups::is_named(&rt, alloc));
    let repeated = messages && requests && exchange && sessions && segments;
    if repeated && serving {
        ExitCode::SUCCESS
    } else {
        ExitCode::FAILURE
    }
}
