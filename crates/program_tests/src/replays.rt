//! A replay of files that fail, or are interrupted.

use crate::common::{check_same, options};
use command_line::{Options, geometry_of};
use replaying::{Fault, replay};
use std::alloc::Global;
use std::io::{self, ErrorKind, Read, Write};
use std::process::Abort;
use std::sync::Wait;
use std::test::Fail;
use std::thread::Threads;
use std::time;

/// Gives some bytes, and then fails.
#[derive(Drop)]
struct Failing {
    left: u8,
}

impl Read for Failing {
    fn read(&mut self, buf: &mut [u8]) -> io::Result<usize> {
        if self.left == 0 || buf.is_empty() {
            return Err(ErrorKind::Other.into());
        }
        self.left -= 1;
        buf[0] = b'o';
        Ok(1)
    }
}

impl Write for Failing {
    fn write(&mut self, buf: &[u8]) -> io::Result<usize> {
        if self.left == 0 || buf.is_empty() {
            return Err(ErrorKind::Other.into());
        }
        self.left -= 1;
        Ok(1)
    }

    fn flush(&mut self) -> io::Result<()> {
        Ok(())
    }
}

/// Gives one byte at a time, and is interrupted before each.
#[derive(Drop)]
struct Interrupted {
    left: &'static [u8],
    is_next: bool,
}

impl Read for Interrupted {
    fn read(&mut self, buf: &mut [u8]) -> io::Result<usize> {
        self.is_next = !self.is_next;
        if self.is_next {
            return Err(ErrorKind::Interrupted.into());
        }
        let Some((first, rest)) = self.left.split_first() else {
            return Ok(0);
        };
        if buf.is_empty() {
            return Ok(0);
        }
        buf[0] = *first;
        self.left = rest;
        Ok(1)
    }
}

/// Replays a script with these options.
pub(crate) fn replay_with<H, R, W>(
    rt: &H,
    alloc: Global,
    options: &Options,
    script: R,
    out: &mut W,
) -> Result<(), Fault>
where
    H: Threads + Wait + time::Clock + Sync,
    R: Read + Drop,
    W: Write,
{
    let geometry = geometry_of(
        options.segment_size,
        options.segments,
        options.max_item_size,
    )?;
    replay(rt, alloc, options, geometry, script, out)?;
    Ok(())
}

/// Checks that something failed, with this fault.
fn check_fault(
    rt: &impl Abort,
    alloc: Global,
    done: &Result<(), Fault>,
    wanted: &str,
) -> Result<(), Fail> {
    let Err(fault) = done else {
        return Err("no fault".into());
    };
    let text = fault.to_string(alloc)?;
    check_same(rt, text.as_str(), wanted, "a fault");
    Ok(())
}

/// A script that can't be read to its end prints nothing.
fn check_reading<H: Abort + Threads + Wait + time::Clock + Sync>(
    rt: &H,
    alloc: Global,
    options: &Options,
) -> Result<(), Fail> {
    let mut out = Vec::new(alloc);
    let done = replay_with(rt, alloc, options, Failing { left: 3 }, &mut out);
    check_same(rt, out.as_slice(), b"".as_slice(), "the output");
    check_fault(rt, alloc, &done, "fault: cannot read script")
}

fn check_writing<H: Abort + Threads + Wait + time::Clock + Sync>(
    rt: &H,
    alloc: Global,
    options: &Options,
) -> Result<(), Fail> {
    let script = b"open 0 1\n".as_slice();
    let done = replay_with(rt, alloc, options, script, &mut Failing { left: 3 });
    check_fault(rt, alloc, &done, "fault: cannot write")
}

/// An interrupted read is tried again.
fn check_interrupted<H: Abort + Threads + Wait + time::Clock + Sync>(
    rt: &H,
    alloc: Global,
    options: &Options,
) -> Result<(), Fail> {
    let script = Interrupted {
        left: b"open 0 1\nopen 0 2",
        is_next: false,
    };
    let mut out = Vec::new(alloc);
    replay_with(rt, alloc, options, script, &mut out)?;
    check_same(
        rt,
        out.as_slice(),
        b"0 1 -\n0 2 -\n".as_slice(),
        "the output",
    );
    Ok(())
}

#[test]
fn files_that_fail(rt: HostRuntime) -> Result<(), Fail> {
    let options = options(rt.alloc(), "replay script")?;
    check_reading(&rt, rt.alloc(), &options)?;
    check_writing(&rt, rt.alloc(), &options)?;
    check_interrupted(&rt, rt.alloc(), &options)
}
