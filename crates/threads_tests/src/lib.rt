//! Tests of the threads, over ports, clocks and gates of the tests' own: the lanes' ends and the
//! storage thread, a worker's loop beside a storage thread, and whole groups. And of what no
//! contract says of memory and time at the limits.
#![tactic(auto)]

#[cfg(test)]
mod clock;
#[cfg(test)]
mod groups;
#[cfg(test)]
mod limits;
#[cfg(test)]
mod same;
#[cfg(test)]
mod serving;
#[cfg(test)]
mod signals;
#[cfg(test)]
mod storage;
#[cfg(test)]
mod texts;
#[cfg(test)]
mod workers;
