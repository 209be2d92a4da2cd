//! Tests of the libraries below the worker: messages, the plain store, books, lanes and idle
//! threads; and worked examples of the definitions of `proto`.
#![tactic(auto)]

#[cfg(test)]
mod book;
#[cfg(test)]
mod clock;
#[cfg(test)]
mod cuttings;
#[cfg(test)]
mod examples;
#[cfg(test)]
mod lanes;
#[cfg(test)]
mod large_blocks;
#[cfg(test)]
mod list_cache;
#[cfg(test)]
mod made;
#[cfg(test)]
mod message_rows;
#[cfg(test)]
mod messages;
#[cfg(test)]
mod player;
#[cfg(test)]
mod random;
#[cfg(test)]
mod same;
#[cfg(test)]
mod signals;
#[cfg(test)]
mod sizes;
#[cfg(test)]
mod spinning;
#[cfg(test)]
mod traces;
#[cfg(test)]
mod very_large;
