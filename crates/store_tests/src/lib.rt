//! Tests of the store by its public calls: the pool of segments, the index over a pool, and the
//! cache over both.
#![tactic(auto)]

#[cfg(test)]
mod cache;
#[cfg(test)]
mod index_rows;
#[cfg(test)]
mod pool;
#[cfg(test)]
mod same;
#[cfg(test)]
mod shelf;
