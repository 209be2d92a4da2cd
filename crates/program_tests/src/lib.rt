//! Tests of what the program calls: its words, the replay, and ports and the listener over real
//! sockets.
#![tactic(auto)]

#[cfg(test)]
mod asked_port;
#[cfg(test)]
mod beside_sequential;
#[cfg(test)]
mod clients;
#[cfg(test)]
mod common;
#[cfg(test)]
mod faults;
#[cfg(test)]
mod hands;
#[cfg(test)]
mod polling;
#[cfg(test)]
mod ports;
#[cfg(test)]
mod replays;
#[cfg(test)]
mod words;
