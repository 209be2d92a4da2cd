//! The other end of a connection, as an operator is told.

use std::fmt;
use std::net::SocketAddr;

#[derive(Clone, Copy)]
pub enum Peer {
    Address(SocketAddr),
    /// A program of this machine, by the server's path.
    Unix,
    /// The system doesn't tell it, as of a connection that was reset.
    Unknown,
}

impl fmt::Display for Peer {
    fn fmt<W: fmt::Write>(&self, f: &mut fmt::Formatter<W>) -> fmt::Result {
        match self {
            Peer::Address(address) => write!(f, "{address}"),
            Peer::Unix => f.write_str("a Unix socket"),
            Peer::Unknown => f.write_str("an unknown peer"),
        }
    }
}
