//! The addresses that a listener may be told.

ghost use Rattle.std.specs.Prelude.{MatchResult};
ghost use Rattle.net.specs.Listening.{IsAddress, IsBindFault, is_path};
ghost use Rattle.std.specs.Prelude.{◌≡◌};

use crate::fault::NetFault;
use std::net::SocketAddr;

/// The longest path of a socket in bytes, by the system.
const MAX_PATH: usize = 107;

/// Where a listener listens.
#[derive(Clone, Copy)]
pub(crate) enum Address<'a> {
    Tcp(SocketAddr),
    /// The path of a socket on this machine.
    Path(&'a str),
}

/// Whether the words begin as the path of a socket does.
pub fn is_path(words: &str) -> bool
    ensures { result ≡ is_path words.now }
{
    words.as_bytes().starts_with(b"unix:")
}

/// The address that the words spell: `unix:` and a path, or an IP address and a port.
///
/// # Errors
///
/// BadPath if the path has none of 1 to 107 bytes; BadAddress if there is no IP address and no
/// port.
pub(crate) fn address_of(words: &str) -> Result<Address<'_>, NetFault>
    ensures { MatchResult result (λ _. IsAddress words.now) (IsBindFault words.now) }
{
    if !is_path(words) {
        let addr: SocketAddr = words.parse().map_err(|_| NetFault::BadAddress)?;
        return Ok(Address::Tcp(addr));
    }
    match words.split_once(':') {
        Some((_, path)) if !path.is_empty() && path.len() <= MAX_PATH => Ok(Address::Path(path)),
        _ => Err(NetFault::BadPath),
    }
}
