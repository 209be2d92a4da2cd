//! Raw sockets of both kinds: of TCP, and of a path on this machine.

ghost use Rattle.std.specs.Prelude.{◌≡◌};
ghost use Rattle.std.specs.Io.{ReadsAtMost};
ghost use Rattle.net.specs.Sockets.{raw_socket};

use crate::fault::Refusal;
use crate::peer::Peer;
use mio::net::{TcpListener, TcpStream, UnixListener, UnixStream};
use mio::{Interest, Poll, Token};
use std::fs::{self, Files, Permissions};
use std::io::{self, ErrorKind, Read, Write};
use std::net::{Net, Shutdown, SocketAddr};
use std::os::fd::OwnedFd;
use std::os::unix::fs::{FileTypeExt, PermissionsExt};

/// A raw stream. One of a path is of the same type as one of TCP, which alone can look at what came
/// and leave it there: the system calls take either.
#[derive(Drop)]
pub(crate) enum RawStream {
    Tcp(TcpStream),
    Unix(TcpStream),
}

impl RawStream {
    /// Has the poll tell of the stream under this token from now on.
    pub(super) fn watch(&mut self, poll: &Poll, token: Token) -> io::Result<()>
        ensures { raw_socket self.new ≡ raw_socket self.old }
    {
        let both = Interest::READABLE | Interest::WRITABLE;
        match self {
            RawStream::Tcp(stream) => {
                stream.set_nodelay(true)?;
                poll.registry().register(stream, token, both)
            }
            RawStream::Unix(stream) => poll.registry().register(stream, token, both),
        }
    }

    /// Reads the first bytes, and leaves them to be read.
    pub(super) fn peek(&self, first: &mut [u8]) -> io::Result<usize>
        ensures { ReadsAtMost result first.new }
    {
        match self {
            RawStream::Tcp(stream) | RawStream::Unix(stream) => stream.peek(first),
        }
    }

    /// Ends the sending half.
    pub(super) fn end_sending(&self) -> io::Result<()> {
        match self {
            RawStream::Tcp(stream) | RawStream::Unix(stream) => stream.shutdown(Shutdown::Write),
        }
    }

    /// Who has the other end.
    pub(super) fn peer(&self) -> Peer {
        match self {
            RawStream::Unix(_) => Peer::Unix,
            RawStream::Tcp(stream) => match stream.peer_addr() {
                Ok(address) => Peer::Address(address),
                Err(_) => Peer::Unknown,
            },
        }
    }
}

impl Read for RawStream {
    fn read(&mut self, buf: &mut [u8]) -> io::Result<usize> {
        match self {
            RawStream::Tcp(stream) | RawStream::Unix(stream) => stream.read(buf),
        }
    }
}

impl Write for RawStream {
    fn write(&mut self, buf: &[u8]) -> io::Result<usize> {
        match self {
            RawStream::Tcp(stream) | RawStream::Unix(stream) => stream.write(buf),
        }
    }

    fn flush(&mut self) -> io::Result<()> {
        Ok(())
    }
}

/// A raw socket that accepts streams.
#[derive(Drop)]
pub(crate) enum RawListener {
    Tcp(TcpListener),
    Unix(UnixListener),
}

impl RawListener {
    pub(crate) fn bind<R: Net>(rt: &R, addr: SocketAddr) -> Result<RawListener, Refusal> {
        match TcpListener::bind(rt, addr) {
            Ok(listener) => Ok(RawListener::Tcp(listener)),
            Err(error) => Err(Refusal::of(&error)),
        }
    }

    /// Binds a path, whose file gets this mode. An old socket there that nobody listens on is
    /// replaced.
    pub(crate) fn bind_path<R: Net + Files>(
        rt: &R,
        path: &str,
        mode: u32,
    ) -> Result<RawListener, Refusal> {
        clear_path(rt, path)?;
        let bound = UnixListener::bind(rt, path);
        let listener = bound.map_err(|error| Refusal::of(&error))?;
        fs::set_permissions(rt, path, Permissions::from_mode(mode)).map_err(|error| Refusal::of(
            &error,
        ))?;
        Ok(RawListener::Unix(listener))
    }

    /// Has the poll return when a stream waits.
    pub(super) fn watch(&mut self, poll: &Poll) -> io::Result<()> {
        let (registry, token) = (poll.registry(), Token(0));
        match self {
            RawListener::Tcp(listener) => registry.register(listener, token, Interest::READABLE),
            RawListener::Unix(listener) => registry.register(listener, token, Interest::READABLE),
        }
    }

    /// The next stream that waits; `WouldBlock` if none does.
    pub(super) fn accept(&self) -> io::Result<RawStream> {
        match self {
            RawListener::Tcp(listener) => Ok(RawStream::Tcp(listener.accept()?.0)),
            RawListener::Unix(listener) => {
                let (stream, _) = listener.accept()?;
                Ok(RawStream::Unix(TcpStream::from(OwnedFd::from(stream))))
            }
        }
    }

    /// The port of TCP that it listens on.
    pub(super) fn port(&self) -> Option<u16> {
        match self {
            RawListener::Tcp(listener) => Some(listener.local_addr().ok()?.port()),
            RawListener::Unix(_) => None,
        }
    }
}

/// Removes a socket that nobody listens on from the path. Nothing else is removed.
fn clear_path<R: Net + Files>(rt: &R, path: &str) -> Result<(), Refusal> {
    match fs::symlink_metadata(rt, path) {
        Err(error) if error.kind() == ErrorKind::NotFound => return Ok(()),
        Err(error) => return Err(Refusal::of(&error)),
        Ok(metadata) if !metadata.file_type().is_socket() => return Err(Refusal::OtherFile),
        Ok(_) => {}
    }
    match UnixStream::connect(rt, path) {
        Err(error) if error.kind() == ErrorKind::ConnectionRefused => {}
        Err(error) if error.kind() == ErrorKind::PermissionDenied => return Err(Refusal::Denied),
        _ => return Err(Refusal::PathTaken),
    }
    fs::remove_file(rt, path).map_err(|error| Refusal::of(&error))
}
