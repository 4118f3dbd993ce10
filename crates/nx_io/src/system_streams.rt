// Streams of the system, over TCP and over local sockets. With `local_sockets`, the calls of the network stand in this file alone.
ghost use Rattle.std.specs.Prelude.{◌≡◌, ◌≢◌, IfErr, true};
ghost use Rattle.std.specs.IoError.{error_kind};

use crate::local_sockets::bound_at;
use std::fs::Files;
use std::io::{self, ErrorKind, Read, Write};
use std::net::{Net, TcpListener, TcpStream, ToSocketAddrs};
use std::os::unix::net::{UnixListener, UnixStream};
use std::str;
use std::time::Duration;

/// With what the address of a local socket begins. The rest is its path.
const LOCAL: &str = "unix:";

/// A connection: over TCP, or over a local socket.
#[derive(Drop)]
pub enum SystemStream {
    Tcp(TcpStream),
    Local(UnixStream),
}

impl SystemStream {
    /// A connection to an address: a host and a port, or `unix:` and the path of a local socket. It is tried again where a signal
    /// interrupts it.
    pub fn connect<R: Net<Listener = TcpListener, Stream = TcpStream>>(
        rt: &R,
        address: &[u8],
    ) -> io::Result<SystemStream> {
        let address = text_of(address)?;
        for _ in 0..u64::MAX {
            match connected(rt, address) {
                Ok(stream) => return Ok(stream),
                Err(error) => {
                    if error.kind() != ErrorKind::Interrupted {
                        return Err(error);
                    }
                }
            }
        }
        Err(io::Error::from(ErrorKind::TimedOut))
    }

    /// A connection as of `connect`, where each address of the host may take so long to accept it. To a local socket it is as of
    /// `connect`.
    pub fn connect_within<R: Net<Listener = TcpListener, Stream = TcpStream>>(
        rt: &R,
        address: &[u8],
        limit: Duration,
    ) -> io::Result<SystemStream> {
        let text = text_of(address)?;
        if text.starts_with(LOCAL) {
            return SystemStream::connect(rt, address);
        }
        for place in text.to_socket_addrs(rt)? {
            if let Ok(stream) = TcpStream::connect_timeout(rt, &place, limit) {
                return Ok(SystemStream::Tcp(stream));
            }
        }
        Err(io::Error::from(ErrorKind::NotConnected))
    }

    /// Lets each read and each write of the stream wait so long at most, and fail then.
    pub fn set_limit(&self, limit: Duration) -> io::Result<()> {
        match self {
            SystemStream::Tcp(stream) => {
                stream.set_read_timeout(Some(limit))?;
                stream.set_write_timeout(Some(limit))
            }
            SystemStream::Local(stream) => {
                stream.set_read_timeout(Some(limit))?;
                stream.set_write_timeout(Some(limit))
            }
        }
    }

    /// Lets small pieces go out at once, where the system allows that.
    pub(crate) fn set_prompt(&self) {
        if let SystemStream::Tcp(stream) = self {
            let _ = stream.set_nodelay(true);
        }
    }

    /// Another handle of the same connection.
    pub fn try_clone(&self) -> io::Result<SystemStream> {
        match self {
            SystemStream::Tcp(stream) => Ok(SystemStream::Tcp(stream.try_clone()?)),
            SystemStream::Local(stream) => Ok(SystemStream::Local(stream.try_clone()?)),
        }
    }
}

impl Read for SystemStream {
    fn read(&mut self, into: &mut [u8]) -> io::Result<usize> {
        match self {
            SystemStream::Tcp(stream) => stream.read(into),
            SystemStream::Local(stream) => stream.read(into),
        }
    }
}

impl Write for SystemStream {
    fn write(&mut self, piece: &[u8]) -> io::Result<usize> {
        match self {
            SystemStream::Tcp(stream) => stream.write(piece),
            SystemStream::Local(stream) => stream.write(piece),
        }
    }

    fn flush(&mut self) -> io::Result<()> {
        Ok(())
    }
}

/// What accepts connections at an address.
#[derive(Drop)]
pub(crate) enum SystemListener {
    Tcp(TcpListener),
    Local(UnixListener),
}

impl SystemListener {
    /// Listens at an address: a host and a port, or `unix:` and a path, at which a socket is made that its owner alone may use.
    pub(crate) fn bind<R: Net<Listener = TcpListener, Stream = TcpStream> + Files>(
        rt: &R,
        address: &[u8],
    ) -> io::Result<SystemListener> {
        let address = text_of(address)?;
        match address.strip_prefix(LOCAL) {
            Some(path) => Ok(SystemListener::Local(bound_at(rt, path)?)),
            None => Ok(SystemListener::Tcp(TcpListener::bind(rt, address)?)),
        }
    }

    /// The same listener once more.
    pub(crate) fn try_clone(&self) -> io::Result<SystemListener> {
        match self {
            SystemListener::Tcp(listener) => Ok(SystemListener::Tcp(listener.try_clone()?)),
            SystemListener::Local(listener) => Ok(SystemListener::Local(listener.try_clone()?)),
        }
    }

    /// The next connection. What fails for one connection alone is passed over.
    pub(crate) fn accept(&self) -> io::Result<SystemStream>
        ensures retried { IfErr result (λ e. error_kind e ≢ ErrorKind.Interrupted
            × error_kind e ≢ ErrorKind.ConnectionAborted) }
    {
        for _ in 0..u64::MAX {
            match self.accept_once() {
                Ok(stream) => return Ok(stream),
                Err(error) => {
                    if !is_of_one_connection(error.kind()) {
                        return Err(error);
                    }
                }
            }
        }
        Err(io::Error::from(ErrorKind::TimedOut))
    }

    fn accept_once(&self) -> io::Result<SystemStream> {
        match self {
            SystemListener::Tcp(listener) => Ok(SystemStream::Tcp(listener.accept()?.0)),
            SystemListener::Local(listener) => Ok(SystemStream::Local(listener.accept()?.0)),
        }
    }
}

/// One attempt to connect.
fn connected<R: Net<Listener = TcpListener, Stream = TcpStream>>(
    rt: &R,
    address: &str,
) -> io::Result<SystemStream> {
    match address.strip_prefix(LOCAL) {
        Some(path) => Ok(SystemStream::Local(UnixStream::connect(rt, path)?)),
        None => Ok(SystemStream::Tcp(TcpStream::connect(rt, address)?)),
    }
}

/// An address as a text.
fn text_of(address: &[u8]) -> io::Result<&str> {
    match str::from_utf8(address) {
        Ok(text) => Ok(text),
        Err(_) => Err(io::Error::from(ErrorKind::InvalidInput)),
    }
}

/// Whether an accept that fails so leaves the listener as it was: the call was interrupted, or the connection was given up or
/// lost before it was accepted.
fn is_of_one_connection(kind: ErrorKind) -> bool
    ensures interrupted { kind ≡ ErrorKind.Interrupted → result ≡ true }
    ensures aborted { kind ≡ ErrorKind.ConnectionAborted → result ≡ true }
{
    matches!(
        kind,
        ErrorKind::Interrupted
            | ErrorKind::ConnectionAborted
            | ErrorKind::ConnectionReset
            | ErrorKind::HostUnreachable
            | ErrorKind::NetworkUnreachable
            | ErrorKind::NetworkDown
    )
}
