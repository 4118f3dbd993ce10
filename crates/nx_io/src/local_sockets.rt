// Sockets of the file system that their owner alone may use.
use std::alloc::Allocator;
use std::fs::{self, Files, Metadata, OpenOptions, Permissions};
use std::io::{self, ErrorKind, Write};
use std::net::{Net, SocketAddr};
use std::os::fd::{AsRawFd, BorrowedFd, OwnedFd, RawFd};
use std::os::unix::fs::{FileTypeExt, PermissionsExt};
use std::os::unix::net::{SocketAddr as LocalAddr, UnixListener, UnixStream};
use std::str;

/// Its owner may read and write it, and nobody else may.
const OWNERS_ALONE: u32 = 0o600;

/// Listens at a path. Where it exists, it is replaced only where it is a socket that refuses a connection: one that was left behind. An
/// empty path is none: the system would take it for an address without a file, which everybody may use.
pub(crate) fn bound_at<R: Net + Files>(rt: &R, path: &str) -> io::Result<UnixListener> {
    if path.is_empty() {
        return Err(io::Error::from(ErrorKind::InvalidInput));
    }
    match UnixListener::bind(&Private(rt), path) {
        Err(error) if error.kind() == ErrorKind::AddrInUse && is_left_behind(rt, path) => {
            fs::remove_file(rt, path)?;
            UnixListener::bind(&Private(rt), path)
        }
        bound => bound,
    }
}

/// Whether there is a socket at the path at which nobody listens.
fn is_left_behind<R: Net + Files>(rt: &R, path: &str) -> bool {
    let Ok(found) = fs::symlink_metadata(rt, path) else {
        return false;
    };
    if !found.file_type().is_socket() {
        return false;
    }
    match UnixStream::connect(rt, path) {
        Ok(_) => false,
        Err(error) => error.kind() == ErrorKind::ConnectionRefused,
    }
}

/// A runtime whose local sockets are made for their owner alone: before a socket gets its path it gets its mode, which the system
/// narrows by the umask. So there is no moment at which another one could connect.
#[derive(Drop)]
struct Private<'a, R>(&'a R);

impl<'a, R: Net> Net for Private<'a, R> {
    type Stream = R::Stream;

    type Listener = R::Listener;

    fn bind(&self, address: SocketAddr) -> io::Result<R::Listener> {
        self.0.bind(address)
    }

    fn connect(&self, address: SocketAddr) -> io::Result<R::Stream> {
        self.0.connect(address)
    }

    fn unix_socket(&self) -> io::Result<OwnedFd> {
        self.0.unix_socket()
    }
}

impl<'a, R: Files> Files for Private<'a, R> {
    type File = R::File;

    type Dir = R::Dir;

    fn open_file(&self, how: &OpenOptions, path: &str) -> io::Result<R::File> {
        self.0.open_file(how, path)
    }

    fn open_dir(&self, path: &str) -> io::Result<R::Dir> {
        self.0.open_dir(path)
    }

    fn metadata(&self, path: &str) -> io::Result<Metadata> {
        self.0.metadata(path)
    }

    fn symlink_metadata(&self, path: &str) -> io::Result<Metadata> {
        self.0.symlink_metadata(path)
    }

    fn copy(&self, from: &str, to: &str) -> io::Result<u64> {
        self.0.copy(from, to)
    }

    fn rename(&self, from: &str, to: &str) -> io::Result<()> {
        self.0.rename(from, to)
    }

    fn remove_file(&self, path: &str) -> io::Result<()> {
        self.0.remove_file(path)
    }

    fn create_dir(&self, path: &str) -> io::Result<()> {
        self.0.create_dir(path)
    }

    fn remove_dir(&self, path: &str) -> io::Result<()> {
        self.0.remove_dir(path)
    }

    fn remove_dir_all<B: Allocator>(&self, alloc: B, path: &str) -> io::Result<()> {
        self.0.remove_dir_all(alloc, path)
    }

    fn bind_unix(&self, socket: BorrowedFd<'_>, address: &LocalAddr) -> io::Result<()> {
        keep_private(self.0, socket.as_raw_fd())?;
        self.0.bind_unix(socket, address)
    }
}

/// Gives an open socket its mode, by the name that it has among the open files of this process.
fn keep_private<R: Files>(rt: &R, socket: RawFd) -> io::Result<()> {
    let mut name = [0; 32];
    let mut room = name.as_mut_slice();
    write!(room, "/proc/self/fd/{socket}")?;
    let length = 32usize.saturating_sub(room.len());
    let Ok(name) = str::from_utf8(&name[..length]) else {
        return Err(io::Error::from(ErrorKind::InvalidInput));
    };
    fs::set_permissions(rt, name, Permissions::from_mode(OWNERS_ALONE))
}
