//! Socket files, by which programs of one machine connect.
ghost use Rattle.std.specs.Prelude.{◌≤◌, IfSome};

use libc::net::AF_UNIX;
use std::alloc::Global;
use std::fs::Permissions;
use std::io::{Error, ErrorKind};
use std::net::Net;
use std::os::fd::{AsFd, AsRawFd, OwnedFd};
use std::os::unix::fs::{FileTypeExt, PermissionsExt};
use std::os::unix::net::{SocketAddr, UnixListener, UnixStream};
use std::rt::Files;
use std::{fs, io};

/// What a socket file's owner and group may do, and nobody else: read and write.
const MODE: u32 = 0o660;

/// The most bytes of a socket file's path: the system's 108, with a zero at their end.
const LONGEST: usize = 107;

/// Listens at the socket file `path`, which only its owner and group may use. It replaces a socket file at which nobody listens, and fails
/// at any other file. The file is made beside `path` and moved there, since the system makes it with the mode that the process's mask
/// leaves: so at `path` it never has another mode, and somebody listens as soon as it is there.
pub(crate) fn listen<R: Net + Files>(
    rt: &R,
    alloc: Global,
    path: &str,
    backlog: i32,
) -> io::Result<UnixListener> {
    let Ok(fresh) = format!(in alloc; "{path}~") else {
        return Err(Error::from(ErrorKind::OutOfMemory));
    };
    is_left(rt, path)?;
    if is_left(rt, fresh.as_str())? {
        fs::remove_file(rt, fresh.as_str())?;
    }
    let socket = bind(rt, fresh.as_str())?;
    if libc::net::listen(socket.as_raw_fd(), backlog) != 0 {
        return Err(last_error());
    }
    fs::rename(rt, fresh.as_str(), path)?;
    Ok(UnixListener::from(socket))
}

/// Makes the socket file `path`, which only its owner and group may use, also while it is made.
fn bind<R: Net + Files>(rt: &R, path: &str) -> io::Result<OwnedFd> {
    let address = SocketAddr::from_pathname(path)?;
    let socket = rt.unix_socket()?;
    // The file's mode is that of the socket, less what the process's mask takes away.
    if libc::fchmod(socket.as_raw_fd(), MODE) != 0 {
        return Err(last_error());
    }
    rt.bind_unix(socket.as_fd(), &address)?;
    fs::set_permissions(rt, path, Permissions::from_mode(MODE))?;
    Ok(socket)
}

/// Returns whether a socket file is left at `path` at which nobody listens, or nothing is there. Fails if somebody listens or another file is
/// there.
fn is_left<R: Net + Files>(rt: &R, path: &str) -> io::Result<bool> {
    match fs::symlink_metadata(rt, path) {
        Ok(found) if found.file_type().is_socket() => {}
        Ok(_) => return Err(Error::new(
            ErrorKind::AlreadyExists,
            "a file that is no socket is there",
        )),
        Err(error) if error.kind() == ErrorKind::NotFound => return Ok(false),
        Err(error) => return Err(error),
    }
    match connect(rt, path) {
        Ok(_) => Err(Error::new(ErrorKind::AddrInUse, "another program listens there")),
        Err(error) if error.kind() == ErrorKind::ConnectionRefused => Ok(true),
        Err(error) => Err(error),
    }
}

/// Connects to the socket file `path`. Fails rather than wait if too many others wait there to be accepted.
pub(crate) fn connect<R: Net>(rt: &R, path: &str) -> io::Result<OwnedFd> {
    let mut address = [0; 128];
    let Some(length) = put_address(path, &mut address) else {
        return Err(Error::new(
            ErrorKind::InvalidInput,
            "a socket file's path has 1 to 107 bytes",
        ));
    };
    // std's connect would wait for as long as nobody accepts.
    let stream = UnixStream::from(rt.unix_socket()?);
    stream.set_nonblocking(true)?;
    if unsafe { libc::net::connect(stream.as_raw_fd(), &address, length) } != 0 {
        return Err(last_error());
    }
    Ok(OwnedFd::from(stream))
}

/// Writes the system's form of the address of the socket file `path` to the front of `raw`, which has zeros, and returns its length, or `None`
/// if there is no such address.
fn put_address(path: &str, raw: &mut [u8; 128]) -> Option<u32>
    ensures { IfSome result (λ length. length ≤ 128) }
{
    let path = path.as_bytes();
    if path.is_empty() || path.len() > LONGEST || path.contains(&0) {
        return None;
    }
    raw[..2].copy_from_slice(&(AF_UNIX as u16).to_ne_bytes());
    raw[2..2 + path.len()].copy_from_slice(path);
    Some(3 + path.len() as u32)
}

/// Returns the error of the system call that failed last.
pub(crate) fn last_error() -> Error {
    Error::from_raw_os_error(os::errno())
}
