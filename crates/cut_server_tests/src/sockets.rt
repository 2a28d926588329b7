//! Sockets of a system that refuses something.

use cut_server::{Listener, Socket};
use std::alloc::Allocator;
use std::fs::{self, File, Files, Metadata, OpenOptions};
use std::io::{self, ErrorKind};
use std::net::{Net, SocketAddr};
use std::os::fd::{BorrowedFd, OwnedFd};
use std::os::unix::net::{SocketAddr as UnixAddr, UnixStream};
use std::test::Fail;
use std::thread;
use std::time::Duration;

const PATH: &str = "cutlab_refusing.sock";

/// A system in which nobody may set a permission.
#[derive(Clone, Copy)]
struct Refusing<'a> {
    host: &'a HostRuntime,
}

impl Files for Refusing<'_> {
    type File = File;

    type Dir = <HostRuntime as Files>::Dir;

    fn open_file(&self, _how: &OpenOptions, _path: &str) -> io::Result<File> {
        Err(ErrorKind::Unsupported.into())
    }

    fn open_dir(&self, _path: &str) -> io::Result<Self::Dir> {
        Err(ErrorKind::Unsupported.into())
    }

    fn metadata(&self, _path: &str) -> io::Result<Metadata> {
        Err(ErrorKind::Unsupported.into())
    }

    fn symlink_metadata(&self, _path: &str) -> io::Result<Metadata> {
        Err(ErrorKind::Unsupported.into())
    }

    fn copy(&self, _from: &str, _to: &str) -> io::Result<u64> {
        Err(ErrorKind::Unsupported.into())
    }

    fn rename(&self, _from: &str, _to: &str) -> io::Result<()> {
        Err(ErrorKind::Unsupported.into())
    }

    fn remove_file(&self, path: &str) -> io::Result<()> {
        self.host.remove_file(path)
    }

    fn create_dir(&self, _path: &str) -> io::Result<()> {
        Err(ErrorKind::Unsupported.into())
    }

    fn remove_dir(&self, _path: &str) -> io::Result<()> {
        Err(ErrorKind::Unsupported.into())
    }

    fn remove_dir_all<B: Allocator>(&self, _alloc: B, _path: &str) -> io::Result<()> {
        Err(ErrorKind::Unsupported.into())
    }

    fn bind_unix(&self, socket: BorrowedFd<'_>, addr: &UnixAddr) -> io::Result<()> {
        self.host.bind_unix(socket, addr)
    }
}

impl Net for Refusing<'_> {
    type Stream = <HostRuntime as Net>::Stream;

    type Listener = <HostRuntime as Net>::Listener;

    fn bind(&self, _addr: SocketAddr) -> io::Result<Self::Listener> {
        Err(ErrorKind::Unsupported.into())
    }

    fn connect(&self, _addr: SocketAddr) -> io::Result<Self::Stream> {
        Err(ErrorKind::Unsupported.into())
    }

    fn unix_socket(&self) -> io::Result<OwnedFd> {
        self.host.unix_socket()
    }
}

#[test]
fn a_socket_that_others_may_connect_to_is_removed(rt: HostRuntime) {
    let _ = fs::remove_file(&rt, PATH);
    let system = Refusing { host: &rt };
    let opened = Socket::open(&system, PATH);
    assert!(rt; matches!(opened, Err(error) if error.kind() == ErrorKind::Unsupported));
    assert!(rt; fs::metadata(&rt, PATH).is_err());
}

const FULL: &str = "cutlab_full.sock";

/// More descriptors than a process usually may have.
const MANY: usize = 1 << 17;

/// Opens a device again and again, until no descriptor is free or it is open as often as said.
fn take_descriptors(host: &HostRuntime) -> Result<Vec<File>, Fail> {
    let mut taken = Vec::with_capacity(host.alloc(), MANY)?;
    for _ in 0..MANY {
        match fs::open(host, "/dev/null") {
            Ok(file) => taken.push(file)?,
            Err(_) => return Ok(taken),
        }
    }
    Err("this process may have too many descriptors")?
}

#[test]
fn a_client_waits_for_a_free_descriptor(rt: HostRuntime) -> Result<(), Fail> {
    let _ = fs::remove_file(&rt, FULL);
    let mut socket = Socket::open(&rt, FULL)?;
    let client = UnixStream::connect(&rt, FULL)?;
    let taken = take_descriptors(&rt)?;
    let host = &rt;
    let (_, accepted) = thread::join(
        host,
        move || {
            thread::sleep(host, Duration::from_millis(50));
            drop(taken);
        },
        || socket.accept().is_ok(),
    );
    assert!(rt; accepted);
    drop(client);
    Listener::close(&mut socket);
    Ok(())
}
