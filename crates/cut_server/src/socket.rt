ghost use Rattle.std.specs.Prelude.{◌≡◌, ◌↔◌, IsTrue};
ghost use Rattle.std.specs.IoError.{raw_os_error};
ghost use Rattle.cut_server.specs.inside.Socket.{IsShortage};

use crate::{ListenFault, Listener};
use cut_faults::Failures;
use cut_wires::StreamWire;
use std::fs::{self, Files, Permissions};
use std::net::Net;
use std::os::unix::fs::PermissionsExt;
use std::os::unix::net::{UnixListener, UnixStream};
use std::time::{Clock, Duration};
use std::{io, thread};

/// A connection over a socket, whose two ends are read and written apart.
pub type SocketWire = StreamWire<UnixStream, UnixStream>;

/// For how many milliseconds a call of the system is put off for which no descriptor or no memory is free, and how often:
/// for an hour.
const PAUSE: u64 = 100;

const PAUSES: u32 = 36_000;

/// No memory was free (Linux's errno.h).
const ENOMEM: i32 = 12;

/// The system had no descriptor free.
const ENFILE: i32 = 23;

/// The process had none.
const EMFILE: i32 = 24;

/// No memory was free for a socket.
const ENOBUFS: i32 = 105;

/// A socket at a path, from which a server's connections come. Once it is closed its file is gone.
///
/// The system is the host's, or another one in tests.
#[derive(Drop)]
pub struct Socket<'a, H: Files + Net = HostRuntime> {
    host: &'a H,
    path: &'a str,
    listener: Option<UnixListener>,
    failures: Failures,
    given: Failures,
}

impl<'a, H: Files + Net> Socket<'a, H> {
    /// Makes a socket at a path if nothing is, which its owner alone may connect to. Fails if something is there, also
    /// the socket of a server that ended without removing it, and leaves no file of its own then.
    pub fn open(host: &'a H, path: &'a str) -> io::Result<Socket<'a, H>> {
        let listener = UnixListener::bind(host, path)?;
        let owner_alone = Permissions::from_mode(0o600);
        if let Err(error) = fs::set_permissions(host, path, owner_alone) {
            let _ = fs::remove_file(host, path);
            return Err(error);
        }
        Ok(Socket {
            host,
            path,
            listener: Some(listener),
            failures: Failures::none(),
            given: Failures::none(),
        })
    }
}

impl<H: Files + Net + Clock> Socket<'_, H> {
    /// Waits for the next connection. There is none once it is closed.
    fn next(&self) -> Option<SocketWire> {
        let listener = self.listener.as_ref()?;
        next_connection(self.host, listener).ok()
    }
}

impl<H: Files + Net + Clock> Listener for Socket<'_, H> {
    type Connection = SocketWire;

    ghost calls = { λ d. record { given = d.given; failed = d.failures } };

    fn accept(&mut self) -> Result<SocketWire, ListenFault> {
        match self.next() {
            Some(wire) => {
                self.given.add();
                Ok(wire)
            }
            None => {
                self.failures.add();
                Err(ListenFault)
            }
        }
    }

    fn close(&mut self) {
        if let Some(listener) = self.listener.take() {
            drop(listener);
            let _ = fs::remove_file(self.host, self.path);
        }
    }
}

/// Waits for the next connection of a socket. A client for whom no descriptor is free waits until one is, as one is
/// once a session ends: those who are served already are not cut off.
fn next_connection<C: Clock>(clock: &C, listener: &UnixListener) -> io::Result<SocketWire> {
    let (stream, _) = once_there_is_room(clock, &|| listener.accept())?;
    let other = once_there_is_room(clock, &|| stream.try_clone())?;
    Ok(StreamWire::new(other, stream))
}

/// What a call of the system returns, once a descriptor and memory are free for it, or after the last pause.
fn once_there_is_room<T, C, F>(clock: &C, call: &F) -> io::Result<T>
where
    C: Clock,
    F: Fn() -> io::Result<T>,
    requires { F.pre call.now }
    ensures { F.post call.now result }
{
    for _ in 0..PAUSES {
        match call() {
            Err(error) if is_shortage(&error) => {
                thread::sleep(clock, Duration::from_millis(PAUSE));
            }
            outcome => return outcome,
        }
    }
    call()
}

/// Whether a call of the system failed as no memory or no descriptor was free for it.
fn is_shortage(error: &io::Error) -> bool
    ensures { IsTrue result ↔ IsShortage (raw_os_error error.now) }
{
    match error.raw_os_error() {
        Some(code) => code == ENOMEM || code == ENFILE || code == EMFILE || code == ENOBUFS,
        None => false,
    }
}
