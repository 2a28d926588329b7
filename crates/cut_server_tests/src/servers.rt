//! Servers and their clients, over sockets of the system and over wires in memory.

use cut_commands::{CliFault, PlanSource, ask};
use cut_faults::Failures;
use cut_files::MemoryFiles;
use cut_server::{Capacity, FolderShelf, ListenFault, Listener, Server, SocketServer, serve_at};
use cut_sockets::SystemSockets;
use cut_wires::MemoryWire;
use std::alloc::{AllocError, Global};
use std::io::Write;
use std::os::unix::fs::PermissionsExt;
use std::os::unix::net::UnixStream;
use std::sync::Wait;
use std::test::Fail;
use std::thread::Threads;
use std::time::Duration;
use std::{fs, thread};

/// A study of one cell: two trials of five processes, of which one crashes.
const PLAN: &str =
    r#"{"copies":1,"dead":"silent","f":[1],"faults":"crash","h":[1],"implicit":true,"k":[1],"l":[1],"liars":0,"links":0,"nodes":5,"repeats":2,"seed":"0000000000000000000000000000000000000000000000000000000000000000","version":1}"#;

/// Its table.
const TABLE: &str =
    "k,h,l,f,trials,receivers,conflicts,silent,extra,votes,decided,right,ppm\n1,1,1,1,2,8,0,0,0,8,2,2,0\n";

/// Another study: one trial of five processes, of which one lies.
const LIAR_PLAN: &str =
    r#"{"copies":1,"dead":"silent","f":[0],"faults":"crash","h":[1],"implicit":true,"k":[1],"l":[1],"liars":1,"links":0,"nodes":5,"repeats":1,"seed":"0000000000000000000000000000000000000000000000000000000000000000","version":1}"#;

/// Its table.
const LIAR_TABLE: &str =
    "k,h,l,f,trials,receivers,conflicts,silent,extra,votes,decided,right,ppm\n1,1,1,0,1,5,0,0,5,5,1,0,0\n";

/// A server of this many sessions, and the line with which it ends: what it writes, or its fault. What it writes is not
/// compared if there is no line.
struct ServerCase {
    socket: &'static str,
    sessions: u32,
    folder: Option<&'static str>,
    line: &'static str,
}

/// Whether a server ends with its line.
fn ends_so<T: Threads + Wait + Sync>(
    host: &HostRuntime,
    rt: &T,
    server: &ServerCase,
) -> Result<bool, AllocError> {
    let alloc = host.alloc();
    let capacity = Capacity {
        workers: 2,
        sessions: server.sessions.max(1).min(64),
        studies: 2,
    };
    let mut wire = MemoryWire::new(alloc, Vec::new(alloc), 100);
    let place = SocketServer {
        socket: server.socket,
        folder: server.folder,
        capacity,
    };
    match serve_at(host, rt, place, &mut wire) {
        Ok(_report) => Ok(server.line.is_empty() || wire.taken() == server.line.as_bytes()),
        Err(fault) => {
            Ok(wire.taken().is_empty() && fault.to_string(alloc)?.as_str() == server.line)
        }
    }
}

/// Whether a client that asks once has its table.
fn is_asked_once(
    host: &HostRuntime,
    socket: &str,
    plan: &str,
    table: &str,
) -> Result<bool, AllocError> {
    let alloc = host.alloc();
    let input = Vec::from_slice(alloc, plan.as_bytes())?;
    let mut wire = MemoryWire::new(alloc, input, 4096);
    let mut sockets = SystemSockets::of(host);
    let source = PlanSource::<MemoryFiles>::Input;
    let ended = ask(&mut sockets, alloc, source, &mut wire, socket);
    Ok(ended.is_ok() && wire.taken() == table.as_bytes())
}

/// Whether a client has its table, once there is a server.
fn is_asked(host: &HostRuntime, socket: &str, plan: &str, table: &str) -> Result<bool, AllocError> {
    for _ in 0..10_000 {
        if is_asked_once(host, socket, plan, table)? {
            return Ok(true);
        }
        thread::sleep(host, Duration::from_millis(1));
    }
    Ok(false)
}

/// A client that sends a plan and leaves without an answer, once there is a server.
fn vanish(host: &HostRuntime, socket: &str) {
    for _ in 0..10_000 {
        if let Ok(mut stream) = UnixStream::connect(host, socket) {
            let _ = stream.write_all(b"R\0\0\0\xdd");
            let _ = stream.write_all(PLAN.as_bytes());
            return;
        }
        thread::sleep(host, Duration::from_millis(1));
    }
}

/// Whether a socket is there, sooner or later, that its owner alone may connect to.
fn is_for_its_owner(host: &HostRuntime, socket: &str) -> bool {
    for _ in 0..10_000 {
        if let Ok(found) = fs::metadata(host, socket) {
            if found.permissions().mode() & 0o777 == 0o600 {
                return true;
            }
        }
        thread::sleep(host, Duration::from_millis(1));
    }
    false
}

/// Whether connections to a socket are refused, sooner or later.
fn is_refusing(host: &HostRuntime, socket: &str) -> bool {
    for _ in 0..10_000 {
        if UnixStream::connect(host, socket).is_err() {
            return true;
        }
        thread::sleep(host, Duration::from_millis(1));
    }
    false
}

/// Holds the only connection of a server. Returns whether the socket was its owner's alone, and whether those who
/// come later are refused while the connection lasts.
fn hold(host: &HostRuntime, socket: &str) -> (bool, bool) {
    let is_own = is_for_its_owner(host, socket);
    match UnixStream::connect(host, socket) {
        Ok(stream) => {
            let refuses = is_refusing(host, socket);
            drop(stream);
            (is_own, refuses)
        }
        Err(_) => (is_own, false),
    }
}

/// Who comes to a server.
#[derive(Clone, Copy)]
enum Visit {
    /// Two clients at once, of which each asks for a table of its own.
    Two,
    /// A client that leaves without an answer.
    Vanished,
    /// A client that holds the only connection, and others that come later.
    Late,
}

/// Whether two clients at once have their tables.
fn two_are_served<T: Threads + Wait + Sync>(
    host: &HostRuntime,
    rt: &T,
    socket: &str,
) -> Result<bool, AllocError> {
    let (first, second) = thread::join(
        rt,
        || is_asked(host, socket, PLAN, TABLE),
        || is_asked(host, socket, LIAR_PLAN, LIAR_TABLE),
    );
    Ok(first? && second?)
}

/// Whether clients are served as they should be.
fn are_served<T: Threads + Wait + Sync>(
    host: &HostRuntime,
    rt: &T,
    socket: &str,
    visit: Visit,
) -> Result<bool, AllocError> {
    match visit {
        Visit::Two => two_are_served(host, rt, socket),
        Visit::Vanished => {
            vanish(host, socket);
            Ok(true)
        }
        Visit::Late => Ok(hold(host, socket) == (true, true)),
    }
}

/// Whether a server goes so to which someone comes, and no socket is left.
fn goes_so<T: Threads + Wait + Sync>(
    host: &HostRuntime,
    rt: &T,
    server: &ServerCase,
    visit: Visit,
) -> Result<bool, AllocError> {
    let _ = fs::remove_file(host, server.socket);
    let (ended, served) = thread::join(
        rt,
        || ends_so(host, rt, server),
        || are_served(host, rt, server.socket, visit),
    );
    Ok(ended? && served? && fs::metadata(host, server.socket).is_err())
}

const SERVERS: &[(ServerCase, Visit)] = &[
    (
        ServerCase {
            socket: "cutlab_two_clients.sock",
            sessions: 2,
            folder: None,
            line: "accepted 3\n",
        },
        Visit::Two,
    ),
    (
        ServerCase {
            socket: "cutlab_vanish.sock",
            sessions: 1,
            folder: None,
            line: "",
        },
        Visit::Vanished,
    ),
    (
        ServerCase {
            socket: "cutlab_late.sock",
            sessions: 1,
            folder: None,
            line: "accepted 0\n",
        },
        Visit::Late,
    ),
];

#[test]
fn servers_and_their_clients(rt: HostRuntime) -> Result<(), Fail> {
    for (number, (server, visit)) in SERVERS.iter().enumerate() {
        assert!(rt; goes_so(&rt, &rt, server, *visit)?, "{number}");
    }
    Ok(())
}

/// A file that is no folder.
const PLAIN_FILE: &str = "cutlab_plain_file";

/// Servers that can't begin.
const REFUSED: &[ServerCase] = &[
    ServerCase {
        socket: "cutlab_none/a.sock",
        sessions: 1,
        folder: None,
        line: "cutlab: fault 43 Read",
    },
    ServerCase {
        socket: "cutlab_plain.sock",
        sessions: 1,
        folder: Some(PLAIN_FILE),
        line: "cutlab: fault 20 Disk",
    },
    ServerCase {
        socket: "cutlab_begin.sock",
        sessions: 1,
        folder: Some("cutlab_none"),
        line: "cutlab: fault 20 Disk",
    },
];

#[test]
fn a_server_that_cannot_begin_says_so(rt: HostRuntime) -> Result<(), Fail> {
    fs::write(&rt, PLAIN_FILE, b"no folder")?;
    for (number, server) in REFUSED.iter().enumerate() {
        assert!(rt; ends_so(&rt, &rt, server)?, "{number}");
    }
    Ok(fs::remove_file(&rt, PLAIN_FILE)?)
}

/// A listener that gives one connection, whose client has left, and fails from then on.
#[derive(Drop)]
struct Once {
    wire: Option<MemoryWire>,
    failures: Failures,
    given: Failures,
}

impl Listener for Once {
    type Connection = MemoryWire;

    ghost calls = { λ l. record { given = l.given; failed = l.failures } };

    fn accept(&mut self) -> Result<MemoryWire, ListenFault> {
        match self.wire.take() {
            Some(wire) => {
                self.given.add();
                Ok(wire)
            }
            None => {
                self.failures.add();
                Err(ListenFault)
            }
        }
    }

    fn close(&mut self) {
        self.wire = None;
    }
}

#[test]
fn a_connection_that_does_not_come_is_reported(rt: HostRuntime) {
    let alloc = rt.alloc();
    let listener = Once {
        wire: Some(MemoryWire::new(alloc, Vec::new(alloc), 1)),
        failures: Failures::none(),
        given: Failures::none(),
    };
    let shelf = FolderShelf {
        host: &rt,
        folder: None,
    };
    let server = Server {
        rt: &rt,
        alloc,
        shelf: &shelf,
        capacity: Capacity {
            workers: 1,
            sessions: 2,
            studies: 1,
        },
    };
    let mut wire = MemoryWire::new(alloc, Vec::new(alloc), 100);
    let (listener, ended) = server.serve_io(listener, &mut wire);
    assert!(rt; matches!(ended, Err(CliFault::Socket)));
    assert!(rt; listener.failures.count() == 1 && listener.given.count() == 1);
    assert!(rt; wire.taken().is_empty());
}
