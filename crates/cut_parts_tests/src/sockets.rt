//! Sockets of the system and in memory, each through the trait that connects to them.

use cut_sockets::{Connection, MemorySockets, Sockets, SystemSockets};
use cut_wires::{MemoryWire, Wire, WireFault};
use std::alloc::Global;
use std::os::unix::net::{UnixListener, UnixStream};
use std::test::Fail;

/// Whether a connection to a path is refused.
fn is_refused<S: Sockets>(sockets: &mut S, path: &str) -> bool {
    match sockets.connect(path) {
        Ok(wire) => {
            sockets.hang_up(path, wire);
            false
        }
        Err(_) => true,
    }
}

/// Whether two bytes are written to the peer of a path, over a connection that ends then.
fn writes<S: Sockets>(sockets: &mut S, path: &str) -> bool {
    let Ok(mut wire) = sockets.connect(path) else {
        return false;
    };
    let written = wire.write(b"ab");
    sockets.hang_up(path, wire);
    written == Ok(2)
}

/// Sockets in memory, of which one has a wire that gives `xy`.
fn memory_of(alloc: Global) -> Result<MemorySockets, Fail> {
    let mut sockets = MemorySockets::new(alloc);
    let input = Vec::from_slice(alloc, b"xy")?;
    sockets.put("here", MemoryWire::new(alloc, input, 100))?;
    Ok(sockets)
}

#[test]
fn a_peer_in_memory_is_one_at_a_time(rt: HostRuntime) -> Result<(), Fail> {
    let mut sockets = memory_of(rt.alloc())?;
    assert!(rt; is_refused(&mut sockets, "there"));
    assert!(rt; writes(&mut sockets, "here"));
    let Ok(wire) = sockets.connect("here") else {
        return Err(Fail::new("the peer was not connected to"));
    };
    let is_busy = sockets.wire("here").is_none();
    match sockets.connect("here") {
        Ok(_second) => return Err(Fail::new("the peer was connected to twice")),
        Err(_) => sockets.hang_up("here", wire),
    }
    assert!(rt; is_busy);
    assert!(rt; writes(&mut sockets, "here"));
    assert!(rt; sockets.wire("here").map(|wire| wire.taken()) == Some(b"abab".as_slice()));
    Ok(())
}

#[test]
fn a_socket_of_the_system_is_connected_to(rt: HostRuntime) -> Result<(), Fail> {
    let mut sockets = SystemSockets::of(&rt);
    assert!(rt; is_refused(&mut sockets, "none.sock"));
    let listener = UnixListener::bind(&rt, "peer.sock")?;
    assert!(rt; writes(&mut sockets, "peer.sock"));
    let (stream, _) = listener.accept()?;
    let mut peer = Connection::new(stream);
    let mut buffer = [0; 4];
    assert!(rt; peer.read(&mut buffer) == Ok(2) && buffer.starts_with(b"ab"));
    assert!(rt; peer.read(&mut buffer) == Ok(0) && peer.failures() == 0);
    Ok(())
}

#[test]
fn calls_of_a_connection_that_fail_are_counted(rt: HostRuntime) -> Result<(), Fail> {
    let (stream, other) = UnixStream::pair(&rt)?;
    let mut wire = Connection::new(stream);
    drop(other);
    assert!(rt; wire.write(b"ab") == Err(WireFault));
    assert!(rt; wire.write(b"ab") == Err(WireFault));
    assert!(rt; wire.failures() == 2);
    Ok(())
}
