//! A wire over sockets.

use crate::rows::row_of;
use outside::{Wire, WireEvent};
use std::alloc::Global;
use std::convert::AsStr;
use std::io::{Read, Write};
use std::net::{Shutdown, TcpListener, TcpStream};
use std::test::Fail;
use std::thread::Threads;
use std::time::Duration;
use std::{io, thread};
use wire_mio::MioWire;
use zbx_types::{OutOfMemory, Text};

/// An address of this machine at which nothing listens.
fn free_address(rt: &HostRuntime) -> io::Result<Text> {
    let address = TcpListener::bind(rt, "127.0.0.1:0")?.local_addr()?;
    Ok(Text::from(format!(in rt.alloc(); "{address}")?))
}

/// Sends in two pieces, then bytes that nobody reads, and answers how many bytes it got up to the end.
fn ask(rt: &HostRuntime, address: &str) -> io::Result<u64> {
    let mut stream = TcpStream::connect(rt, address)?;
    stream.write_all(b"hello ")?;
    thread::sleep(rt, Duration::from_millis(50));
    stream.write_all(b"world")?;
    thread::sleep(rt, Duration::from_millis(50));
    stream.write_all(&[b'x'; 30_000])?;
    io::copy(&mut stream, &mut io::sink())
}

/// What a wire told up to the first Quiet or error: the latest connection that opened, how many bytes came, and how many
/// connections ended. Where at least as many bytes came as are stated, it sends the reply and closes the connection.
fn told(
    wire: &mut MioWire<&HostRuntime>,
    alloc: Global,
    length: usize,
    reply: &[u8],
) -> (u64, usize, u64) {
    let (mut opened, mut came, mut ended) = (0, 0usize, 0u64);
    for _ in 0..1_000 {
        match wire.next(alloc) {
            Ok(WireEvent::Opened { conn, .. }) => opened = conn,
            Ok(WireEvent::Piece { conn, bytes, .. }) => {
                came = came.saturating_add(bytes.len());
                if length <= came {
                    let _ = wire.send(conn, reply);
                    wire.close(conn);
                }
            }
            Ok(WireEvent::Ended { .. }) => ended = ended.saturating_add(1),
            _ => break,
        }
    }
    (opened, came, ended)
}

/// How many bytes of a long reply a client reads, and what the wire has left of it then.
fn read_reply<R: Threads>(rt: &HostRuntime, threads: &R, reply: &[u8]) -> Result<String, Fail> {
    let address = free_address(rt)?;
    let mut wire = MioWire::listen(rt, rt.alloc(), &address)?;
    let (_, got) = thread::join(
        threads,
        || told(&mut wire, rt.alloc(), 11, reply),
        || ask(rt, address.as_str()).unwrap_or(0),
    );
    Ok(format!(in rt.alloc(); "{} {} {}", got, wire.unsent(), wire.connections())?)
}

/// The same of a reply of 1,048,576 bytes.
fn reply_wholly<R: Threads>(rt: &HostRuntime, threads: &R) -> Result<String, Fail> {
    let reply = Vec::from_elem(rt.alloc(), b'r', 1 << 20)?;
    read_reply(rt, threads, reply.as_slice())
}

/// A client that has sent three bytes before the wire looks: what is told behind its reply, and the five bytes that it gets,
/// where it is gone then.
fn answered_at_once(
    rt: &HostRuntime,
    wire: &mut MioWire<&HostRuntime>,
    address: &str,
) -> io::Result<((u64, usize, u64), usize)> {
    let mut client = TcpStream::connect(rt, address)?;
    client.write_all(b"abc")?;
    for _ in 0..2 {
        if let Ok(WireEvent::Piece { conn, .. }) = wire.next(rt.alloc()) {
            let _ = wire.send(conn, b"reply");
            wire.close(conn);
        }
    }
    let mut reply = [0; 8];
    let got = client.read(&mut reply)?;
    drop(client);
    let events = told(wire, rt.alloc(), usize::MAX, b"");
    Ok((events, if wire.connections() == 0 { got } else { 0 }))
}

/// A client that sends three bytes and no more, and the five that it gets.
fn half_closed(
    rt: &HostRuntime,
    wire: &mut MioWire<&HostRuntime>,
    address: &str,
) -> io::Result<((u64, usize, u64), usize)> {
    let mut client = TcpStream::connect(rt, address)?;
    client.write_all(b"abc")?;
    client.shutdown(Shutdown::Write)?;
    let events = told(wire, rt.alloc(), usize::MAX, b"");
    let _ = wire.send(events.0, b"reply");
    wire.close(events.0);
    let mut reply = [0; 8];
    Ok((events, client.read(&mut reply)?))
}

/// As many clients, and what was told of them, with how many connections are there.
fn crowd(
    rt: &HostRuntime,
    wire: &mut MioWire<&HostRuntime>,
    address: &str,
    size: u32,
) -> io::Result<((u64, usize, u64), usize)> {
    let mut clients = Vec::new(rt.alloc());
    for _ in 0..size {
        clients.push(TcpStream::connect(rt, address)?)?;
    }
    Ok((told(wire, rt.alloc(), usize::MAX, b""), wire.connections()))
}

/// A client that comes behind others, and what is told of it, with how many connections are there then.
fn follow(
    rt: &HostRuntime,
    wire: &mut MioWire<&HostRuntime>,
    address: &str,
) -> io::Result<((u64, usize, u64), usize)> {
    let client = TcpStream::connect(rt, address)?;
    let events = told(wire, rt.alloc(), usize::MAX, b"");
    drop(client);
    Ok((events, wire.connections()))
}

/// What a client that is answered at once, half a client, a crowd, a client in its place, and one that takes the place of one
/// that has ended come to.
fn visits(
    rt: &HostRuntime,
    address: &Text,
) -> Result<[((u64, usize, u64), usize); 5], OutOfMemory> {
    let mut wire = MioWire::listen(rt, rt.alloc(), address)?;
    let none = ((0, 0, 0), 0);
    let at_once = answered_at_once(rt, &mut wire, address.as_str()).unwrap_or(none);
    let half = half_closed(rt, &mut wire, address.as_str()).unwrap_or(none);
    let crowd_of = crowd(rt, &mut wire, address.as_str(), 130).unwrap_or(none);
    let unknown = usize::from(wire.send(7_000, b"reply").is_err() && wire.unsent() == 1);
    let after = told(&mut wire, rt.alloc(), usize::MAX, b"");
    let behind = follow(rt, &mut wire, address.as_str()).unwrap_or(none);
    Ok([at_once, half, crowd_of, (after, unknown), behind])
}

/// The same at a free address.
fn visit(rt: &HostRuntime) -> Result<String, Fail> {
    let address = free_address(rt)?;
    Ok(format!(in rt.alloc(); "{:?}", visits(rt, &address)?)?)
}

/// Whether a wire tells in one of its next calls that this connection is lost.
fn is_lost(wire: &mut MioWire<&HostRuntime>, alloc: Global, lost: u64) -> bool {
    for _ in 0..50 {
        if let Ok(WireEvent::Broke { conn, .. }) = wire.next(alloc) {
            return conn == lost;
        }
    }
    false
}

/// A client that goes without reading what was sent to it, so that its system resets the connection: whether this is told
/// as lost, and how many connections are there then.
fn leave_unread(
    rt: &HostRuntime,
    wire: &mut MioWire<&HostRuntime>,
    address: &str,
) -> io::Result<(bool, usize)> {
    let mut client = TcpStream::connect(rt, address)?;
    client.write_all(b"abc")?;
    for _ in 0..2 {
        if let Ok(WireEvent::Piece { conn, .. }) = wire.next(rt.alloc()) {
            let _ = wire.send(conn, b"reply");
        }
    }
    thread::sleep(rt, Duration::from_millis(50));
    drop(client);
    let lost = is_lost(wire, rt.alloc(), 1);
    Ok((lost, wire.connections()))
}

/// The same at a free address.
fn reset(rt: &HostRuntime) -> Result<String, Fail> {
    let address = free_address(rt)?;
    let mut wire = MioWire::listen(rt, rt.alloc(), &address)?;
    let seen = leave_unread(rt, &mut wire, address.as_str()).unwrap_or((false, 99));
    Ok(format!(in rt.alloc(); "{seen:?}")?)
}

/// How many calls of `next` have failed, of one call at a wire on an address that is none.
fn deaf(rt: &HostRuntime) -> Result<u64, OutOfMemory> {
    let address = Text::of(rt.alloc(), "nowhere")?;
    let mut wire = MioWire::listen(rt, rt.alloc(), &address)?;
    let _ = wire.next(rt.alloc());
    Ok(wire.faults())
}

/// What comes of a case.
fn answer<R: Threads>(rt: &HostRuntime, threads: &R, kind: &str) -> Result<String, Fail> {
    match kind {
        "a client reads its whole reply" => reply_wholly(rt, threads),
        "an ended connection gets its reply, and its place goes to a newcomer" => visit(rt),
        "a connection that is reset is lost" => reset(rt),
        "a wire without a socket fails at its first call" => {
            Ok(format!(in rt.alloc(); "{}", deaf(rt)?)?)
        }
        _ => Ok(String::from_str(rt.alloc(), "no such kind")?),
    }
}

fn cases() -> &'static str {
    "a client reads its whole reply | 1048576 0 0\n\
    an ended connection gets its reply, and its place goes to a newcomer | \
    [((0, 0, 0), 5), ((2, 3, 1), 5), ((130, 0, 0), 128), ((0, 0, 128), 1), ((131, 0, 0), 128)]\n\
    a connection that is reset is lost | (true, 0)\n\
    a wire without a socket fails at its first call | 1"
}

#[test]
fn a_wire_over_sockets_tells_what_comes(rt: HostRuntime) -> Result<(), Fail> {
    for line in cases().split('\n') {
        let row = row_of(line);
        let told = answer(&rt, &rt, row.kind)?;
        assert_eq!(rt; told.as_str(), row.wanted, "{line}");
    }
    Ok(())
}
