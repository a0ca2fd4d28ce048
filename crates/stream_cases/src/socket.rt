//! Real sockets: a client and a machine on the loopback address, each in a thread of its own.
//!
//! The client sends all its bytes at once, the last of them an unbind, to a new connection of a new node.
//!
//! With the words `serve PORT` in place of files the program serves streams at this port, one after the
//! other, until it is ended: `bench/echo.sh` measures it.

use crate::served::new_machine;
use case_lines::{CaseFault, or_memory, tell_bytes};
use front_tcp::{Tally, serve_stream};
use io_edge::{Acceptor, Dialer, Stream, TcpDialer, TcpDoor};
use std::alloc::Global;
use std::net::{IpAddr, Ipv4Addr, Net, SocketAddr, TcpListener, TcpStream};
use std::sync::Wait;
use std::thread::{Threads, join, yield_now};

/// How often a client tries to open a stream.
const TRIES: u32 = 10_000_000;

/// A bind as the manager and an unbind.
pub const ASKED: &[u8] =
    b"0\x1c\x02\x01\x01`\x17\x02\x01\x03\x04\ncn=manager\x80\x06secret0\x05\x02\x01\x05B\x00";

const LOOPBACK: IpAddr = IpAddr::V4(Ipv4Addr::LOCALHOST);

/// Serves the next stream of a door by a machine of a new connection.
fn serve_next<R: Wait, A: Acceptor>(rt: &R, alloc: Global, door: &mut A) -> Result<(), CaseFault>
where
    A::S: Drop,
{
    let Ok(Some(mut stream)) = door.accept() else {
        return Err(CaseFault::Argument);
    };
    let mut machine = new_machine(alloc)?;
    let mut tally = Tally::new();
    let _ = or_memory(serve_stream(rt, alloc, &mut machine, &mut stream, &mut tally))?;
    Ok(())
}

/// A stream of the dialer, as soon as somebody listens.
fn open<D: Dialer>(dialer: &mut D) -> Result<D::S, CaseFault> {
    for _ in 0..TRIES {
        if let Ok(stream) = dialer.dial(1) {
            return Ok(stream);
        }
        yield_now();
    }
    Err(CaseFault::Argument)
}

/// Sends all, and reads to the end.
fn ask<S: Stream>(alloc: Global, stream: &mut S, sent: &[u8]) -> Result<Vec<u8>, CaseFault> {
    let mut heard = Vec::new(alloc);
    let Ok(()) = stream.write(sent) else {
        return Err(CaseFault::Argument);
    };
    let mut buf = [0u8; 64];
    for _ in 0..u64::MAX {
        let Ok(count) = stream.read(&mut buf) else {
            return Err(CaseFault::Argument);
        };
        if count == 0 {
            break;
        }
        heard.extend_from_slice(&buf[..count])?;
    }
    Ok(heard)
}

fn open_and_ask<D: Dialer>(alloc: Global, dialer: &mut D, sent: &[u8]) -> Result<Vec<u8>, CaseFault>
where
    D::S: Drop,
{
    let mut stream = open(dialer)?;
    ask(alloc, &mut stream, sent)
}

/// What comes back over real sockets, at this port.
pub fn answer<R>(
    rt: &R,
    alloc: Global,
    port: u16,
    sent: &[u8],
    told: &mut String,
) -> Result<(), CaseFault>
where
    R: Net<Listener = TcpListener, Stream = TcpStream> + Threads + Wait + Sync,
{
    let address = SocketAddr::new(LOOPBACK, port);
    let (served, heard) = join(
        rt,
        || serve_next(rt, alloc, &mut TcpDoor::new(rt, address)),
        || open_and_ask(alloc, &mut TcpDialer::new(rt, LOOPBACK, port), sent),
    );
    served?;
    tell_bytes(told, heard?.as_slice())
}

/// Serves streams at this port, one after the other.
pub fn serve_all<R: Net + Wait>(rt: &R, alloc: Global, port: u16) -> Result<(), CaseFault> {
    let mut door = TcpDoor::new(rt, SocketAddr::new(LOOPBACK, port));
    for _ in 0..u64::MAX {
        serve_next(rt, alloc, &mut door)?;
    }
    Ok(())
}
