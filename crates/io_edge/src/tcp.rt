//! Streams, doors and dialers over sockets.

ghost use Rattle.std.specs.Prelude.{◌≡◌, ◌<◌, ◌≤◌, ℕ, None, Some, refl};
ghost use Rattle.io_edge.specs.Causes.{HasCause};

use crate::door::{Acceptor, Dialer};
use crate::edge::{Failed, Sink, Source};
use crate::standard::{count_fault, read_counted, write_counted};
use crate::stream::Stream;
use std::io::{ErrorKind, Read, Write};
use std::net::{IpAddr, Net, OpenListener, OpenStream, SocketAddr};

/// A real TCP stream. It tells nothing of its bytes. Each error of a read or a write raises the count
/// of that side.
#[derive(Debug, Drop)]
pub struct TcpStreamEdge<T> {
    stream: T,
    read_faults: u64,
    write_faults: u64,
}

impl<T: OpenStream> TcpStreamEdge<T> {
    /// A stream over this one, with Nagle's delay off, so that a small reply is sent at once.
    pub fn new(stream: T) -> TcpStreamEdge<T>
        ensures { result ≡ record { stream = stream; read_faults = 0; write_faults = 0 } }
    {
        // Where the system refuses it, replies come later, and they come.
        let _ = stream.set_nodelay(true);
        TcpStreamEdge {
            stream,
            read_faults: 0,
            write_faults: 0,
        }
    }
}

impl<T: Read> Source for TcpStreamEdge<T> {
    ghost left = { λ _. None };

    ghost faults = { λ s. s.read_faults };

    ghost Apart = { ℕ };

    ghost apart = { λ s. s.write_faults };

    /// A read that a signal interrupted is made again, and any other error is [`Failed`].
    fn read(&mut self, buf: &mut [u8]) -> Result<usize, Failed> {
        read_counted(&mut self.stream, &mut self.read_faults, buf)
    }
}

impl<T: Write> Sink for TcpStreamEdge<T> {
    ghost contents = { λ _. None };

    ghost faults = { λ s. s.write_faults };

    ghost Apart = { ℕ };

    ghost apart = { λ s. s.read_faults };

    /// A write that a signal interrupted is made again, and any other error is [`Failed`].
    fn write(&mut self, bytes: &[u8]) -> Result<(), Failed> {
        write_counted(&mut self.stream, &mut self.write_faults, bytes)
    }
}

impl<T: Read + Write> Stream for TcpStreamEdge<T> {
    ghost read_keeps = { λ a b same. (refl, same) };

    ghost write_keeps = { λ a b same. (refl, same) };
}

/// A real TCP port: `TcpDoor::new(&rt, address)`. It is never closed, and it tells how many streams it
/// has handed out.
#[derive(Drop)]
pub struct TcpDoor<N, L> {
    net: N,
    address: SocketAddr,
    listener: Option<L>,
    faults: u64,
    handed: u64,
}

impl<N: Net> TcpDoor<N, N::Listener> {
    /// A door at this address, whose port is bound at the first call.
    pub fn new(net: N, address: SocketAddr) -> TcpDoor<N, N::Listener>
        ensures { result ≡ record { net = net; address = address; listener = None; faults = 0; handed = 0 } }
    {
        TcpDoor {
            net,
            address,
            listener: None,
            faults: 0,
            handed: 0,
        }
    }
}

impl<N: Net> Acceptor for TcpDoor<N, N::Listener> {
    type S = TcpStreamEdge<N::Stream>;

    ghost faults = { λ s. s.faults };

    ghost handed = { λ s. s.handed };

    ghost nones = { λ _. 0 };

    /// Binds the port where it is not bound yet, and waits for a stream. A wait that a signal
    /// interrupted, and a stream that was gone again, are passed over; any other error is [`Failed`].
    fn accept(&mut self) -> Result<Option<TcpStreamEdge<N::Stream>>, Failed> {
        bind_once(
            &self.net,
            self.address,
            &mut self.listener,
            &mut self.faults,
        )?;
        let Some(listener) = &self.listener else {
            return Err(count_fault(&mut self.faults));
        };
        let stream = accept_counted(listener, &mut self.faults)?;
        self.handed = self.handed.saturating_add(1);
        Ok(Some(TcpStreamEdge::new(stream)))
    }
}

/// Binds the port where none is bound.
fn bind_once<N: Net>(
    net: &N,
    address: SocketAddr,
    listener: &mut Option<N::Listener>,
    faults: &mut u64,
) -> Result<(), Failed>
    ensures cause { HasCause faults.old faults.new result }
{
    if listener.is_some() {
        return Ok(());
    }
    match net.bind(address) {
        Ok(bound) => {
            *listener = Some(bound);
            Ok(())
        }
        Err(_error) => Err(count_fault(faults)),
    }
}

/// Waits for the next stream. After `u64::MAX` calls that gave none it fails.
fn accept_counted<L: OpenListener>(listener: &L, faults: &mut u64) -> Result<L::Stream, Failed>
    ensures cause { HasCause faults.old faults.new result }
{
    for _ in 0..u64::MAX {
        match listener.accept() {
            Ok((stream, _peer)) => return Ok(stream),
            Err(error) => {
                let failed = count_fault(faults);
                let kind = error.kind();
                if kind != ErrorKind::Interrupted && kind != ErrorKind::ConnectionAborted {
                    return Err(failed);
                }
            }
        }
    }
    Err(count_fault(faults))
}

/// What opens real TCP streams: `TcpDialer::new(&rt, host, first_port)`.
#[derive(Drop)]
pub struct TcpDialer<N> {
    net: N,
    host: IpAddr,
    first_port: u16,
    faults: u64,
    calls: u64,
}

impl<N> TcpDialer<N> {
    /// A dialer of the nodes at this host. The node with replica id 1 listens at the first port, and
    /// each other one at the port behind that of the replica id before it.
    pub fn new(net: N, host: IpAddr, first_port: u16) -> TcpDialer<N>
        ensures { result ≡ record { net = net; host = host; first_port = first_port; faults = 0; calls = 0 } }
    {
        TcpDialer {
            net,
            host,
            first_port,
            faults: 0,
            calls: 0,
        }
    }
}

impl<N: Net> Dialer for TcpDialer<N> {
    type S = TcpStreamEdge<N::Stream>;

    ghost faults = { λ s. s.faults };

    ghost calls = { λ s. s.calls };

    /// Connects once, and may wait for that.
    fn dial(&mut self, rid: u16) -> Result<TcpStreamEdge<N::Stream>, Failed> {
        self.calls = self.calls.saturating_add(1);
        let port = self.first_port.saturating_add(rid.saturating_sub(1));
        match self.net.connect(SocketAddr::new(self.host, port)) {
            Ok(stream) => Ok(TcpStreamEdge::new(stream)),
            Err(_error) => Err(count_fault(&mut self.faults)),
        }
    }
}
