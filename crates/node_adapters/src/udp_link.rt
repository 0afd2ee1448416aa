//! Datagrams over UDP.

ghost use Rattle.std.specs.Prelude.{◌≡◌, ◌≤◌, None};
ghost use Rattle.host_ports.specs.Streams.{FaultsCounted};

use host_ports::{Failed, Got, LONGEST_DATAGRAM, Link};
use rdma_types::Address;
use std::alloc::Global;
use std::io;
use std::io::ErrorKind;
use std::net::{Ipv4Addr, Net, SocketAddr, UdpSocket};
use std::time::Duration;

/// Milliseconds that a receive waits at most.
const LONGEST_WAIT: u64 = 10;

/// Room for the longest datagram and one byte, which a longer one fills.
const ROOM: usize = LONGEST_DATAGRAM + 1;

/// A UDP socket, whose faults are counted. A datagram to port 0, and one to an address to which there is no way, are counted as
/// sent and go nowhere: a partner says where it is, and so may a forger. One of over 4,200 bytes that comes, and one that comes
/// from no IPv4 address, are dropped.
#[derive(Drop)]
pub struct UdpLink<'a, R> {
    net: &'a R,
    socket: Option<UdpSocket>,
    buffer: [u8; ROOM],
    fault_count: u64,
    last_fault: Option<LinkFault>,
}

/// The address that a call was about, where it was about one, and what the system said of it.
#[derive(Drop)]
struct LinkFault {
    about: Option<Address>,
    error: io::Error,
}

/// The address of a socket.
fn host_of(address: Address) -> (Ipv4Addr, u16) {
    (Ipv4Addr::from_bits(address.ip), address.port)
}

/// Whether a receive gave nothing in its time.
fn is_nothing(error: &io::Error) -> bool {
    matches!(
        error.kind(),
        ErrorKind::WouldBlock | ErrorKind::TimedOut | ErrorKind::Interrupted
    )
}

/// Whether a datagram was not sent for its address alone.
fn is_nowhere(error: &io::Error) -> bool {
    matches!(
        error.kind(),
        ErrorKind::NetworkUnreachable
            | ErrorKind::HostUnreachable
            | ErrorKind::PermissionDenied
            | ErrorKind::InvalidInput
    )
}

impl<'a, R: Net> UdpLink<'a, R> {
    /// A link without a socket: `start` opens it.
    pub fn new(net: &'a R) -> UdpLink<'a, R> {
        UdpLink {
            net,
            socket: None,
            buffer: [0; ROOM],
            fault_count: 0,
            last_fault: None,
        }
    }

    /// The address that the last call that failed was about, and what the system said of it. None where no call failed, and
    /// where memory runs out.
    pub fn reason(&self, alloc: Global) -> Option<String> {
        match &self.last_fault {
            None => None,
            Some(
                LinkFault {
                    about: Some(address),
                    error,
                },
            ) => {
                let (ip, port) = host_of(*address);
                format!(in alloc; "{ip}:{port}: {error}").ok()
            }
            Some(LinkFault { about: None, error }) => format!(in alloc; "{error}").ok(),
        }
    }

    /// Opens a socket at the address.
    fn open(&self, own: Address) -> io::Result<UdpSocket> {
        let socket = UdpSocket::bind(self.net, host_of(own))?;
        socket.set_read_timeout(Some(Duration::from_millis(LONGEST_WAIT)))?;
        Ok(socket)
    }

    /// Sends a datagram; where there is no socket, it is not connected.
    fn send(&self, to: Address, bytes: &[u8]) -> io::Result<usize> {
        match &self.socket {
            Some(socket) => socket.send_to(bytes, host_of(to)),
            None => Err(ErrorKind::NotConnected.into()),
        }
    }

    /// Counts a fault.
    fn failed(&mut self, about: Option<Address>, error: io::Error) -> Failed
        ensures counted { FaultsCounted self.old.fault_count self.new.fault_count }
        ensures monotone { self.old.fault_count ≤ self.new.fault_count }
    {
        self.fault_count = self.fault_count.saturating_add(1);
        self.last_fault = Some(LinkFault { about, error });
        Failed
    }
}

/// Receives a datagram.
fn receive(socket: &Option<UdpSocket>, buffer: &mut [u8]) -> io::Result<(usize, SocketAddr)> {
    match socket {
        Some(socket) => socket.recv_from(buffer),
        None => Err(ErrorKind::NotConnected.into()),
    }
}

impl<'a, R: Net> Link for UdpLink<'a, R> {
    ghost waiting = { λ _. None };

    ghost sent = { λ _. None };

    ghost faults = { λ l. l.fault_count };

    ghost never_fails = { λ _. ⊥ };

    ghost room = { λ _. 0 };

    fn start(&mut self, own: Address) -> Result<(), Failed> {
        match self.open(own) {
            Ok(socket) => {
                self.socket = Some(socket);
                Ok(())
            }
            Err(error) => Err(self.failed(Some(own), error)),
        }
    }

    fn send_to(&mut self, to: Address, bytes: &[u8]) -> Result<(), Failed> {
        if to.port == 0 {
            return Ok(());
        }
        match self.send(to, bytes) {
            Ok(_) => Ok(()),
            Err(error) if is_nowhere(&error) => Ok(()),
            Err(error) => Err(self.failed(Some(to), error)),
        }
    }

    fn take(&mut self, out: &mut [u8]) -> Result<Got, Failed> {
        match receive(&self.socket, &mut self.buffer) {
            Ok((length, SocketAddr::V4(from))) if length <= LONGEST_DATAGRAM => {
                out[..length].copy_from_slice(&self.buffer[..length]);
                let from = Address {
                    ip: from.ip().to_bits(),
                    port: from.port(),
                };
                Ok(Got::Datagram { from, length })
            }
            Ok(_) => Ok(Got::Nothing),
            Err(error) if is_nothing(&error) => Ok(Got::Nothing),
            Err(error) => Err(self.failed(None, error)),
        }
    }
}
