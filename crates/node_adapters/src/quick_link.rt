//! Datagrams over UDP, without waits while there is something to do.

ghost use Rattle.std.specs.Prelude.{◌≡◌, ◌≤◌, None};
ghost use Rattle.host_ports.specs.Streams.{FaultsCounted};

use crate::Activity;
use host_ports::{Failed, Got, LONGEST_DATAGRAM, Link};
use mio::unix::SourceFd;
use mio::{Events, Interest, Poll, Token};
use rdma_types::Address;
use std::alloc::Global;
use std::io::ErrorKind;
use std::net::{Ipv4Addr, Net, SocketAddr, UdpSocket};
use std::os::fd::{AsRawFd, RawFd};
use std::rt::Clock;
use std::time::Duration;
use std::{io, thread};

/// The descriptor of standard input, where lines come.
pub(crate) const STANDARD_INPUT: RawFd = 0;

/// Milliseconds that a receive waits at most.
const LONGEST_WAIT: u64 = 4;

/// Datagrams that are sent in a row. The system keeps some 25 of the longest ones for a process that takes none.
const BURST: u32 = 16;

/// So many less are counted for each datagram that comes: a partner acknowledges each eighth packet at least.
const CREDIT: u32 = 8;

/// The pause after so many in microseconds, in which a partner on a machine of the usual speed takes them.
const PAUSE: u64 = 200;

/// Room for the longest datagram and one byte, which a longer one fills.
const ROOM: usize = LONGEST_DATAGRAM + 1;

/// A UDP socket, whose faults are counted, for a run that serves and does other things too.
///
/// `take` waits only where nothing was sent or taken and no line came since it gave nothing; else it answers at once. It waits 4
/// milliseconds at most, and no longer once a datagram comes, or a line, if one is waited for. No send waits for the system: a datagram for which it has no room is lost, and counted as sent. But after each
/// 16 that are sent, less 8 for each that is taken, there is a pause of 200 microseconds, so that a partner can take them.
///
/// A datagram to port 0, and one to an address to which there is no way, are counted as sent and go nowhere: a partner says where
/// it is, and so may a forger. One of over 4,200 bytes that comes, and one that comes from no IPv4 address, are dropped.
#[derive(Drop)]
pub struct QuickLink<'h, 'a, R> {
    host: &'h R,
    alloc: Global,
    opened: Option<Opened>,
    buffer: [u8; ROOM],
    activity: &'a Activity,
    in_a_row: u32,
    fault_count: u64,
    not_opened: Option<NotOpened>,
}

/// The address at which no socket could be opened, and what the system said of it.
#[derive(Drop)]
struct NotOpened {
    own: Address,
    error: io::Error,
}

/// The address of a socket.
fn host_of(address: Address) -> (Ipv4Addr, u16) {
    (Ipv4Addr::from_bits(address.ip), address.port)
}

/// Whether a receive gave nothing in its time.
fn is_nothing(error: &io::Error) -> bool {
    matches!(
        error.kind(),
        ErrorKind::WouldBlock | ErrorKind::TimedOut | ErrorKind::Interrupted
    )
}

/// Whether a datagram was lost on its way out: for its address, or since the system has no room.
fn is_lost(error: &io::Error) -> bool {
    matches!(
        error.kind(),
        ErrorKind::NetworkUnreachable
            | ErrorKind::HostUnreachable
            | ErrorKind::PermissionDenied
            | ErrorKind::InvalidInput
            | ErrorKind::WouldBlock
    )
}

/// A socket whose calls do not wait, and what waits for it.
#[derive(Drop)]
struct Opened {
    socket: UdpSocket,
    poll: Poll,
    events: Events,
}

/// Has a wait look at a descriptor for bytes to be read.
fn watch(poll: &Poll, descriptor: RawFd) -> io::Result<()> {
    let mut source = SourceFd(&descriptor);
    poll.registry()
        .register(&mut source, Token(0), Interest::READABLE)
}

/// .. once more, since the system tells each change once. A descriptor that it does not look at is left alone.
fn watch_again(poll: &Poll, descriptor: RawFd) {
    let mut source = SourceFd(&descriptor);
    let _ = poll
        .registry()
        .reregister(&mut source, Token(0), Interest::READABLE);
}

impl Opened {
    /// Opens a socket at the address.
    fn at<R: Net>(host: &R, alloc: Global, own: Address) -> io::Result<Opened> {
        let socket = UdpSocket::bind(host, host_of(own))?;
        socket.set_nonblocking(true)?;
        let poll = Poll::new(host)?;
        watch(&poll, socket.as_raw_fd())?;
        // (a file cannot be waited for, and need not)
        let _ = watch(&poll, STANDARD_INPUT);
        Ok(Opened {
            socket,
            poll,
            events: Events::with_capacity(alloc, 2)?,
        })
    }

    /// Waits until a datagram comes, or where it listens a line, or the time is up.
    fn wait(&mut self, is_listening: bool) {
        watch_again(&self.poll, self.socket.as_raw_fd());
        if is_listening {
            watch_again(&self.poll, STANDARD_INPUT);
        }
        let most = Duration::from_millis(LONGEST_WAIT);
        let _ = self.poll.poll(&mut self.events, Some(most));
    }
}

/// Receives a datagram, for which it waits where nothing happens.
fn receive(
    opened: &mut Option<Opened>,
    buffer: &mut [u8],
    activity: &Activity,
) -> io::Result<(usize, SocketAddr)> {
    let Some(opened) = opened else {
        return Err(ErrorKind::NotConnected.into());
    };
    if activity.was_idle() {
        opened.wait(activity.was_listening());
    }
    opened.socket.recv_from(buffer)
}

impl<'h, 'a, R: Net + Clock> QuickLink<'h, 'a, R> {
    /// A link without a socket: `start` opens it.
    pub fn new(alloc: Global, host: &'h R, activity: &'a Activity) -> QuickLink<'h, 'a, R> {
        QuickLink {
            host,
            alloc,
            opened: None,
            buffer: [0; ROOM],
            activity,
            in_a_row: 0,
            fault_count: 0,
            not_opened: None,
        }
    }

    /// The address of the last `start` that failed, and what the system said of it. None where none failed, and where memory runs
    /// out.
    pub fn reason(&self, alloc: Global) -> Option<String> {
        let NotOpened { own, error } = self.not_opened.as_ref()?;
        let (ip, port) = host_of(*own);
        format!(in alloc; "{ip}:{port}: {error}").ok()
    }

    /// Sends a datagram; where there is no socket, it is not connected.
    fn send(&self, to: Address, bytes: &[u8]) -> io::Result<usize> {
        match &self.opened {
            Some(opened) => opened.socket.send_to(bytes, host_of(to)),
            None => Err(ErrorKind::NotConnected.into()),
        }
    }

    /// Counts a datagram that is about to be sent, and pauses where many went in a row.
    fn pace(&mut self)
        ensures { self.new.fault_count ≡ self.old.fault_count }
    {
        if self.in_a_row >= BURST {
            self.in_a_row = 0;
            thread::sleep(self.host, Duration::from_micros(PAUSE));
        }
        self.in_a_row += 1;
    }

    /// Counts a fault.
    fn failed(&mut self) -> Failed
        ensures counted { FaultsCounted self.old.fault_count self.new.fault_count }
        ensures monotone { self.old.fault_count ≤ self.new.fault_count }
    {
        self.fault_count = self.fault_count.saturating_add(1);
        Failed
    }
}

impl<'h, 'a, R: Net + Clock> Link for QuickLink<'h, 'a, R> {
    ghost waiting = { λ _. None };

    ghost sent = { λ _. None };

    ghost faults = { λ l. l.fault_count };

    ghost never_fails = { λ _. ⊥ };

    ghost room = { λ _. 0 };

    fn start(&mut self, own: Address) -> Result<(), Failed> {
        match Opened::at(self.host, self.alloc, own) {
            Ok(opened) => {
                self.opened = Some(opened);
                Ok(())
            }
            Err(error) => {
                self.not_opened = Some(NotOpened { own, error });
                Err(self.failed())
            }
        }
    }

    fn send_to(&mut self, to: Address, bytes: &[u8]) -> Result<(), Failed> {
        self.activity.note();
        if to.port == 0 {
            return Ok(());
        }
        self.pace();
        match self.send(to, bytes) {
            Ok(_) => Ok(()),
            Err(error) if is_lost(&error) => Ok(()),
            Err(_) => Err(self.failed()),
        }
    }

    fn take(&mut self, out: &mut [u8]) -> Result<Got, Failed> {
        match receive(&mut self.opened, &mut self.buffer, self.activity) {
            Ok((length, SocketAddr::V4(from))) if length <= LONGEST_DATAGRAM => {
                self.activity.note();
                self.in_a_row = self.in_a_row.saturating_sub(CREDIT);
                out[..length].copy_from_slice(&self.buffer[..length]);
                let from = Address {
                    ip: from.ip().to_bits(),
                    port: from.port(),
                };
                Ok(Got::Datagram { from, length })
            }
            Ok(_) => {
                self.activity.note();
                Ok(Got::Nothing)
            }
            Err(error) if is_nothing(&error) => Ok(Got::Nothing),
            Err(_) => Err(self.failed()),
        }
    }
}
