//! A UDP socket at any address, as a port whose peers are numbers of a table of addresses.

use app_program::ShareFault;
use share_guards::Placed;
use share_peers::Addresses;
use share_turns::{Port, PortFault, RECEIVED};
use std::alloc::Global;
use std::fmt;
use std::io::{Eprint, ErrorKind};
use std::net::{Net, SocketAddr, UdpSocket};
use std::time::Duration;

/// A nonblocking UDP socket. A peer is the number of its address. An address that something else
/// than a Welcome was sent to keeps its number until such a thing was sent to 128 others. Another
/// one may lose its number once 384 others came, so that strangers push out strangers alone.
/// Datagrams of another version than 2 are dropped. If it is verbose, it reports on standard error
/// which address a number is of, once that is kept. It doesn't record its traffic.
#[derive(Drop)]
pub struct AddressedPort<R> {
    socket: UdpSocket,
    addresses: Addresses,
    failed: u64,
    rt: R,
    verbose: bool,
}

/// Which address a number is of, in words.
#[derive(Drop)]
struct PeerAt {
    number: u16,
    address: SocketAddr,
}

impl fmt::Display for PeerAt {
    fn fmt<W: fmt::Write>(&self, f: &mut fmt::Formatter<W>) -> fmt::Result {
        write!(f, "peer {} is {}", self.number, self.address)
    }
}

/// How many addresses have a number at once. The numbers are those below this one.
pub const ADDRESSES: u16 = 512;

/// How many of them are kept, those that something was sent to last.
const KEPT: u16 = 128;

/// The largest number of datagrams that one receive skips.
const PASSED_OVER: usize = 64;

/// Reports whether a send failed because of its peer or a lack of room on the way. The datagram is
/// then lost, and the port goes on.
fn is_lost(kind: ErrorKind) -> bool {
    matches!(
        kind,
        ErrorKind::WouldBlock
            | ErrorKind::ConnectionRefused
            | ErrorKind::ConnectionReset
            | ErrorKind::HostUnreachable
            | ErrorKind::NetworkUnreachable
            | ErrorKind::PermissionDenied
            | ErrorKind::InvalidInput
    )
}

/// The magic bytes and the version of what is received.
const HEAD: &[u8] = b"X3DS\x02";

/// The tag of a Welcome, and its place in a datagram.
const WELCOME: u8 = 8;

const TAG: usize = 5;

impl<R: Eprint> AddressedPort<R> {
    ghost use Rattle.std.specs.Prelude.{◌≡◌, IfOk};
    ghost use Rattle.share_turns.specs.Told.{one_more};

    /// Binds a socket to an address; port 0 binds a free one. Fails with `Port` if the address
    /// can't be bound, and with `Memory` if memory is refused.
    pub fn bind(
        rt: R,
        alloc: Global,
        address: SocketAddr,
        verbose: bool,
    ) -> Result<AddressedPort<R>, ShareFault>
    where
        R: Net + Drop,
        ensures { IfOk result (λ port. port.failed ≡ 0) }
    {
        let Ok(addresses) = Addresses::new(alloc, ADDRESSES, KEPT) else {
            return Err(ShareFault::Memory);
        };
        let Ok(socket) = UdpSocket::bind(&rt, address) else {
            return Err(ShareFault::Port);
        };
        if socket.set_nonblocking(true).is_err() {
            return Err(ShareFault::Port);
        }
        Ok(AddressedPort {
            socket,
            addresses,
            failed: 0,
            rt,
            verbose,
        })
    }

    /// Returns the port that the socket is bound to. Fails with `Port` if the system doesn't say
    /// it.
    pub fn local_port(&self) -> Result<u16, ShareFault> {
        match self.socket.local_addr() {
            Ok(address) => Ok(address.port()),
            Err(_) => Err(ShareFault::Port),
        }
    }

    /// Returns the number of an address, which is kept as if something were sent there.
    pub fn number_of(&mut self, address: SocketAddr) -> Option<u16>
        ensures { self.new.failed ≡ self.old.failed }
    {
        let number = self.addresses.number_of(address)?;
        self.keep(number, address);
        Some(number)
    }

    /// Keeps the number of an address.
    fn keep(&mut self, number: u16, address: SocketAddr)
        ensures { self.new.failed ≡ self.old.failed }
    {
        if self.verbose && !self.addresses.is_kept(number) {
            let _told = self.rt.eprintln(PeerAt { number, address });
        }
        self.addresses.keep(number);
    }

    fn fail(&mut self) -> PortFault
        ensures { self.new.failed ≡ one_more self.old.failed }
    {
        self.failed = self.failed.saturating_add(1);
        PortFault
    }

    /// Returns the number of the sender of a datagram, if it is of version 2 and an answer can
    /// reach its sender. No answer can reach port 0.
    fn peer_of(&mut self, from: SocketAddr, bytes: &[u8]) -> Option<u16>
        ensures { self.new.failed ≡ self.old.failed }
    {
        if from.port() == 0 || !bytes.starts_with(HEAD) {
            return None;
        }
        self.addresses.number_of(from)
    }
}

impl<R> Placed for AddressedPort<R> {
    ghost use Rattle.share_peers.specs.Table.{address_at};

    ghost place_of = { λ p peer. address_at p.addresses.addresses peer };

    fn place(&self, peer: u16) -> Option<SocketAddr> {
        self.addresses.address_of(peer)
    }
}

impl<R: Eprint> Port for AddressedPort<R> {
    ghost failure_count = { λ p. p.failed };

    fn send(&mut self, to: u16, bytes: &[u8]) -> Result<(), PortFault> {
        let Some(address) = self.addresses.address_of(to) else {
            return Ok(());
        };
        if bytes.get(TAG) != Some(&WELCOME) {
            self.keep(to, address);
        }
        match self.socket.send_to(bytes, address) {
            Ok(_sent) => Ok(()),
            Err(error) if is_lost(error.kind()) => Ok(()),
            Err(_) => Err(self.fail()),
        }
    }

    fn receive(&mut self, into: &mut [u8; RECEIVED]) -> Result<Option<(u16, usize)>, PortFault> {
        for _passed in 0..PASSED_OVER {
            match self.socket.recv_from(into) {
                Ok((count, from)) => {
                    if let Some(peer) = self.peer_of(from, &into[..count]) {
                        return Ok(Some((peer, count)));
                    }
                }
                Err(error) if error.kind() == ErrorKind::WouldBlock => return Ok(None),
                Err(_) => return Err(self.fail()),
            }
        }
        Ok(None)
    }

    fn failures(&self) -> u64 {
        self.failed
    }

    // Returns at once if the device can't wait.
    fn wait(&mut self, millis: u32) {
        let most = Duration::from_millis(u64::from(millis.max(1)));
        if self.socket.set_read_timeout(Some(most)).is_err() {
            return;
        }
        if self.socket.set_nonblocking(false).is_err() {
            return;
        }
        let mut first = [0; 1];
        let _came = self.socket.peek_from(&mut first);
        let _set = self.socket.set_nonblocking(true);
    }
}
