//! A UDP socket on 127.0.0.1 as a port. It doesn't record its traffic.

ghost use Rattle.std.specs.Prelude.{◌≡◌, ◌==◌, ◌||◌, IfOk, Option, Some, None, if◌then◌else◌};
ghost use Rattle.share_turns.specs.Told.{one_more};
ghost use Rattle.share_turns.specs.Peers.{answerable};

use crate::port::{Port, PortFault, RECEIVED};
use std::io::{self, ErrorKind};
use std::net::{Ipv4Addr, Net, SocketAddr, UdpSocket};
use std::time::Duration;

/// A nonblocking UDP socket on 127.0.0.1.
#[derive(Drop)]
pub struct UdpPort {
    socket: UdpSocket,
    failed: u64,
}

/// The largest number of unanswerable datagrams that one receive skips.
const PASSED_OVER: usize = 64;

/// Returns the sender of a datagram, if an answer can reach it. No answer can reach port 0.
fn answerable(peer: u16) -> Option<u16>
    ensures { result ≡ answerable peer }
{
    if peer == 0 { None } else { Some(peer) }
}

/// Reports whether a send failed because of its peer or a lack of room on the way. The datagram is
/// then lost, and the port goes on.
fn is_lost(kind: ErrorKind) -> bool {
    matches!(
        kind,
        ErrorKind::WouldBlock
            | ErrorKind::ConnectionRefused
            | ErrorKind::ConnectionReset
            | ErrorKind::HostUnreachable
            | ErrorKind::NetworkUnreachable
            | ErrorKind::PermissionDenied
            | ErrorKind::InvalidInput
    )
}

/// Returns the address of a peer.
fn address_of(port: u16) -> SocketAddr {
    SocketAddr::from((Ipv4Addr::LOCALHOST, port))
}

impl UdpPort {
    ghost use Rattle.std.specs.Prelude.{◌≡◌, IfOk};
    ghost use Rattle.share_turns.specs.Told.{one_more};

    /// Binds a socket to a port of 127.0.0.1; port 0 binds a free one. Fails with the error of the
    /// device, also if another program has the port.
    pub fn bind<R: Net>(rt: &R, port: u16) -> io::Result<UdpPort>
        ensures { IfOk result (λ port. port.failed ≡ 0) }
    {
        let socket = UdpSocket::bind(rt, address_of(port))?;
        socket.set_nonblocking(true)?;
        Ok(UdpPort { socket, failed: 0 })
    }

    /// Returns the port that the socket is bound to, or the error of the device.
    pub fn local_port(&self) -> io::Result<u16> {
        Ok(self.socket.local_addr()?.port())
    }

    fn fail(&mut self) -> PortFault
        ensures { self.new.failed ≡ one_more self.old.failed }
    {
        self.failed = self.failed.saturating_add(1);
        PortFault
    }
}

impl Port for UdpPort {
    ghost failure_count = { λ p. p.failed };

    fn send(&mut self, to: u16, bytes: &[u8]) -> Result<(), PortFault> {
        match self.socket.send_to(bytes, address_of(to)) {
            Ok(_sent) => Ok(()),
            Err(error) if is_lost(error.kind()) => Ok(()),
            Err(_) => Err(self.fail()),
        }
    }

    fn receive(&mut self, into: &mut [u8; RECEIVED]) -> Result<Option<(u16, usize)>, PortFault> {
        for _passed in 0..PASSED_OVER {
            match self.socket.recv_from(into) {
                Ok((count, from)) => {
                    if let Some(peer) = answerable(from.port()) {
                        return Ok(Some((peer, count)));
                    }
                }
                Err(error) if error.kind() == ErrorKind::WouldBlock => return Ok(None),
                Err(_) => return Err(self.fail()),
            }
        }
        Ok(None)
    }

    fn failures(&self) -> u64 {
        self.failed
    }

    // Returns at once if the device can't wait.
    fn wait(&mut self, millis: u32) {
        let most = Duration::from_millis(u64::from(millis.max(1)));
        if self.socket.set_read_timeout(Some(most)).is_err() {
            return;
        }
        if self.socket.set_nonblocking(false).is_err() {
            return;
        }
        let mut first = [0; 1];
        let _came = self.socket.peek_from(&mut first);
        let _set = self.socket.set_nonblocking(true);
    }
}
