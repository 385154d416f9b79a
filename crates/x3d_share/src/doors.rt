//! The socket of a host, and the keys by which it is reached.

use app_commands::{AddressedPort, HostsPort, TimedPort, bound, number_of};
use app_program::ShareFault;
use app_serve::{End, Place, host_keys, may_be_reached, place_of};
use app_words::HostOrder;
use script_host::Behaviour;
use share_guards::GuardedPort;
use share_keeping::KeepingPort;
use share_keys::Keys;
use share_sealed::{KeyedPort, SealedPort};
use share_turns::UdpPort;
use share_welcomes::HostPort;

/// The texts of a host's options, if they were given.
#[derive(Clone, Copy)]
pub struct HostTexts<'a> {
    /// That of `--listen`.
    pub listen: Option<&'a str>,
    /// That of `--keys`.
    pub keys: Option<&'a str>,
}

/// How a host is reached.
#[derive(Drop)]
pub struct Way {
    place: Place,
    keys: Option<Keys>,
}

/// A bound socket.
#[derive(Drop)]
pub enum Socket<'a> {
    /// A socket of 127.0.0.1, whose peers are ports of it.
    Local(UdpPort),
    Addressed(AddressedPort<&'a HostRuntime>),
}

/// A bound socket, and the keys of those that are served there, or none if all are.
#[derive(Drop)]
pub struct Door<'a> {
    pub socket: Socket<'a>,
    pub keys: Option<Keys>,
}

impl Way {
    /// Reports whether the host has keys.
    pub fn has_keys(&self) -> bool {
        self.keys.is_some()
    }
}

impl<'a> Socket<'a> {
    /// Returns the port that the socket is bound to. Fails with `Port` if the system doesn't say
    /// it.
    pub fn port(&self) -> Result<u16, ShareFault> {
        match self {
            Socket::Local(port) => number_of(port),
            Socket::Addressed(port) => port.local_port(),
        }
    }
}

/// A port over a socket.
pub trait OverSocket {
    /// Reports whether peers are numbers of a table of addresses, and not ports of this machine.
    fn has_numbers(&self) -> bool;

    /// Returns how many datagrams without a right seal came, up to 2^64 - 1.
    fn unsealed(&self) -> u64;

    /// Returns how many datagrams of strangers, or beyond a viewer's limits, were dropped, up to
    /// 2^64 - 1.
    fn strange(&self) -> u64 {
        0
    }

    /// Returns at how many rests a host that keeps its world gave less, as a send failed, up to
    /// 2^64 - 1.
    fn cut_short(&self) -> u64 {
        0
    }
}

impl OverSocket for UdpPort {
    fn has_numbers(&self) -> bool {
        false
    }

    fn unsealed(&self) -> u64 {
        0
    }
}

impl<R> OverSocket for AddressedPort<R> {
    fn has_numbers(&self) -> bool {
        true
    }

    fn unsealed(&self) -> u64 {
        0
    }
}

impl<P: OverSocket> OverSocket for KeyedPort<P> {
    fn has_numbers(&self) -> bool {
        self.port().has_numbers()
    }

    fn unsealed(&self) -> u64 {
        self.dropped()
    }
}

impl<P: OverSocket> OverSocket for SealedPort<P> {
    fn has_numbers(&self) -> bool {
        self.port().has_numbers()
    }

    fn unsealed(&self) -> u64 {
        self.dropped()
    }
}

impl<P: OverSocket, C> OverSocket for TimedPort<P, C> {
    fn has_numbers(&self) -> bool {
        self.port().has_numbers()
    }

    fn unsealed(&self) -> u64 {
        self.port().unsealed()
    }
}

impl<P: OverSocket, C> OverSocket for HostsPort<P, C> {
    fn has_numbers(&self) -> bool {
        self.port().has_numbers()
    }

    fn unsealed(&self) -> u64 {
        self.port().unsealed()
    }
}

impl<P: OverSocket> OverSocket for GuardedPort<P> {
    fn has_numbers(&self) -> bool {
        self.port().has_numbers()
    }

    fn unsealed(&self) -> u64 {
        self.port().unsealed()
    }

    fn strange(&self) -> u64 {
        self.dropped()
    }
}

impl<P: OverSocket> OverSocket for HostPort<P> {
    fn has_numbers(&self) -> bool {
        self.port().has_numbers()
    }

    fn unsealed(&self) -> u64 {
        self.port().unsealed()
    }

    fn strange(&self) -> u64 {
        self.port().strange()
    }
}

impl<B: Behaviour, P: OverSocket> OverSocket for KeepingPort<B, P> {
    fn cut_short(&self) -> u64 {
        self.lost()
    }

    fn has_numbers(&self) -> bool {
        self.port().has_numbers()
    }

    fn unsealed(&self) -> u64 {
        self.port().unsealed()
    }

    fn strange(&self) -> u64 {
        self.port().strange()
    }
}

/// Returns the keys of the file that `--keys` names, if it does.
fn keys_of(rt: &HostRuntime, file: Option<&str>) -> Result<Option<Keys>, End> {
    match file {
        Some(file) => Ok(Some(host_keys(rt, file)?)),
        None => Ok(None),
    }
}

/// Returns how a host is to be reached. Fails with `NoAddress`, then with what is wrong with the
/// file of its keys, and then with `NoKeys`.
pub fn way_of(rt: &HostRuntime, asked: &HostOrder, texts: &HostTexts<'_>) -> Result<Way, End> {
    let place = place_of(rt, asked.port, texts.listen)?;
    let keys = keys_of(rt, texts.keys)?;
    may_be_reached(&place, keys.is_some(), asked.is_open)?;
    Ok(Way { place, keys })
}

fn bound_at<'a>(rt: &'a HostRuntime, place: &Place, verbose: bool) -> Result<Socket<'a>, End> {
    match place {
        Place::Port(port) => Ok(Socket::Local(bound(rt, *port)?)),
        Place::Address(address) => {
            let socket = AddressedPort::bind(rt, rt.alloc(), *address, verbose)?;
            Ok(Socket::Addressed(socket))
        }
    }
}

/// Binds the socket of a host. Fails with `Port` or `Memory`.
pub fn opened<'a>(rt: &'a HostRuntime, asked: &HostOrder, way: Way) -> Result<Door<'a>, End> {
    let Way { place, keys } = way;
    let socket = bound_at(rt, &place, asked.verbose)?;
    Ok(Door { socket, keys })
}
