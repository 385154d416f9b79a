//! Where a host is, on this machine or at an address, who may come there, and the name of a world.

use crate::end::End;
use app_words::OrderFault;
use share_peers::may_be_used;
use share_session::WorldName;
use std::alloc::Global;
use std::io;
use std::net::{Net, SocketAddr, ToSocketAddrs};

/// How many addresses a text has at most.
const MOST: usize = 16;

/// Where a host is.
#[derive(Clone, Copy)]
pub enum Place {
    /// At this port of 127.0.0.1.
    Port(u16),
    /// At an address, which may be on a network.
    Address(SocketAddr),
}

/// Returns the first address of a text, an address or a name that the system knows with a port from
/// 1 on. Fails with `NoAddress`.
fn address_at<R: Net>(rt: &R, text: &str) -> Result<SocketAddr, End> {
    let mut found = match text.to_socket_addrs(rt) {
        Ok(found) => found,
        Err(error) => return Err(address_end(error.kind())),
    };
    match found.next() {
        Some(address) if address.port() != 0 => Ok(address),
        _ => Err(End::NoAddress),
    }
}

fn address_end(kind: io::ErrorKind) -> End {
    match kind {
        io::ErrorKind::OutOfMemory => End::from(OrderFault::Memory),
        _ => End::NoAddress,
    }
}

/// Returns the addresses of a text, one to 16 with commas between them, each as `address_at` has
/// it. Fails with `NoAddress` or `Memory`.
pub fn addresses_at<R: Net>(rt: &R, alloc: Global, text: &str) -> Result<Vec<SocketAddr>, End> {
    let mut addresses = Vec::new(alloc);
    for part in text.split(',') {
        let address = address_at(rt, part)?;
        if addresses.len() >= MOST {
            return Err(End::NoAddress);
        }
        if addresses.push(address).is_err() {
            return Err(End::from(OrderFault::Memory));
        }
    }
    Ok(addresses)
}

/// Returns where a host is, by the text of `--listen` or `--host` or else by `--port`. Fails with
/// `NoAddress`.
pub fn place_of<R: Net>(rt: &R, port: Option<u16>, text: Option<&str>) -> Result<Place, End> {
    if let Some(text) = text {
        return Ok(Place::Address(address_at(rt, text)?));
    }
    match port {
        Some(port) => Ok(Place::Port(port)),
        None => Err(End::from(OrderFault::Words)),
    }
}

/// Fails with `NoKeys` if the place may be beyond this machine, and there are neither keys nor the
/// word that anyone may come.
pub fn may_be_reached(place: &Place, has_keys: bool, is_open: bool) -> Result<(), End> {
    match place {
        Place::Address(address) if !may_be_used(address, has_keys, is_open) => Err(End::NoKeys),
        _ => Ok(()),
    }
}

/// Returns the name of a world by the text of `--world`, or else the empty name. Fails with
/// `NoWorldName`.
pub fn world_of(text: Option<&str>) -> Result<WorldName, End> {
    match WorldName::new(text.unwrap_or("").as_bytes()) {
        Some(name) => Ok(name),
        None => Err(End::NoWorldName),
    }
}
