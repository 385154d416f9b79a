//! The addresses of a viewer's hosts.

use app_commands::AddressedPort;
use app_program::ShareFault;
use app_serve::{End, Place, addresses_at, may_be_reached};
use std::alloc::Global;
use std::io::Eprint;
use std::net::SocketAddr;

/// Returns the addresses of the hosts that `--host` names, if it does. Fails with `NoAddress` or
/// `Memory`.
pub fn hosts_of(rt: &HostRuntime, text: Option<&str>) -> Result<Option<Vec<SocketAddr>>, End> {
    match text {
        Some(text) => Ok(Some(addresses_at(rt, rt.alloc(), text)?)),
        None => Ok(None),
    }
}

/// Fails with `NoKeys` if one of the hosts may be beyond this machine, and there are neither a key
/// nor the word that any will do.
pub fn may_all_be_reached(hosts: &[SocketAddr], has_key: bool, is_open: bool) -> Result<(), End> {
    for host in hosts {
        may_be_reached(&Place::Address(*host), has_key, is_open)?;
    }
    Ok(())
}

/// Returns the numbers of a viewer's hosts, which are at these addresses.
pub fn numbers_of<R: Eprint>(
    alloc: Global,
    port: &mut AddressedPort<R>,
    hosts: &[SocketAddr],
) -> Result<Vec<u16>, ShareFault> {
    let mut numbers = Vec::new(alloc);
    for host in hosts {
        let Some(number) = port.number_of(*host) else {
            return Err(ShareFault::Port);
        };
        if numbers.push(number).is_err() {
            return Err(ShareFault::Memory);
        }
    }
    Ok(numbers)
}
