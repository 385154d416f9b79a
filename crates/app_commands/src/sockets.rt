//! Sockets of this machine, with the faults of the program.

ghost use Rattle.std.specs.Prelude.{◌≡◌, IfOk, length};

use app_program::ShareFault;
use share_turns::UdpPort;
use std::alloc::Global;
use std::net::Net;

/// Binds a port of 127.0.0.1; 0 binds a free one. Fails with `Port` if the port can't be bound.
pub fn bound<R: Net>(rt: &R, port: u16) -> Result<UdpPort, ShareFault> {
    UdpPort::bind(rt, port).map_err(|_| ShareFault::Port)
}

/// Returns the number of a bound port. Fails with `Port` if the system doesn't say it.
pub fn number_of(port: &UdpPort) -> Result<u16, ShareFault> {
    port.local_port().map_err(|_| ShareFault::Port)
}

/// Binds `count` free ports of 127.0.0.1. Fails with `Port` if one can't be bound, and with
/// `Memory` if memory is refused.
pub fn bound_free<R: Net>(rt: &R, alloc: Global, count: usize) -> Result<Vec<UdpPort>, ShareFault>
    ensures { IfOk result (λ v. length v.items ≡ count) }
{
    let mut ports = Vec::new(alloc);
    for _port in 0..count {
        let Ok(()) = ports.push(bound(rt, 0)?) else {
            return Err(ShareFault::Memory);
        };
    }
    Ok(ports)
}
