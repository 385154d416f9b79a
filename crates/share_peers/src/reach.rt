//! Addresses of this machine, and who may reach others.

ghost use Rattle.std.specs.Prelude.{◌≡◌, ◌↔◌, IsTrue};
ghost use Rattle.std.specs.Net.Addr.{is_ipv4};
ghost use Rattle.std.specs.Net.Socket.{socket_ip, socket_port};
ghost use Rattle.share_peers.specs.Reach.{IsAll, IsLoopback, MayBeUsed};

use std::net::{IpAddr, Ipv4Addr, Ipv6Addr, SocketAddr};

/// Reports whether a host or its viewers may use this address of the host: with keys, if whoever
/// has the scene may come, or if it is a loopback address.
pub fn may_be_used(address: &SocketAddr, has_keys: bool, is_open: bool) -> bool
    ensures { IsTrue result ↔ MayBeUsed address.now has_keys is_open }
{
    has_keys || is_open || address.ip().is_loopback()
}

/// Returns a loopback address of the family of another address.
fn loopback_beside(ip: IpAddr) -> IpAddr
    ensures loopback { IsLoopback result }
    ensures family { is_ipv4 result ≡ is_ipv4 ip }
{
    match ip {
        IpAddr::V4(_) => IpAddr::V4(Ipv4Addr::new(127, 0, 0, 1)),
        IpAddr::V6(_) => IpAddr::V6(Ipv6Addr::new(0, 0, 0, 0, 0, 0, 0, 1)),
    }
}

/// Returns the address of all interfaces, of the family of another address.
fn all_beside(ip: IpAddr) -> IpAddr
    ensures all { IsAll result }
    ensures family { is_ipv4 result ≡ is_ipv4 ip }
{
    match ip {
        IpAddr::V4(_) => IpAddr::V4(Ipv4Addr::new(0, 0, 0, 0)),
        IpAddr::V6(_) => IpAddr::V6(Ipv6Addr::new(0, 0, 0, 0, 0, 0, 0, 0)),
    }
}

/// Returns the address with this port that a viewer binds whose host is at another address: a
/// loopback address if the host has one, and else that of all interfaces, in the host's family.
pub fn own_address(host: &SocketAddr, port: u16) -> SocketAddr
    ensures here { IsLoopback (socket_ip host.now) → IsLoopback (socket_ip result) }
    ensures anywhere { ¬ IsLoopback (socket_ip host.now) → IsAll (socket_ip result) }
    ensures family { is_ipv4 (socket_ip result) ≡ is_ipv4 (socket_ip host.now) }
    ensures port { socket_port result ≡ port }
{
    let ip = host.ip();
    if ip.is_loopback() {
        SocketAddr::new(loopback_beside(ip), port)
    } else {
        SocketAddr::new(all_beside(ip), port)
    }
}

/// Returns the address of a port of this machine, in the family of a host's address.
pub fn local_address(host: &SocketAddr, port: u16) -> SocketAddr
    ensures loopback { IsLoopback (socket_ip result) }
    ensures family { is_ipv4 (socket_ip result) ≡ is_ipv4 (socket_ip host.now) }
    ensures port { socket_port result ≡ port }
{
    SocketAddr::new(loopback_beside(host.ip()), port)
}
