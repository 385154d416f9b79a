//! A queue, and the port over two of them.

use crate::{Wants, WorldPort, moment_of, wait_for};
use share_turns::{Port, RECEIVED};
use std::net::{Ipv4Addr, SocketAddr, SocketAddrV4};
use std::test::Fail;

fn at(port: u16) -> SocketAddr {
    SocketAddr::V4(SocketAddrV4::new(Ipv4Addr::LOCALHOST, port))
}

#[test]
fn passes_in_order(rt: HostRuntime) -> Result<(), Fail> {
    let mut port = WorldPort::new(rt.alloc(), 2)?;
    port.arrive(at(5), b"first");
    port.arrive(at(6), b"second");
    let mut into = [0; RECEIVED];
    assert_eq!(rt; port.receive(&mut into)?, Some((0, 5)));
    assert_eq!(rt; port.receive(&mut into)?, Some((1, 6)));
    assert_eq!(rt; port.receive(&mut into)?, None);
    port.send(1, b"answer")?;
    let Some(parcel) = port.leave() else {
        return Err(Fail::from("nothing left"));
    };
    assert_eq!(rt; parcel.address, at(6));
    assert!(rt; port.leave().is_none());
    Ok(())
}

#[test]
fn waits_for_the_first(rt: HostRuntime) {
    let wants = Wants {
        has_arrived: false,
        has_clocks: false,
        beat: Some(50),
        settles: Some(90),
        gives: Some(60),
    };
    assert_eq!(rt; wait_for(&[None, moment_of(&wants)], 20), 30);
    assert_eq!(rt; wait_for(&[None], 20), 1000);
}
