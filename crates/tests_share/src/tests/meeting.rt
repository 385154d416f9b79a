//! How a viewer meets its host, and the port that it then has.

use crate::tests::runs::{HOST, OTHER, OWN, deliver, hello_of};
use app_commands::{Meeting, ViewerPort, meet};
use app_program::ShareFault;
use share_session::{Hello, Message2, ViewerCount, WorldName};
use share_turns::FakePort;
use std::test::Fail;

const SEED: [u8; 32] = [5; 32];

fn door() -> Result<Hello, Fail> {
    match WorldName::new(b"door") {
        Some(name) => Ok(hello_of(name)),
        None => Err(Fail::from("door is no name")),
    }
}

fn meeting_by(hello: Hello) -> Meeting {
    Meeting {
        host: HOST,
        hello,
        seed: SEED,
        most: 0,
    }
}

/// A viewer takes the Welcome that answers its Hello, and no other.
#[test]
fn a_viewer_meets_its_host(rt: HostRuntime) -> Result<(), Fail> {
    let hello = door()?;
    let mut other = hello;
    other.nonce = [3; 16];
    let mut port = FakePort::failing_at(rt.alloc(), 0);
    let foreign = other.welcome([1; 8], OTHER, ViewerCount::new(4), 0);
    deliver(&mut port, &Message2::Welcome(foreign))?;
    let welcome = hello.welcome([1; 8], OWN, ViewerCount::new(4), 0);
    deliver(&mut port, &Message2::Welcome(welcome))?;
    let Ok(Some(found)) = meet(&mut port, &rt, &meeting_by(hello)) else {
        return Err(Fail::from("the viewer isn't welcomed"));
    };
    assert!(rt; found.welcome == welcome && found.hello == hello);
    Ok(())
}

/// A viewer whose host says nothing, and which has no more time, meets no one.
#[test]
fn a_viewer_meets_no_one(rt: HostRuntime) -> Result<(), Fail> {
    let mut port = FakePort::failing_at(rt.alloc(), 0);
    let found = meet(&mut port, &rt, &meeting_by(door()?));
    assert!(rt; matches!(found, Ok(None)));
    let plain = ViewerPort::Plain(port);
    assert!(rt; plain.end().is_none() && plain.others() == 0);
    assert!(rt; plain.failed_with(ShareFault::Port) == ShareFault::Port);
    Ok(())
}
