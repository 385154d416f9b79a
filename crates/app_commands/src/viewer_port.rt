//! The port of a viewer, in a run or in none.

ghost use Rattle.std.specs.Prelude.{◌≡◌};
ghost use Rattle.app_commands.specs.Ended as spec;

use app_program::ShareFault;
use share_runs::ViewPort;
use share_turns::{Port, PortFault, RECEIVED};

/// The port of a viewer: in a run by version 2 of datagrams, or by version 1. Its contract says
/// nothing of its traffic.
#[derive(Drop)]
pub enum ViewerPort<P> {
    /// It speaks version 1.
    Plain(P),
    /// It was welcomed to a run.
    InRun(ViewPort<P>),
}

fn end_if(is_over: bool, is_other_list: bool) -> Option<ShareFault>
    ensures { result ≡ spec.end_if is_over is_other_list }
{
    if is_over {
        Some(ShareFault::OtherRun)
    } else if is_other_list {
        Some(ShareFault::OtherList)
    } else {
        None
    }
}

fn failed_with(end: Option<ShareFault>, fault: ShareFault) -> ShareFault
    ensures { result ≡ spec.failed_with end fault }
{
    match fault {
        ShareFault::Port => end.unwrap_or(ShareFault::Port),
        _ => fault,
    }
}

impl<P> ViewerPort<P> {
    ghost use Rattle.std.specs.Prelude.{◌≡◌};
    ghost use Rattle.app_commands.specs.Ended as spec;

    /// Returns why the viewer's run ended, if it did: its run is over, or an input of another list
    /// came. From then on the port fails.
    pub fn end(&self) -> Option<ShareFault>
        ensures { result ≡ spec.end_of self.now }
    {
        match self {
            ViewerPort::Plain(_) => None,
            ViewerPort::InRun(port) => end_if(port.is_over(), port.is_other_list()),
        }
    }

    /// Returns how many datagrams of other runs came, up to 2^64 - 1.
    pub fn others(&self) -> u64
        ensures { result ≡ spec.others_of self.now }
    {
        match self {
            ViewerPort::Plain(_) => 0,
            ViewerPort::InRun(port) => port.others(),
        }
    }

    /// Returns why a viewer ends whose turns over this port ended with `fault`: if its run ended,
    /// that is why the port failed.
    pub fn failed_with(&self, fault: ShareFault) -> ShareFault
        ensures { result ≡ spec.failed_with (spec.end_of self.now) fault }
    {
        failed_with(self.end(), fault)
    }
}

impl<P: Port> Port for ViewerPort<P> {
    ghost use Rattle.app_commands.specs.Ended.{failures_in, rested_in};

    ghost failure_count = { λ p. failures_in P.failure_count p };

    ghost rested = { λ p. rested_in P.rested p };

    fn send(&mut self, to: u16, bytes: &[u8]) -> Result<(), PortFault> {
        match self {
            ViewerPort::Plain(port) => port.send(to, bytes),
            ViewerPort::InRun(port) => port.send(to, bytes),
        }
    }

    fn receive(&mut self, into: &mut [u8; RECEIVED]) -> Result<Option<(u16, usize)>, PortFault> {
        match self {
            ViewerPort::Plain(port) => port.receive(into),
            ViewerPort::InRun(port) => port.receive(into),
        }
    }

    fn failures(&self) -> u64 {
        match self {
            ViewerPort::Plain(port) => port.failures(),
            ViewerPort::InRun(port) => port.failures(),
        }
    }

    fn rest(&mut self, is_new: bool) -> u64 {
        match self {
            ViewerPort::Plain(port) => port.rest(is_new),
            ViewerPort::InRun(port) => port.rest(is_new),
        }
    }

    fn wait(&mut self, millis: u32) {
        match self {
            ViewerPort::Plain(port) => port.wait(millis),
            ViewerPort::InRun(port) => port.wait(millis),
        }
    }
}
