//! A host and two viewers that take turns, possibly one of them by its command. Each viewer ends
//! with what `run` prints.

ghost use Rattle.std.specs.Prelude.{◌≤◌};

use super::cable::{Cable, End, HOST, laid};
use super::given::{Job, ONE_POINTER, ORDER, TEN_CLOCKS, TWO_CLOCKS, TWO_POINTERS, joined, run_of};
use super::{Row, all_hold};
use app_commands::{JointJob, joint_job, seated_job, shared_job, view_job};
use app_words::{HostOrder, LogUse, Order, ViewEnd, ViewOrder};
use share_core::Host;
use share_turns::{HostPlan, Port, PortFault, RECEIVED, ViewPlan, host_run, view_run};
use std::alloc::{AllocError, Global};
use std::cell::RefCell;
use std::process::Abort;
use x3d_values::Stamped;

/// More turns than are needed.
const TURNS: u32 = 100;

/// All inputs are kept, and all turns are taken.
const ALL: HostPlan = HostPlan {
    keep: None,
    until: None,
};

/// Returns a plan of `until` inputs in at most `turns` turns.
fn plan(until: u64, turns: u32) -> ViewPlan {
    ViewPlan {
        until,
        forget: None,
        turns,
        join: None,
        give: None,
    }
}

/// The addresses of the viewers, and one without a node.
const FIRST: u16 = HOST + 1;

const SECOND: u16 = HOST + 2;

const NOBODY: u16 = HOST + 3;

/// Returns the rest of the items after `turns` turns.
fn after<T>(items: &[T], turns: usize) -> &[T] {
    items.split_at(turns.min(items.len())).1
}

/// A host and the viewers of a job at the ends of a cable, and what the viewers print.
#[derive(Drop)]
struct Nodes<'a> {
    alloc: Global,
    cable: &'a RefCell<Cable>,
    job: &'static Job,
    host: Host,
    joint: JointJob,
    turn: usize,
    printed: Vec<u8>,
}

impl<'a> Nodes<'a> {
    /// Takes the next turn of the host.
    fn host_on(&mut self) {
        let clocks = after(self.job.clocks, self.turn);
        let mut port = End::new(self.cable, HOST);
        let _ended = host_run(&mut self.host, clocks, &ALL, 1, &mut port);
    }

    /// Takes the next turn of a viewer, unless the viewer has ended.
    fn view_on(&mut self, who: u8) {
        let Some(points) = self.job.points.get(usize::from(who)) else {
            return;
        };
        let Some(viewer) = self.joint.viewers.get_mut(usize::from(who)) else {
            return;
        };
        let until = self.job.inputs;
        if viewer.applied() < until {
            let points = after(points, self.turn);
            let mut port = End::new(self.cable, FIRST + u16::from(who));
            let plan = plan(until, 1);
            let out = &mut self.printed;
            let _ended = view_run(self.alloc, viewer, points, &plan, HOST, &mut port, out);
        }
    }

    /// Takes the next turn of each node except the one at this address. If a turn ends early, the
    /// printed text shows that.
    fn take_turns(&mut self, away: u16) {
        if away != HOST {
            self.host_on();
        }
        for who in 0..2 {
            if away != FIRST + u16::from(who) {
                self.view_on(who);
            }
        }
        self.turn = self.turn.saturating_add(1);
    }
}

/// The end of one node. Before each of its receives the others take a turn.
#[derive(Drop)]
struct Between<'a> {
    address: u16,
    end: End<'a>,
    others: Nodes<'a>,
}

impl<'a> Port for Between<'a> {
    ghost failure_count = { λ p. p.end.failed };

    fn send(&mut self, to: u16, bytes: &[u8]) -> Result<(), PortFault> {
        self.end.send(to, bytes)
    }

    fn receive(&mut self, into: &mut [u8; RECEIVED]) -> Result<Option<(u16, usize)>, PortFault> {
        self.others.take_turns(self.address);
        self.end.receive(into)
    }

    fn failures(&self) -> u64 {
        self.end.failures()
    }
}

fn times_of(alloc: Global, inputs: &[Stamped]) -> Result<Vec<i64>, AllocError> {
    inputs.iter().map(|input| input.time()).collect(alloc)
}

/// Reports whether a host takes all its turns, with the clocks of a job's bytes.
fn hosts(alloc: Global, bytes: &[u8], port: &mut Between<'_>) -> bool {
    let order = Order::Host(HostOrder {
        port: Some(HOST),
        has_address: false,
        has_keys: false,
        is_open: false,
        log: LogUse::Without,
        has_world: false,
        has_login: false,
        standby: None,
        viewers: Some(2),
        turns: Some(TURNS),
        keep: None,
        forget: None,
        every: None,
        until: None,
        verbose: false,
    });
    let Ok(job) = shared_job(alloc, bytes, &order) else {
        return false;
    };
    let Ok(times) = times_of(alloc, job.inputs.as_slice()) else {
        return false;
    };
    let mut host = Host::new(alloc, job.mark, 2);
    drop(job);
    host_run(&mut host, times.as_slice(), &ALL, TURNS, port).is_ok()
}

/// Reports whether a viewer completes its command, with a job's bytes.
fn views(alloc: Global, bytes: &[u8], who: u8, port: &mut Between<'_>) -> bool
    requires { who ≤ 63 }
{
    let until = port.others.job.inputs;
    let order = Order::View(ViewOrder {
        port: Some(HOST),
        has_address: false,
        has_key: false,
        has_world: false,
        is_open: false,
        who,
        boot: Some(1),
        end: ViewEnd::Until(until),
        turns: TURNS,
        at: None,
        give: None,
        give_turns: 1,
        wire: None,
        join: false,
        forget: None,
        verbose: false,
    });
    let Ok(mut seat) = seated_job(alloc, bytes, &order, who, 1) else {
        return false;
    };
    let answer = view_job(alloc, &mut seat, HOST, &plan(until, TURNS), port);
    drop(seat);
    match answer {
        Ok(text) => port
            .others
            .printed
            .extend_from_slice(text.as_slice())
            .is_ok(),
        Err(_) => false,
    }
}

/// The nodes of a job, over a cable that is lossy or not, and the address of the node that runs by
/// its command. That node begins after the others have taken this many turns.
struct Turns(&'static Job, bool, u16, u32);

impl Turns {
    /// Reports whether that node completes its command, if there is one.
    fn ends(&self, alloc: Global, port: &mut Between<'_>) -> bool {
        let Some(steps) = self.0.parts.get(usize::from(self.2)) else {
            return true;
        };
        let Ok(bytes) = joined(alloc, steps, self.0.scene) else {
            return false;
        };
        match self.2 {
            HOST => hosts(alloc, bytes.as_slice(), port),
            FIRST => views(alloc, bytes.as_slice(), 0, port),
            _ => views(alloc, bytes.as_slice(), 1, port),
        }
    }

    /// Like `ends`, while the others begin before that node and go on after it.
    fn ends_between(&self, alloc: Global, port: &mut Between<'_>) -> bool {
        for _turn in 0..self.3 {
            port.others.take_turns(self.2);
        }
        let ended = self.ends(alloc, port);
        for _turn in 0..TURNS {
            port.others.take_turns(self.2);
        }
        ended
    }

    /// Reports whether both viewers print `wanted`.
    fn print(&self, alloc: Global, cable: &RefCell<Cable>, bytes: &[u8], wanted: &[u8]) -> bool {
        let Ok(joint) = joint_job(alloc, bytes, &ORDER, 2) else {
            return false;
        };
        let mut port = Between {
            address: self.2,
            end: End::new(cable, self.2),
            others: Nodes {
                alloc,
                cable,
                job: self.0,
                host: Host::new(alloc, joint.mark, 2),
                joint,
                turn: 0,
                printed: Vec::new(alloc),
            },
        };
        let ended = self.ends_between(alloc, &mut port);
        let printed = port.others.printed.strip_prefix(wanted) == Some(wanted);
        drop(port);
        ended && printed
    }
}

impl Row for Turns {
    fn holds(&self, alloc: Global) -> Result<bool, AllocError> {
        let bytes = joined(alloc, self.0.steps, self.0.scene)?;
        let wanted = run_of(alloc, "", bytes.as_slice())?;
        let cable = laid(alloc, self.1, 0);
        let held = self.print(alloc, &cable, bytes.as_slice(), wanted.as_slice());
        drop(cable);
        Ok(held)
    }
}

const CLEAN: bool = false;

const LOSSY: bool = true;

static TURN_FOR_TURN: [Turns; 4] = [
    Turns(&TWO_CLOCKS, CLEAN, NOBODY, 0),
    Turns(&TWO_POINTERS, CLEAN, NOBODY, 0),
    Turns(&TEN_CLOCKS, LOSSY, NOBODY, 0),
    Turns(&ONE_POINTER, LOSSY, NOBODY, 0),
];

#[test]
fn nodes_come_to_a_run(rt: HostRuntime) {
    all_hold(&rt, rt.alloc(), &TURN_FOR_TURN);
}

static BY_COMMAND: [Turns; 12] = [
    Turns(&TWO_CLOCKS, CLEAN, HOST, 0),
    Turns(&TWO_CLOCKS, CLEAN, FIRST, 0),
    Turns(&TWO_CLOCKS, CLEAN, SECOND, TURNS),
    Turns(&ONE_POINTER, CLEAN, HOST, 0),
    Turns(&ONE_POINTER, CLEAN, FIRST, 0),
    Turns(&ONE_POINTER, CLEAN, SECOND, TURNS),
    Turns(&TEN_CLOCKS, LOSSY, HOST, 0),
    Turns(&TEN_CLOCKS, LOSSY, FIRST, 0),
    Turns(&TEN_CLOCKS, LOSSY, SECOND, TURNS),
    Turns(&ONE_POINTER, LOSSY, HOST, 0),
    Turns(&ONE_POINTER, LOSSY, FIRST, 0),
    Turns(&ONE_POINTER, LOSSY, SECOND, TURNS),
];

#[test]
fn commands_come_to_their_ends(rt: HostRuntime) {
    all_hold(&rt, rt.alloc(), &BY_COMMAND);
}
