//! Memory that is refused in turns over the port in memory, until there is enough. A growth that is
//! refused to the port itself counts as its failure.

use super::given::{
    COUNTED, MARK, POINT, Trial, clock_at, clock_packet, go_back, try_on, viewer_of,
};
use super::hosting::{begin, offer_packet};
use script_boxes::StockScript;
use share_core::{Host, Viewer};
use share_turns::{
    Bytes, Datagram, FakePort, HostPlan, Port, RECEIVED, SeriesFault, TurnFault, ViewPlan, agree,
    host_run, host_turn, view_run, viewer_turn,
};
use share_wire::Packet;
use std::alloc::Global;
use std::cell::Cell;
use std::process::Abort;
use tests_memory::{Outcome, Spared, UsedUp, is_refused_until_enough};

/// The port of the host.
const HOST: u16 = 5000;

/// Returns a port to which a datagram has come, or none if `packet` is `None`.
fn port_with(alloc: Global, packet: Option<Packet>) -> FakePort {
    let mut port = FakePort::failing_at(alloc, 0);
    if let Some(packet) = packet {
        if packet.len() <= RECEIVED {
            let bytes = Bytes::from_slice(packet.as_slice());
            let _came = port.deliver(Datagram { peer: HOST, bytes }).is_ok();
        }
    }
    port
}

/// Returns the outcome of turns over ports with this many failures. If memory was refused to a node
/// no port failed, and otherwise one did. Counts the refusals to a node.
fn judged(answer: Option<TurnFault>, failures: u64, refusals: &Cell<u32>) -> Outcome {
    match answer {
        None => Outcome::Done.where_so(failures == 0),
        Some(TurnFault::Memory) => {
            refusals.set(refusals.get().saturating_add(1));
            Outcome::Refused.where_so(failures == 0)
        }
        Some(TurnFault::Port) => Outcome::Refused.where_so(failures == 1),
        Some(TurnFault::Spoiled) => Outcome::Wrong,
    }
}

fn turn_fault(answer: Result<(), SeriesFault>) -> Option<TurnFault> {
    match answer {
        Ok(()) => None,
        Err(SeriesFault::Turn(fault)) => Some(fault),
        Err(SeriesFault::TurnsUsedUp | SeriesFault::Join(_)) => Some(TurnFault::Spoiled),
    }
}

/// A host that has numbered nothing takes a turn, or a run of one turn. It numbers a clock, if
/// there is one, and an offer that arrives.
#[derive(Clone, Copy)]
enum HostCall {
    Turn(Option<i64>),
    Run,
}

/// All inputs are kept, and all turns are taken.
const ALL: HostPlan = HostPlan {
    keep: None,
    until: None,
};

fn take_turn(host: &mut Host, call: HostCall, port: &mut FakePort) -> Option<TurnFault> {
    match call {
        HostCall::Turn(clock) => host_turn(host, clock, port).err(),
        HostCall::Run => turn_fault(host_run(host, &[1_000_000], &ALL, 1, port)),
    }
}

#[derive(Clone, Copy)]
struct HostTurns<'a>(HostCall, u64, &'a Cell<u32>);

/// How many inputs are numbered: all if the turn is done, and fewer if memory is refused.
impl<'a> Spared<Host> for HostTurns<'a> {
    fn work(&self, alloc: Global, host: &mut Host, memory: &mut UsedUp) -> Outcome {
        begin(alloc, host);
        let mut port = port_with(alloc, Some(offer_packet()));
        memory.run_short();
        let answer = take_turn(host, self.0, &mut port);
        memory.come_back();
        let failures = port.failures();
        drop(port);
        let stands = match answer {
            None => host.len() == self.1,
            Some(TurnFault::Memory) => host.len() < self.1,
            Some(_) => host.len() <= self.1,
        };
        judged(answer, failures, self.2).where_so(stands)
    }
}

/// Returns how many of the turns refuse memory to the host itself, or 0 if something went wrong.
fn refused_to_host(alloc: Global, call: HostCall, inputs: u64) -> u32 {
    let refusals = Cell::new(0);
    let mut host = Host::new(alloc, MARK, 2);
    let work = HostTurns(call, inputs, &refusals);
    let refused = is_refused_until_enough(alloc, &work, &mut host, 10);
    drop(host);
    if refused { refusals.get() } else { 0 }
}

#[test]
fn turns_of_a_host_are_refused_until_there_is_enough(rt: HostRuntime) {
    let alloc = rt.alloc();
    let calls = [
        (HostCall::Turn(Some(1_000_000)), 2),
        (HostCall::Turn(None), 1),
        (HostCall::Run, 2),
    ];
    for (call, inputs) in calls {
        assert!(rt; refused_to_host(alloc, call, inputs) > 0);
    }
}

/// A viewer that begins at this snapshot, before any input, takes a turn, or a run of one turn with
/// its texts. It offers a point, and takes a clock that arrives.
#[derive(Clone, Copy)]
struct ViewerTurns<'a>(bool, &'a [u8], &'a Cell<u32>);

/// One input in one turn.
const ONE: ViewPlan = ViewPlan {
    until: 1,
    forget: None,
    turns: 1,
    join: None,
    give: None,
};

fn view_turn(
    alloc: Global,
    viewer: &mut Viewer<StockScript>,
    is_run: bool,
    port: &mut FakePort,
    out: &mut Vec<u8>,
) -> Option<TurnFault> {
    if is_run {
        turn_fault(view_run(alloc, viewer, &[POINT], &ONE, HOST, port, out))
    } else {
        viewer_turn(viewer, Some(POINT), HOST, port).err()
    }
}

/// Reports whether a viewer is as expected after a turn: spoiled if memory was refused to its
/// input, or with one input applied if memory was refused to its texts.
fn stands(viewer: &Viewer<StockScript>, answer: Option<TurnFault>) -> bool {
    let (applied, spoiled) = (viewer.applied(), viewer.spoiled());
    match answer {
        None => applied == 1 && !spoiled,
        Some(TurnFault::Memory) => (applied == 0) == spoiled,
        Some(_) => applied <= 1 && !spoiled,
    }
}

impl<'a> Spared<Viewer<StockScript>> for ViewerTurns<'a> {
    fn work(
        &self,
        alloc: Global,
        viewer: &mut Viewer<StockScript>,
        memory: &mut UsedUp,
    ) -> Outcome {
        let begun = go_back(viewer, self.1) == Ok(0);
        let mut port = port_with(alloc, clock_packet(1));
        let mut out = Vec::new(alloc);
        memory.run_short();
        let answer = view_turn(alloc, viewer, self.0, &mut port, &mut out);
        memory.come_back();
        let failures = port.failures();
        let printed = !out.is_empty();
        drop(out);
        drop(port);
        let right = printed == (self.0 && answer.is_none()) && stands(viewer, answer);
        judged(answer, failures, self.2).where_so(begun && right)
    }
}

/// A turn, or a run. Memory is refused to the viewer itself in some turns.
struct Turning(bool);

impl Trial for Turning {
    fn holds(&self, alloc: Global, viewer: &mut Viewer<StockScript>, shot: &[u8]) -> bool {
        let refusals = Cell::new(0);
        let work = ViewerTurns(self.0, shot, &refusals);
        is_refused_until_enough(alloc, &work, viewer, 10) && refusals.get() > 0
    }
}

#[test]
fn turns_of_a_viewer_are_refused_until_there_is_enough(rt: HostRuntime) {
    try_on(&rt, rt.alloc(), COUNTED, 0, &Turning(false));
    try_on(&rt, rt.alloc(), COUNTED, 0, &Turning(true));
}

/// A host numbers a clock, and one viewer, which begins at this snapshot, takes it.
#[derive(Clone, Copy)]
struct Agreeing<'a>(&'a [u8], &'a Cell<u32>);

fn agree_alone(
    host: &mut Host,
    viewers: &mut [Viewer<StockScript>],
    port: &mut FakePort,
    ports: &mut [FakePort],
    out: &mut Vec<u8>,
) -> Option<TurnFault> {
    let Some(clock) = clock_at(1) else {
        return Some(TurnFault::Spoiled);
    };
    if viewers.len() != 1 || ports.len() != viewers.len() {
        return Some(TurnFault::Spoiled);
    }
    turn_fault(agree(host, viewers, &[clock], 2, HOST, port, ports, out))
}

/// Reports whether the first viewer goes back to a snapshot before any input.
fn begin_first(viewers: &mut [Viewer<StockScript>], shot: &[u8]) -> bool {
    match viewers.get_mut(0) {
        Some(viewer) => go_back(viewer, shot) == Ok(0),
        None => false,
    }
}

impl<'a> Spared<Vec<Viewer<StockScript>>> for Agreeing<'a> {
    fn work(
        &self,
        alloc: Global,
        viewers: &mut Vec<Viewer<StockScript>>,
        memory: &mut UsedUp,
    ) -> Outcome {
        let begun = begin_first(viewers.as_mut_slice(), self.0);
        let mut host = Host::new(alloc, MARK, 1);
        let mut port = port_with(alloc, None);
        let mut ports = [port_with(alloc, clock_packet(1))];
        let mut out = Vec::new(alloc);
        memory.run_short();
        let answer = agree_alone(
            &mut host,
            viewers.as_mut_slice(),
            &mut port,
            &mut ports,
            &mut out,
        );
        memory.come_back();
        let failures = port.failures().saturating_add(ports[0].failures());
        let printed = !out.is_empty();
        drop(out);
        drop(ports);
        drop(port);
        drop(host);
        judged(answer, failures, self.1).where_so(begun && printed == answer.is_none())
    }
}

fn agrees(alloc: Global, viewers: &mut Vec<Viewer<StockScript>>, shot: &[u8]) -> bool {
    let refusals = Cell::new(0);
    let work = Agreeing(shot, &refusals);
    is_refused_until_enough(alloc, &work, viewers, 20) && refusals.get() > 0
}

#[test]
fn rounds_are_refused_until_there_is_enough(rt: HostRuntime) {
    let Ok(viewer) = viewer_of(rt.alloc(), COUNTED) else {
        panic!(rt; "there is no viewer");
    };
    let mut shot = Vec::new(rt.alloc());
    let saved = viewer.snapshot(&mut shot).is_ok();
    let mut viewers = Vec::new(rt.alloc());
    let pushed = viewers.push(viewer).is_ok();
    let refused = saved && pushed && agrees(rt.alloc(), &mut viewers, shot.as_slice());
    drop(viewers);
    drop(shot);
    assert!(rt; refused);
}
