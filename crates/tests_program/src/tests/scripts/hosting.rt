//! What is done with the boxes of two scripts.

use super::attaching::counter_specs;
use super::probe::{Log, Made, Probe, boxes_made};
use super::{Row, all_hold, holds, list_of};
use script_host::{AttachFault, Behaviour, ReplaceFault, Reply, Scripts, StateFault, takes_event};
use std::alloc::Global;
use std::process::Abort;
use tests_memory::{Outcome, Spared, UsedUp, is_refused_until_enough};
use x3d_values::Items;

/// Returns the scripts of two counters at 5, of which the second has this box.
fn two_scripts<'a>(
    alloc: Global,
    second: Made,
    log: &'a Log,
) -> Result<Scripts<Probe<'a>>, AttachFault> {
    let Ok(boxes) = boxes_made(alloc, &[Made::Counter(5), second], log) else {
        return Err(AttachFault::Memory);
    };
    let specs = counter_specs(alloc, 2);
    let attached = Scripts::attach(alloc, specs.as_slice(), boxes);
    drop(specs);
    attached
}

/// What is done with the scripts, and the answer.
#[derive(Clone, Copy)]
enum Step {
    /// Script `k` is initialized.
    Initialize(usize),
    /// Script `k` gets TRUE, and sends this count.
    Tick(usize, i64),
    /// The box of script `k` is replaced by box 3.
    Replace(usize, Made, Result<(), ReplaceFault>),
    /// Both scripts are restored to these counts.
    Restore([i64; 2], Result<(), StateFault>),
    /// Both scripts have these counts.
    Counts([i64; 2]),
    /// The log of boxes up to now.
    Told(u64),
}

fn initializes<B: Behaviour>(scripts: &mut Scripts<B>, k: usize) -> bool {
    k < scripts.len() && scripts.call_initialize(k).is_empty()
}

/// Reports whether script `k` sends this count at TRUE.
pub(super) fn sends<B: Behaviour>(scripts: &mut Scripts<B>, k: usize, count: i64) -> bool {
    if k >= scripts.len() {
        return false;
    }
    if !takes_event(scripts.kind(k), 0, [1, 0, 0]) {
        return false;
    }
    let replies = scripts.call_receive(k, 0, [1, 0, 0]);
    replies.as_slice() == [Reply::number(0, count)].as_slice()
}

/// Returns the states of counters in steps of 2, or fewer if memory is refused.
pub(super) fn states_of(alloc: Global, counts: &[i64]) -> Vec<Items<i64>> {
    let mut states = Vec::new(alloc);
    for count in counts {
        let Ok(()) = states.push(list_of(alloc, &[*count, 2])) else {
            return states;
        };
    }
    states
}

fn restores<B: Behaviour>(
    alloc: Global,
    scripts: &mut Scripts<B>,
    counts: [i64; 2],
    wanted: Result<(), StateFault>,
) -> bool {
    let states = states_of(alloc, &counts);
    let answer = scripts.restore_all(states.as_slice());
    drop(states);
    answer == wanted
}

/// Reports whether there are two states that begin with these numbers.
pub(super) fn begin(states: &[Items<i64>], wanted: [i64; 2]) -> bool {
    match states {
        [first, second] => { first.get(0) == Some(&wanted[0]) && second.get(0) == Some(&wanted[1]) }
        _ => false,
    }
}

fn are_counts<B: Behaviour>(alloc: Global, scripts: &Scripts<B>, wanted: [i64; 2]) -> bool {
    let mut states = Vec::new(alloc);
    let answer = scripts.states(&mut states);
    let held = begin(states.as_slice(), wanted);
    drop(states);
    answer.is_ok() && held
}

fn does<'a>(alloc: Global, scripts: &mut Scripts<Probe<'a>>, log: &'a Log, step: Step) -> bool {
    match step {
        Step::Initialize(k) => initializes(scripts, k),
        Step::Tick(k, count) => sends(scripts, k, count),
        Step::Replace(k, made, wanted) => scripts.replace(k, Probe::new(3, made, log)) == wanted,
        Step::Restore(counts, wanted) => restores(alloc, scripts, counts, wanted),
        Step::Counts(wanted) => are_counts(alloc, scripts, wanted),
        Step::Told(digits) => log.get() == digits,
    }
}

fn does_all<'a>(
    alloc: Global,
    scripts: &mut Scripts<Probe<'a>>,
    log: &'a Log,
    steps: &[Step],
) -> bool {
    for step in steps {
        if !does(alloc, scripts, log, *step) {
            return false;
        }
    }
    true
}

/// The second box of two scripts, what is done with the scripts, whether they are closed in the end
/// instead of dropped, and the log of boxes afterwards.
struct Story(Made, &'static [Step], bool, u64);

impl Row for Story {
    fn holds(&self, alloc: Global) -> bool {
        let log = Log::new();
        let Ok(mut scripts) = two_scripts(alloc, self.0, &log) else {
            return false;
        };
        let answer = does_all(alloc, &mut scripts, &log, self.1);
        if self.2 {
            scripts.close();
        } else {
            drop(scripts);
        }
        answer && log.get() == self.3
    }
}

const SECOND: Made = Made::Counter(5);

static ENDS: [Story; 2] = [
    // in the order of the places, not of the calls
    Story(
        SECOND,
        &[Step::Initialize(1), Step::Initialize(0)],
        true,
        21_45_78,
    ),
    Story(SECOND, &[Step::Initialize(1)], false, 2_5_78),
];

#[test]
fn what_was_initialized_is_shut_down_and_all_are_dropped(rt: HostRuntime) {
    all_hold(&rt, rt.alloc(), &ENDS);
}

static REPLACEMENTS: [Story; 4] = [
    Story(
        SECOND,
        &[
            Step::Initialize(0),
            Step::Replace(0, Made::Counter(0), Ok(())),
            Step::Told(1_47),
            Step::Tick(0, 7),
        ],
        true,
        147_6_98,
    ),
    // a box that was not initialized is only dropped
    Story(
        SECOND,
        &[Step::Replace(0, Made::Counter(0), Ok(())), Step::Told(7)],
        false,
        7_98,
    ),
    // the refused box is dropped, and the others stay
    Story(
        SECOND,
        &[
            Step::Initialize(0),
            Step::Replace(2, Made::Counter(0), Err(ReplaceFault::NoSuchScript)),
            Step::Replace(0, Made::Refusing(0), Err(ReplaceFault::Memory)),
            Step::Told(1_99),
        ],
        false,
        199_4_78,
    ),
    Story(
        SECOND,
        &[Step::Replace(1, Made::Gate, Err(ReplaceFault::KindDiffers))],
        false,
        9_78,
    ),
];

#[test]
fn a_replaced_box_is_shut_down_and_dropped(rt: HostRuntime) {
    all_hold(&rt, rt.alloc(), &REPLACEMENTS);
}

/// No other call of a box is made. If the second box is refused memory, the first has its new
/// state.
static RESTORED: [Story; 2] = [
    Story(
        SECOND,
        &[Step::Restore([20, 30], Ok(())), Step::Counts([20, 30])],
        false,
        78,
    ),
    Story(
        Made::Refusing(5),
        &[
            Step::Restore([8, 9], Err(StateFault::Memory)),
            Step::Counts([8, 5]),
        ],
        false,
        78,
    ),
];

#[test]
fn scripts_are_restored(rt: HostRuntime) {
    all_hold(&rt, rt.alloc(), &RESTORED);
}

/// The calls that take memory.
#[derive(Clone, Copy)]
enum Call {
    States,
    Replace,
}

/// Appends two states to an empty list.
fn tells<B: Behaviour>(alloc: Global, scripts: &Scripts<B>) -> Outcome {
    let mut states = Vec::new(alloc);
    let answer = scripts.states(&mut states);
    let told = states.len();
    drop(states);
    Outcome::of(answer.is_ok() && told == 2, answer.is_err() && told == 0)
}

fn replaces<'a>(scripts: &mut Scripts<Probe<'a>>, log: &'a Log) -> Outcome {
    let answer = scripts.replace(0, Probe::new(3, Made::Counter(0), log));
    Outcome::of(answer == Ok(()), answer == Err(ReplaceFault::Memory))
}

/// The log of boxes at the end is as expected.
impl Spared<()> for Call {
    fn work(&self, alloc: Global, _subject: &mut (), memory: &mut UsedUp) -> Outcome {
        let log = Log::new();
        let Ok(mut scripts) = two_scripts(alloc, SECOND, &log) else {
            return Outcome::Wrong;
        };
        memory.run_short();
        let outcome = match self {
            Call::States => tells(alloc, &scripts),
            Call::Replace => replaces(&mut scripts, &log),
        };
        memory.come_back();
        drop(scripts);
        let told = match (self, outcome) {
            (Call::States, _) => log.get() == 78,
            (Call::Replace, Outcome::Done) => log.get() == 7_98,
            (Call::Replace, _) => log.get() == 9_78,
        };
        outcome.where_so(told)
    }
}

/// A replacement takes a block for the old state. Reading the states of two scripts takes one block
/// each, and their list.
#[test]
fn calls_are_refused_until_there_is_enough(rt: HostRuntime) {
    holds(
        &rt,
        is_refused_until_enough(rt.alloc(), &Call::Replace, &mut (), 2),
    );
    holds(
        &rt,
        is_refused_until_enough(rt.alloc(), &Call::States, &mut (), 8),
    );
}
