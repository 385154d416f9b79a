//! Commands with more and more memory. Each is refused as Memory and writes nothing, until there is
//! enough.

use super::commands::{Command, is_refused, obey};
use super::texts::{Part, made};
use super::{Row, all_hold};
use std::alloc::{AllocError, Global};
use std::process::Abort;
use tests_memory::{Outcome, Spared, UsedUp, is_refused_until_enough};

/// Room for what a command writes, so that its writer needs no memory.
const ROOM: usize = 65_536;

/// A command and its input.
#[derive(Clone, Copy)]
struct Given<'a>(Command, &'a [u8]);

impl<'a> Spared<Vec<u8>> for Given<'a> {
    fn work(&self, alloc: Global, out: &mut Vec<u8>, memory: &mut UsedUp) -> Outcome {
        let mut reader = self.1;
        out.clear();
        memory.run_short();
        let failure = obey(alloc, self.0, &mut reader, out).err();
        memory.come_back();
        let done = failure.is_none();
        let refused = is_refused(failure, "refused Memory", 5);
        Outcome::of(done, refused).where_so(done != out.is_empty())
    }
}

/// A command and its input, and the least number of turns in which it is refused. Each turn has 16
/// bytes more than the one before.
struct Refused(Command, &'static [Part], usize);

impl Row for Refused {
    fn holds(&self, alloc: Global) -> Result<bool, AllocError> {
        let input = made(alloc, self.1)?;
        let mut out = Vec::with_capacity(alloc, ROOM)?;
        let given = Given(self.0, input.as_slice());
        Ok(is_refused_until_enough(alloc, &given, &mut out, self.2))
    }
}

/// A tree, and then its text, which is longer than the input. There are few levels: while memory is
/// used up, the stack can't grow either.
static FORMATTED: [Refused; 1] = [Refused(
    Command::Format,
    &[
        Part(1, "#X3D V3.0 utf8"),
        Part(8, "\nGroup { children ["),
        Part(8, " ] }"),
    ],
    96,
)];

#[test]
fn formatting_is_refused_until_there_is_enough(rt: HostRuntime) {
    all_hold(&rt, rt.alloc(), &FORMATTED);
}

/// A few prototypes give many nodes with many fields. Each layer holds more than the one before, so
/// its growths are refused.
static CHECKED: [Refused; 1] = [Refused(
    Command::Check,
    &[
        Part(1, "#X3D V3.0 utf8\nPROTO P0 [] { TimeSensor {} }\n"),
        Part(5, "PROTO P% [] { Group { children [ P~ {} P~ {} ] } }\n"),
        Part(1, "P5 {}\nDEF T TimeSensor {} ROUTE T.isActive TO T.loop\n"),
        Part(
            1,
            "ROUTE T.isActive TO T.enabled ROUTE T.time TO T.startTime\n",
        ),
    ],
    1500,
)];

#[test]
fn checking_is_refused_until_there_is_enough(rt: HostRuntime) {
    all_hold(&rt, rt.alloc(), &CHECKED);
}

/// The same scene. Loading takes more memory than checking, and the text of the scene more than
/// that.
static LOADED: [Refused; 1] = [Refused(
    Command::Run,
    &[
        Part(1, "scene\n#X3D V3.0 utf8\nPROTO P0 [] { TimeSensor {} }\n"),
        Part(5, "PROTO P% [] { Group { children [ P~ {} P~ {} ] } }\n"),
        Part(1, "P5 {}\nDEF T TimeSensor {} ROUTE T.isActive TO T.loop\n"),
        Part(
            1,
            "ROUTE T.isActive TO T.enabled ROUTE T.time TO T.startTime\n",
        ),
    ],
    4000,
)];

#[test]
fn loading_is_refused_until_there_is_enough(rt: HostRuntime) {
    all_hold(&rt, rt.alloc(), &LOADED);
}

/// Clocks with many trace lines each. The job, its trace, the text of the trace, and the text of
/// the scene each take more memory than the one before.
static CLOCKS: [Refused; 1] = [Refused(
    Command::Run,
    &[
        Part(26, "clock %\n"),
        Part(1, "scene\n#X3D V3.0 utf8\n"),
        Part(
            4,
            "DEF T% TimeSensor { cycleInterval 2 loop TRUE startTime 1 }\n",
        ),
    ],
    1000,
)];

#[test]
fn a_job_is_refused_until_there_is_enough(rt: HostRuntime) {
    all_hold(&rt, rt.alloc(), &CLOCKS);
}

/// A move, a press and a release.
static POINTERS: [Refused; 1] = [Refused(
    Command::Run,
    &[Part(
        1,
        "point 0 0 10 0 20 0 0 -1\npoint 0 1 10 0 20 0 0 -1\npoint 0 0 10 0 20 0 0 -1
scene
#X3D V3.0 utf8
Transform { translation 10 0 0 scale 2 2 2
children [ DEF S TouchSensor {} Shape { geometry Box {} } ] }
",
    )],
    256,
)];

#[test]
fn a_job_of_pointers_is_refused_until_there_is_enough(rt: HostRuntime) {
    all_hold(&rt, rt.alloc(), &POINTERS);
}
