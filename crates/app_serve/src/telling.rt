//! What is printed of an end, on standard error.

use crate::end::End;
use crate::names::text_of;
use app_logs::{LogFault, log_refusal_line, log_status_of};
use app_program::{Failure, refusal_line, status_of};
use proto_blame::instance_words;
use share_key_files::KeyFileFault;
use share_session::WorldName;
use std::fmt;
use std::io::Eprint;
use std::process::ExitCode;

/// A line, after the name of the world that it is about, if it is about one.
#[derive(Drop)]
struct Line<'a, T> {
    world: Option<&'a WorldName>,
    text: T,
}

impl<T: fmt::Display> fmt::Display for Line<'_, T> {
    fn fmt<W: fmt::Write>(&self, f: &mut fmt::Formatter<W>) -> fmt::Result {
        match self.world {
            Some(name) => write!(f, "{}: {}", text_of(name), self.text),
            None => write!(f, "{}", self.text),
        }
    }
}

/// Prints a line on standard error. A standard error that fails affects nothing.
fn tell<R: Eprint, T: fmt::Display + Drop>(rt: &R, world: Option<&WorldName>, text: T) {
    let _told = rt.eprintln(Line { world, text });
}

/// Reports on standard error that etcd answers again, or that it doesn't answer.
pub(crate) fn tell_etcd<R: Eprint>(rt: &R, answers: bool) {
    let text = if answers {
        "etcd answers again"
    } else {
        "etcd doesn't answer"
    };
    tell(rt, None, text);
}

/// Prints the line of a refusal of a log, and returns its status.
fn refuse_log<R: Eprint>(rt: &R, world: Option<&WorldName>, fault: LogFault) -> ExitCode {
    tell(rt, world, log_refusal_line(fault).as_str());
    ExitCode::from(log_status_of(fault))
}

fn refuse_failure<R: Eprint>(rt: &R, world: Option<&WorldName>, failure: &Failure) -> ExitCode {
    tell(rt, world, refusal_line(failure).as_str());
    ExitCode::from(status_of(failure))
}

/// The line of a file of keys that is refused, in words.
#[derive(Drop)]
struct KeyFileRefused(KeyFileFault);

impl fmt::Display for KeyFileRefused {
    fn fmt<W: fmt::Write>(&self, f: &mut fmt::Formatter<W>) -> fmt::Result {
        write!(f, "refused {} line {}", self.0.kind.name(), self.0.line)
    }
}

/// Prints the line of a refusal that says what is wrong with the words, and returns its status.
fn refuse_words_of<R: Eprint>(rt: &R, world: Option<&WorldName>, line: &str) -> ExitCode {
    tell(rt, world, line);
    ExitCode::from(2)
}

/// Prints the line of a refusal, and returns its status.
fn refuse_by_name<R: Eprint>(rt: &R, world: Option<&WorldName>, end: &End) -> ExitCode {
    match end {
        End::Failure(failure) => refuse_failure(rt, world, failure),
        End::Instance(failure, _) => refuse_failure(rt, world, failure),
        End::Log(fault) => refuse_log(rt, world, *fault),
        End::InDoubt => refuse_log(rt, world, LogFault::Device),
        End::NoSnapshot => refuse_words_of(rt, world, "refused NoSnapshot"),
        End::NoAddress => refuse_words_of(rt, world, "refused NoAddress"),
        End::KeyFileOpen => refuse_words_of(rt, world, "refused KeyFileOpen"),
        End::KeyFileShared => refuse_words_of(rt, world, "refused KeyFileOpen"),
        End::KeyFile(fault) => {
            tell(rt, world, KeyFileRefused(*fault));
            ExitCode::from(2)
        }
        End::WrongViewer => refuse_words_of(rt, world, "refused WrongViewer"),
        End::NoKeys => refuse_words_of(rt, world, "refused NoKeys"),
        End::NoWorldName => refuse_words_of(rt, world, "refused NoWorldName"),
        End::KeyFileThere => refuse_words_of(rt, world, "refused KeyFileThere"),
        End::LoginFile => refuse_words_of(rt, world, "refused LoginFile"),
        End::EtcdSilent => {
            tell(rt, world, "refused EtcdSilent");
            ExitCode::from(4)
        }
        End::EtcdMalformed => {
            tell(rt, world, "refused EtcdMalformed");
            ExitCode::from(1)
        }
        End::NoFolder => refuse_words_of(rt, world, "refused NoFolder"),
        End::NoNames => refuse_words_of(rt, world, "refused NoNames"),
        End::NameLost => ExitCode::from(1),
    }
}

/// Prints what else there is to say of a refusal.
fn tell_more<R: Eprint>(rt: &R, world: Option<&WorldName>, end: &End) {
    match end {
        End::Instance(_, line) => tell(rt, world, instance_words(*line).as_str()),
        End::InDoubt => tell(
            rt,
            world,
            "the log is in doubt: start the host again with --log",
        ),
        End::NoSnapshot => tell(
            rt,
            world,
            "the snapshot at the base of the log has to be next to it, as NAME.N.x3dw or x3d/NAME/snapshot",
        ),
        End::Log(LogFault::HasBase(_)) => tell(
            rt,
            world,
            "a log with a base has only the inputs after it, and takes a host with keys",
        ),
        End::KeyFileShared => tell(rt, world, "others may use the file of keys: chmod 600 it"),
        End::LoginFile => tell(
            rt,
            world,
            "the file of --login has a user and a password, a line each",
        ),
        End::EtcdSilent => tell(
            rt,
            world,
            "no etcd at the addresses of --etcd answers, or it refuses the user",
        ),
        End::EtcdMalformed => tell(rt, world, "what etcd has of this world is not a log"),
        End::NoWorldName => tell(
            rt,
            world,
            "up to 64 letters, digits, '-', '_' and '.' name a world",
        ),
        _ => {}
    }
}

/// Prints the line of a refusal on standard error, and a second one where there is more to say,
/// each after the name of the world that it is about. Returns its status.
fn refuse_in<R: Eprint>(rt: &R, world: Option<&WorldName>, end: &End) -> ExitCode {
    let status = refuse_by_name(rt, world, end);
    tell_more(rt, world, end);
    status
}

/// Prints the line of a refusal on standard error, and a second one where there is more to say.
/// Returns its status.
pub fn refuse<R: Eprint>(rt: &R, end: &End) -> ExitCode {
    refuse_in(rt, None, end)
}

/// Prints why a world isn't served, in the same words after its name.
pub fn tell_refused<R: Eprint>(rt: &R, name: &WorldName, end: &End) {
    let _status = refuse_in(rt, Some(name), end);
}

/// How many inputs the log of a world has, in words.
#[derive(Drop)]
struct Opened(u64);

impl fmt::Display for Opened {
    fn fmt<W: fmt::Write>(&self, f: &mut fmt::Formatter<W>) -> fmt::Result {
        write!(f, "{} inputs in the log", self.0)
    }
}

/// Prints how many inputs a world has that was opened.
pub fn tell_opened<R: Eprint>(rt: &R, name: &WorldName, inputs: u64) {
    tell(rt, Some(name), Opened(inputs));
}

/// That the log of a world was given a base, or not, in words.
#[derive(Drop)]
struct Based(Option<u64>);

impl fmt::Display for Based {
    fn fmt<W: fmt::Write>(&self, f: &mut fmt::Formatter<W>) -> fmt::Result {
        match self.0 {
            Some(number) => write!(f, "a base at input {number}"),
            None => f.write_str("no base could be made"),
        }
    }
}

/// Prints the number of the last input below a base that the log of a world was given, or that none
/// could be made.
pub fn tell_based<R: Eprint>(rt: &R, name: &WorldName, number: Option<u64>) {
    tell(rt, Some(name), Based(number));
}

/// That a world was closed, and how many of its datagrams were lost for lack of room, in words.
#[derive(Drop)]
struct Closed(u64);

impl fmt::Display for Closed {
    fn fmt<W: fmt::Write>(&self, f: &mut fmt::Formatter<W>) -> fmt::Result {
        if self.0 == 0 {
            f.write_str("closed")
        } else {
            write!(f, "closed, {} datagrams lost for lack of room", self.0)
        }
    }
}

/// Prints that a world was closed, and how many of its datagrams were lost, if some were.
pub fn tell_closed<R: Eprint>(rt: &R, name: &WorldName, lost: u64) {
    tell(rt, Some(name), Closed(lost));
}

/// The port that a socket is bound to, in words.
#[derive(Drop)]
struct BoundAt(u16);

impl fmt::Display for BoundAt {
    fn fmt<W: fmt::Write>(&self, f: &mut fmt::Formatter<W>) -> fmt::Result {
        write!(f, "bound to port {}", self.0)
    }
}

/// Prints the port that a socket is bound to.
pub fn tell_bound<R: Eprint>(rt: &R, port: u16) {
    tell(rt, None, BoundAt(port));
}
