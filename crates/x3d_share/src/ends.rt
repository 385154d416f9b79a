//! What a host and a viewer report on standard error if they are verbose.

use app_commands::Counts;
use app_program::ShareFault;
use std::fmt;
use std::io::Eprint;

/// The port that a node is bound to, in words.
#[derive(Drop)]
struct BoundAt(u16);

impl fmt::Display for BoundAt {
    fn fmt<W: fmt::Write>(&self, f: &mut fmt::Formatter<W>) -> fmt::Result {
        write!(f, "bound to port {}", self.0)
    }
}

/// What a host's log has as the host begins, in words.
#[derive(Drop)]
struct LogBegin {
    inputs: u64,
    clocks: usize,
}

impl fmt::Display for LogBegin {
    fn fmt<W: fmt::Write>(&self, f: &mut fmt::Formatter<W>) -> fmt::Result {
        write!(
            f,
            "{} inputs in the log, {} clocks left",
            self.inputs, self.clocks
        )
    }
}

/// How much was cut of a log's file, in words.
#[derive(Drop)]
struct LogCut(u64);

impl fmt::Display for LogCut {
    fn fmt<W: fmt::Write>(&self, f: &mut fmt::Formatter<W>) -> fmt::Result {
        write!(f, "cut {} bytes of an append that was not finished", self.0)
    }
}

/// Reports on standard error what was cut of a log's file, and if `verbose` is set, how many inputs
/// it has and how many clocks of the job are left.
pub fn tell_log<R: Eprint>(rt: &R, verbose: bool, inputs: u64, cut: u64, clocks: usize) {
    if cut > 0 {
        let _told = rt.eprintln(LogCut(cut));
    }
    if verbose {
        let _told = rt.eprintln(LogBegin { inputs, clocks });
    }
}

/// The result of a host's run, in words.
#[derive(Drop)]
struct HostEnd {
    inputs: u64,
    dropped: u64,
    counts: Counts,
}

impl fmt::Display for HostEnd {
    fn fmt<W: fmt::Write>(&self, f: &mut fmt::Formatter<W>) -> fmt::Result {
        write!(
            f,
            "{} inputs numbered, {} clocks dropped, {}",
            self.inputs, self.dropped, self.counts
        )
    }
}

/// The result of a viewer's run, in words.
#[derive(Drop)]
struct ViewEnd {
    inputs: u64,
    counts: Counts,
}

impl fmt::Display for ViewEnd {
    fn fmt<W: fmt::Write>(&self, f: &mut fmt::Formatter<W>) -> fmt::Result {
        write!(f, "{} inputs applied, {}", self.inputs, self.counts)
    }
}

/// Reports the port that a socket is bound to on standard error if `verbose` is set. A standard
/// error that fails doesn't affect the run.
pub fn tell_port<R: Eprint>(rt: &R, verbose: bool, port: Result<u16, ShareFault>) {
    if verbose && let Ok(number) = port {
        let _told = rt.eprintln(BoundAt(number));
    }
}

/// Returns how many of a host's clocks were dropped: the clocks that its turns had, less those that
/// became inputs. The inputs that aren't clocks are the points that it numbered.
fn dropped(clocks: usize, inputs: u64, counts: &Counts) -> u64 {
    let handed = counts.turns.min(clocks as u64);
    handed.saturating_sub(inputs.saturating_sub(counts.points))
}

/// Reports the result of a host's run with this many clocks, if `verbose` is set.
pub fn tell_host_end<R: Eprint>(rt: &R, verbose: bool, clocks: usize, inputs: u64, counts: Counts) {
    if verbose {
        let dropped = dropped(clocks, inputs, &counts);
        let _told = rt.eprintln(HostEnd {
            inputs,
            dropped,
            counts,
        });
    }
}

/// How many datagrams of other runs came, in words.
#[derive(Drop)]
struct OthersCame(u64);

impl fmt::Display for OthersCame {
    fn fmt<W: fmt::Write>(&self, f: &mut fmt::Formatter<W>) -> fmt::Result {
        write!(f, "{} datagrams of other runs dropped", self.0)
    }
}

/// Reports how many datagrams of other runs came to a viewer, if `verbose` is set and some did.
pub fn tell_others<R: Eprint>(rt: &R, verbose: bool, others: u64) {
    if verbose && others > 0 {
        let _told = rt.eprintln(OthersCame(others));
    }
}

/// How many datagrams without a right seal came, in words.
#[derive(Drop)]
struct UnsealedCame(u64);

impl fmt::Display for UnsealedCame {
    fn fmt<W: fmt::Write>(&self, f: &mut fmt::Formatter<W>) -> fmt::Result {
        write!(f, "{} datagrams without a right seal dropped", self.0)
    }
}

/// Reports how many datagrams without a right seal came, if `verbose` is set and some did.
pub fn tell_unsealed<R: Eprint>(rt: &R, verbose: bool, unsealed: u64) {
    if verbose && unsealed > 0 {
        let _told = rt.eprintln(UnsealedCame(unsealed));
    }
}

/// How many datagrams of strangers, or beyond a viewer's limits, came, in words.
#[derive(Drop)]
struct StrangeCame(u64);

impl fmt::Display for StrangeCame {
    fn fmt<W: fmt::Write>(&self, f: &mut fmt::Formatter<W>) -> fmt::Result {
        write!(
            f,
            "{} datagrams of strangers or beyond limits dropped",
            self.0
        )
    }
}

/// Reports how many datagrams of strangers, or beyond a viewer's limits, came, if `verbose` is set
/// and some did.
pub fn tell_strange<R: Eprint>(rt: &R, verbose: bool, strange: u64) {
    if verbose && strange > 0 {
        let _told = rt.eprintln(StrangeCame(strange));
    }
}

/// Reports the result of a viewer's run, if `verbose` is set.
pub fn tell_view_end<R: Eprint>(rt: &R, verbose: bool, inputs: u64, counts: Counts) {
    if verbose {
        let _told = rt.eprintln(ViewEnd { inputs, counts });
    }
}

/// How many inputs the world has that a host keeps, in words.
#[derive(Drop)]
struct KeptWorld(u64);

impl fmt::Display for KeptWorld {
    fn fmt<W: fmt::Write>(&self, f: &mut fmt::Formatter<W>) -> fmt::Result {
        write!(f, "keeps its world, of {} inputs", self.0)
    }
}

/// Reports how many inputs the world has that a host keeps, if `verbose` is set.
pub fn tell_kept<R: Eprint>(rt: &R, verbose: bool, inputs: u64) {
    if verbose {
        let _told = rt.eprintln(KeptWorld(inputs));
    }
}

/// At how many rests a host gave less of its world, in words.
#[derive(Drop)]
struct GaveLess(u64);

impl fmt::Display for GaveLess {
    fn fmt<W: fmt::Write>(&self, f: &mut fmt::Formatter<W>) -> fmt::Result {
        write!(
            f,
            "gave less of its world {} times, as a send failed",
            self.0
        )
    }
}

/// Reports at how many rests a host gave less of its world, if `verbose` is set and it did.
pub fn tell_cut_short<R: Eprint>(rt: &R, verbose: bool, rests: u64) {
    if verbose && rests > 0 {
        let _told = rt.eprintln(GaveLess(rests));
    }
}
