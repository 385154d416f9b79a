//! The program: its words, its input, and what it prints.
#![tactic(auto)]

mod addresses;
mod defaults;
mod doors;
mod ends;
mod etcd;
mod host_job;
mod hosts;
mod logs;
mod meets;
mod parts;
mod peers;
mod reached;
mod refused;
mod seated;
mod serving;
mod stack;
mod turns;
mod viewer;

ghost use Rattle.app_words.specs.Words.{HostInRange, IsInRange, ViewInRange};

use crate::doors::HostTexts;
use crate::etcd::{EtcdTexts, host_over_etcd};
use crate::hosts::host;
use crate::logs::{host_over_log, recall, recall_into};
use crate::parts::part;
use crate::peers::{agree, rehearse};
use crate::refused::{refused_job, refused_scene};
use crate::serving::{ServeTexts, serve_folder};
use crate::stack::has_room;
use crate::viewer::{ViewTexts, view};
use app_program::{
    Failure, RunFault, RunOutput, StreamFault, check_text, format_text, read_whole, run_job,
    write_whole,
};
use app_serve::{End, make_keys, refuse};
use app_words::{
    HostOrder, LogUse, Order, OrderFault, Request, ServeOrder, ViewOrder, hint_of, request_of,
    text_of,
};
use std::alloc::{AllocError, Global};
use std::io::{self, Eprint};
use std::process::ExitCode;
use std::rt::Env;

/// Returns the program's own name and its words.
fn own_words<R: Env + AllocGlobal>(rt: &R) -> Result<Vec<String>, OrderFault> {
    let words = std::env::args(rt)?;
    words.collect(rt.alloc()).map_err(|_| OrderFault::Memory)
}

fn views<'a>(alloc: Global, words: &'a [String]) -> Result<Vec<&'a str>, AllocError> {
    words.iter().map(|word| word.as_str()).collect(alloc)
}

/// Returns a fault of a stream as a failure of the run.
fn stream_failure(fault: StreamFault) -> Failure {
    Failure::Run(RunFault::from(fault))
}

/// Reads the input whole: what is refused is read once more.
fn read_own<R: AllocGlobal + Input>(rt: &R) -> Result<Vec<u8>, Failure> {
    read_whole(rt.alloc(), &mut rt.reader()).map_err(stream_failure)
}

/// Reads a job, runs it with boxes of the stock, and prints the trace and the scene, or the scene
/// alone.
fn run_own<R: AllocGlobal + Input + Print>(rt: &R, output: RunOutput) -> Result<(), End> {
    let job = read_own(rt)?;
    let mut reader = job.as_slice();
    match run_job(rt.alloc(), output, &mut reader, &mut io::writer(rt)) {
        Ok(()) => Ok(()),
        Err(failure) => Err(refused_job(rt.alloc(), failure, job.as_slice())),
    }
}

/// Reads a scene and prints its text.
fn format_scene<R: AllocGlobal + Input + Print>(rt: &R) -> Result<(), Failure> {
    format_text(rt.alloc(), &mut rt.reader(), &mut io::writer(rt))?;
    Ok(())
}

/// Reads a scene and prints how many nodes and routes it has.
fn check_scene<R: AllocGlobal + Input + Print>(rt: &R) -> Result<(), End> {
    let scene = read_own(rt)?;
    let mut reader = scene.as_slice();
    match check_text(rt.alloc(), &mut reader, &mut io::writer(rt)) {
        Ok(()) => Ok(()),
        Err(fault) => {
            let failure = Failure::Job(fault);
            Err(refused_scene(rt.alloc(), failure, scene.as_slice()))
        }
    }
}

/// Prints a text of help.
fn print_text<R: Print>(rt: &R, text: &str) -> Result<(), Failure> {
    write_whole(&mut io::writer(rt), text.as_bytes()).map_err(stream_failure)
}

/// Returns the file of the log that the words name, if they name one.
fn log_file<'a>(
    alloc: Global,
    words: &'a [&'a str],
    log: LogUse,
) -> Result<Option<&'a str>, OrderFault> {
    match log {
        LogUse::Without | LogUse::Shares => Ok(None),
        LogUse::GoesOn => text_of(alloc, words, "log"),
        LogUse::Makes => text_of(alloc, words, "new-log"),
    }
}

/// Runs a host, over the log that the words name if they name one.
fn host_as(rt: &HostRuntime, words: &[&str], order: &Order, asked: &HostOrder) -> Result<(), End>
    requires { HostInRange asked.now }
{
    let texts = HostTexts {
        listen: text_of(rt.alloc(), words, "listen")?,
        keys: text_of(rt.alloc(), words, "keys")?,
    };
    if asked.log == LogUse::Shares {
        let etcd = EtcdTexts {
            etcd: text_of(rt.alloc(), words, "etcd")?,
            world: text_of(rt.alloc(), words, "world")?,
            login: text_of(rt.alloc(), words, "login")?,
        };
        return host_over_etcd(rt, order, asked, &texts, &etcd);
    }
    match log_file(rt.alloc(), words, asked.log)? {
        Some(file) => host_over_log(rt, order, asked, &texts, file),
        None => host(rt, order, asked, &texts),
    }
}

/// Runs a viewer.
fn view_as(rt: &HostRuntime, words: &[&str], order: &Order, asked: &ViewOrder) -> Result<(), End>
    requires { ViewInRange asked.now }
{
    let texts = ViewTexts {
        host: text_of(rt.alloc(), words, "host")?,
        key: text_of(rt.alloc(), words, "key")?,
        world: text_of(rt.alloc(), words, "world")?,
    };
    view(rt, order, asked, &texts)
}

/// Serves the worlds of the folder that the words name.
fn serve_as(rt: &HostRuntime, words: &[&str], asked: &ServeOrder) -> Result<(), End> {
    let Some(folder) = text_of(rt.alloc(), words, "folder")? else {
        return Err(End::from(OrderFault::Words));
    };
    let texts = ServeTexts {
        listen: text_of(rt.alloc(), words, "listen")?,
        etcd: text_of(rt.alloc(), words, "etcd")?,
        login: text_of(rt.alloc(), words, "login")?,
    };
    serve_folder(rt, folder, &texts, asked)
}

/// Makes a log of the inputs of another in the file that the words name.
fn recall_as(rt: &HostRuntime, words: &[&str], until: Option<u64>) -> Result<(), End> {
    match text_of(rt.alloc(), words, "new-log")? {
        Some(file) => recall_into(rt, until, file),
        None => Err(End::from(OrderFault::Words)),
    }
}

/// Makes the files of keys in the folder that the words name.
fn key_as(rt: &HostRuntime, words: &[&str], viewers: u8) -> Result<(), End> {
    match text_of(rt.alloc(), words, "folder")? {
        Some(folder) => make_keys(rt, viewers, folder),
        None => Err(End::from(OrderFault::Words)),
    }
}

/// Carries out a command. The words are those that ask for it.
fn obey(rt: &HostRuntime, words: &[&str], order: Order) -> Result<(), End>
    requires { IsInRange order }
{
    match order {
        Order::Run { no_trace } => run_own(rt, RunOutput::without(no_trace))?,
        Order::Format => format_scene(rt)?,
        Order::Check => check_scene(rt)?,
        Order::Rehearse { viewers } => rehearse(rt, viewers)?,
        Order::Agree { viewers, turns } => agree(rt, &order, viewers, turns)?,
        Order::Host(asked) => host_as(rt, words, &order, &asked)?,
        Order::View(asked) => view_as(rt, words, &order, &asked)?,
        Order::Serve(asked) => serve_as(rt, words, &asked)?,
        Order::Recall {
            until,
            info: _,
            makes: true,
        } => recall_as(rt, words, until)?,
        Order::Recall { until, info, .. } => recall(rt, until, info)?,
        Order::Part { list } => part(rt, list, text_of(rt.alloc(), words, "keep-names")?)?,
        Order::Key { viewers } => key_as(rt, words, viewers)?,
    }
    Ok(())
}

/// Prints the text that words ask for, or carries out their command.
fn answer(rt: &HostRuntime, words: &[&str]) -> Result<(), End> {
    match request_of(rt.alloc(), words)? {
        Request::Text(text) => Ok(print_text(rt, text.as_str())?),
        Request::Order(order) => obey(rt, words, order),
    }
}

fn answer_own(rt: &HostRuntime, own: &[String]) -> Result<(), End> {
    let Ok(words) = views(rt.alloc(), own) else {
        return Err(End::from(OrderFault::Memory));
    };
    answer(rt, words.as_slice())
}

fn work(rt: &HostRuntime) -> Result<(), End> {
    let own = own_words(rt)?;
    if !has_room(own.len()) {
        return Err(End::from(OrderFault::Memory));
    }
    answer_own(rt, own.as_slice())
}

/// Returns what is wrong with the process's own words, in one line.
fn own_hint<R: Env + AllocGlobal>(rt: &R) -> Result<String, OrderFault> {
    let own = own_words(rt)?;
    let Ok(words) = views(rt.alloc(), own.as_slice()) else {
        return Err(OrderFault::Memory);
    };
    hint_of(rt.alloc(), words.as_slice())
}

/// Like `refuse`, for words. A second line says which word is wrong, and what is required.
fn refuse_words<R: Env + AllocGlobal + Eprint>(rt: &R) -> ExitCode {
    let words = End::from(OrderFault::Words);
    match own_hint(rt) {
        Ok(hint) => {
            let status = refuse(rt, &words);
            let _told = rt.eprintln(hint.as_str());
            status
        }
        Err(OrderFault::Words) => {
            let status = refuse(rt, &words);
            let _told = rt.eprintln("a word is not UTF-8");
            status
        }
        Err(OrderFault::Memory) => refuse(rt, &End::from(OrderFault::Memory)),
    }
}

fn main(rt: HostRuntime) -> ExitCode {
    match work(&rt) {
        Ok(()) => ExitCode::SUCCESS,
        Err(End::Failure(Failure::Order(OrderFault::Words))) => refuse_words(&rt),
        Err(end) => refuse(&rt, &end),
    }
}
