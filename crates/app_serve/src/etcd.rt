//! etcd, which the worlds of a process ask one after another.

use crate::end::End;
use crate::key_files::login_bytes;
use crate::places::addresses_at;
use crate::telling::tell_etcd;
use app_logs::LogFault;
use app_words::OrderFault;
use share_engine::{Engine, EngineFault, WorldFault};
use share_http::{EtcdEngine, Login, login_of};
use std::cell::RefCell;
use std::time::Clock;

/// For this many milliseconds after a request without an answer nothing is asked.
const PAUSE: u64 = 1_000;

/// etcd over one connection, when it may be asked, and whether it answered last.
#[derive(Drop)]
pub struct Etcd<'r> {
    rt: &'r HostRuntime,
    engine: EtcdEngine<'r>,
    /// Reports on standard error that it went silent, and that it answers again.
    verbose: bool,
    answers: bool,
    /// Nothing is asked before this time of the clock, in milliseconds.
    opens: u64,
}

/// The way of a world to etcd, which others have too.
#[derive(Clone, Copy)]
pub struct EtcdWay<'e, 'r> {
    etcd: &'e RefCell<Etcd<'r>>,
}

/// Returns the time of the clock in milliseconds, or `last` if it fails.
pub fn millis_now(rt: &HostRuntime, last: u64) -> u64 {
    match rt.monotonic() {
        Ok(time) => u64::try_from(time.as_millis()).unwrap_or(last),
        Err(_) => last,
    }
}

/// Returns a time, if it is later than `now`.
fn later_than(now: u64, time: u64) -> Option<u64> {
    if now < time { Some(time) } else { None }
}

/// Returns why a world isn't opened that etcd has.
pub fn world_end(fault: WorldFault) -> End {
    match fault {
        WorldFault::Silent => End::EtcdSilent,
        WorldFault::Malformed => End::EtcdMalformed,
        WorldFault::BadHead => End::Log(LogFault::BadHead),
        WorldFault::WrongScene => End::Log(LogFault::WrongScene),
        WorldFault::WrongSeats => End::Log(LogFault::WrongSeats),
        WorldFault::Damaged(number) => End::Log(LogFault::LogDamaged(number)),
        WorldFault::Memory => End::Log(LogFault::Memory),
    }
}

/// Returns the login of a file, if one is named. Fails as `login_bytes` does, or with `LoginFile`.
fn login_in(rt: &HostRuntime, file: Option<&str>) -> Result<Option<Login>, End> {
    let Some(file) = file else {
        return Ok(None);
    };
    let bytes = login_bytes(rt, file)?;
    match login_of(rt.alloc(), bytes.as_slice()) {
        Ok(Some(login)) => Ok(Some(login)),
        Ok(None) => Err(End::LoginFile),
        Err(_refused) => Err(End::from(OrderFault::Memory)),
    }
}

/// Returns etcd at the addresses of the text of `--etcd`, with the login of a file if one is named.
/// Nothing is sent.
///
/// Fails with `NoAddress`, with what is wrong with the file of the login (`KeyFileOpen`,
/// `KeyFileShared` or `LoginFile`), with `EtcdSilent` if the system lets nothing be waited for, or
/// with `Memory`.
pub fn etcd_at<'r>(
    rt: &'r HostRuntime,
    text: &str,
    login: Option<&str>,
) -> Result<EtcdEngine<'r>, End> {
    let addresses = addresses_at(rt, rt.alloc(), text)?;
    let login = login_in(rt, login)?;
    match EtcdEngine::new(rt, rt.alloc(), &addresses, login) {
        Ok(etcd) => Ok(etcd),
        Err(EngineFault::Silent) => Err(End::EtcdSilent),
        Err(EngineFault::Memory) => Err(End::from(OrderFault::Memory)),
    }
}

impl<'r> Etcd<'r> {
    /// Returns etcd for the worlds of a process. Nothing was asked yet. If `verbose` is set it is
    /// reported on standard error that etcd went silent, and that it answers again.
    pub fn new(rt: &'r HostRuntime, engine: EtcdEngine<'r>, verbose: bool) -> Etcd<'r> {
        Etcd {
            rt,
            engine,
            verbose,
            answers: true,
            opens: 0,
        }
    }

    /// Notes whether an answer came.
    fn note(&mut self, answers: bool) {
        if self.verbose && answers != self.answers {
            tell_etcd(self.rt, answers);
        }
        self.answers = answers;
    }

    /// Has nothing asked for a while.
    fn pause(&mut self) {
        self.opens = millis_now(self.rt, self.opens).saturating_add(PAUSE);
    }

    /// Asks for a transaction, and notes whether an answer came.
    fn ask(&mut self, body: &[u8], into: &mut Vec<u8>) -> Result<(), EngineFault> {
        match self.engine.ask(body, into) {
            Err(EngineFault::Silent) => {
                self.note(false);
                self.pause();
                Err(EngineFault::Silent)
            }
            Err(EngineFault::Memory) => Err(EngineFault::Memory),
            Ok(()) => {
                self.note(true);
                Ok(())
            }
        }
    }
}

impl<'e, 'r> EtcdWay<'e, 'r> {
    /// Returns a way to etcd.
    pub fn new(etcd: &'e RefCell<Etcd<'r>>) -> EtcdWay<'e, 'r> {
        EtcdWay { etcd }
    }

    /// Returns when etcd may be asked again, in milliseconds of the clock, if that is after `now`.
    pub fn opens(&self, now: u64) -> Option<u64> {
        let Ok(etcd) = self.etcd.try_borrow() else {
            return None;
        };
        later_than(now, etcd.opens)
    }

    /// Reports whether etcd didn't answer a short while ago, so that it isn't asked.
    pub fn is_shut(&self, now: u64) -> bool {
        self.opens(now).is_some()
    }

    /// Has nothing asked for a while.
    pub fn pause(&self) {
        if let Ok(mut etcd) = self.etcd.try_borrow_mut() {
            etcd.pause();
        }
    }
}

impl Engine for EtcdWay<'_, '_> {
    fn ask(&mut self, body: &[u8], into: &mut Vec<u8>) -> Result<(), EngineFault> {
        match self.etcd.try_borrow_mut() {
            Ok(mut etcd) => etcd.ask(body, into),
            Err(_) => Err(EngineFault::Memory),
        }
    }
}
