//! Options of `view`, `host`, `serve` and `recall` that don't go together.

ghost use Rattle.std.specs.Prelude.{◌≡◌};
ghost use Rattle.app_words.specs.Misfits.{at_misfit, every_misfit, give_misfit, given_misfit};
ghost use Rattle.app_words.specs.Misfits.{first_misfit, forget_misfit, has_log};
ghost use Rattle.app_words.specs.Misfits.{host_misfit};
ghost use Rattle.app_words.specs.Misfits.{is_first_boot, is_shared, join_misfit, login_misfit};
ghost use Rattle.app_words.specs.Misfits.{misfit_of, open_misfit};
ghost use Rattle.app_words.specs.Misfits.{recall_misfit, sharing_misfit, unshared_misfit};
ghost use Rattle.app_words.specs.Misfits.{own_misfit, place_misfit, sealed_misfit, serve_misfit};
ghost use Rattle.app_words.specs.Misfits.{wire_misfit};

use crate::order::{HostOrder, LogUse, ServeOrder, ViewOrder};
use thiserror::Error;

/// Why the options of `view`, of `host`, of `serve` or of `recall` don't go together.
#[derive(Clone, Copy, Debug, PartialEq, Eq, Error)]
pub enum Misfit {
    /// `--until` and `--exactly` were both given, or neither.
    #[error("one of --until and --exactly is required, and not both")]
    End,
    /// A viewer joins in a boot that can't be above that of a snapshot.
    #[error("--join --boot 1: a boot above that of the viewer that gives, so at least 2")]
    FirstBoot,
    /// A viewer without a key joins, and no one knows its port.
    #[error("--join: --at Q is required, the port to which another viewer gives, or --key")]
    NoOwnPort,
    /// A viewer's own port is that of the host.
    #[error("--at {0}: a port other than the host's")]
    AtHost(u16),
    /// A viewer gives to the host.
    #[error("--give {0}: a port other than the host's")]
    GivesToHost(u16),
    /// A viewer gives to itself.
    #[error("--give {0}: a port other than this viewer's own")]
    GivesToItself(u16),
    /// `--port` and `--host` were both given, or neither.
    #[error("one of --port and --host is required, and not both")]
    TwoHosts,
    /// A viewer has a key, and goes to a host of whoever comes.
    #[error("one of --key and --open, and not both")]
    OpenWithKey,
    /// A viewer with a key is to give to another viewer.
    #[error("--key: not with --give, since another viewer has another key")]
    SealedGiving,
    /// A viewer with a key, of a host at an address, or of a world with a name, is to speak
    /// version 1.
    #[error("--wire 1: not with --key, --host or --world")]
    FirstWire,
    /// `--port` and `--listen` were both given, or neither.
    #[error("one of --port and --listen is required, and not both")]
    TwoPlaces,
    /// More than one of `--log`, `--new-log` and `--etcd` was given.
    #[error("one of --log, --new-log and --etcd")]
    TwoLogs,
    /// A host without a log is to make clocks.
    #[error("--every: only with --log, --new-log or --etcd")]
    EveryWithoutLog,
    /// No world is named whose log etcd has.
    #[error("--etcd: --world NAME is required")]
    EtcdWithoutWorld,
    /// A world is named, and its log isn't in etcd.
    #[error("--world: only with --etcd")]
    WorldWithoutEtcd,
    /// A host is to log in, and its log isn't in etcd; or `serve` is, and its logs aren't.
    #[error("--login: only with --etcd")]
    LoginWithoutEtcd,
    /// A host is to stand by, and its log isn't in etcd.
    #[error("--standby: only with --etcd")]
    StandbyWithoutEtcd,
    /// A host without keys, which keeps no world, is to keep some lines of its trace.
    #[error("--forget: only with --keys")]
    ForgetWithoutKeys,
    /// A host has keys, and serves whoever comes.
    #[error("one of --keys and --open, and not both")]
    OpenWithKeys,
    /// A log is to be made of inputs, and what it has is to be printed.
    #[error("one of --info and --new-log, and not both")]
    InfoOfNewLog,
}

fn place_misfit(why: Misfit, port: Option<u16>, has_address: bool) -> Option<Misfit>
    ensures { result ≡ place_misfit why port has_address }
{
    match (port, has_address) {
        (Some(_), true) | (None, false) => Some(why),
        (Some(_), false) | (None, true) => None,
    }
}

fn open_misfit(why: Misfit, has_keys: bool, is_open: bool) -> Option<Misfit>
    ensures { result ≡ open_misfit why has_keys is_open }
{
    if has_keys && is_open { Some(why) } else { None }
}

fn is_first_boot(boot: Option<u32>) -> bool
    ensures { result ≡ is_first_boot boot }
{
    match boot {
        Some(boot) => boot < 2,
        None => false,
    }
}

fn join_misfit(asked: &ViewOrder) -> Option<Misfit>
    ensures { result ≡ join_misfit asked.now }
{
    if !asked.join {
        None
    } else if is_first_boot(asked.boot) {
        Some(Misfit::FirstBoot)
    } else if !asked.has_key && asked.at.is_none() {
        Some(Misfit::NoOwnPort)
    } else {
        None
    }
}

fn at_misfit(asked: &ViewOrder) -> Option<Misfit>
    ensures { result ≡ at_misfit asked.now.port asked.now.at }
{
    match (asked.port, asked.at) {
        (Some(port), Some(at)) if at == port => Some(Misfit::AtHost(at)),
        _ => None,
    }
}

fn own_misfit(at: Option<u16>, give: u16) -> Option<Misfit>
    ensures { result ≡ own_misfit at give }
{
    match at {
        Some(at) if at == give => Some(Misfit::GivesToItself(give)),
        _ => None,
    }
}

fn given_misfit(port: Option<u16>, at: Option<u16>, give: u16) -> Option<Misfit>
    ensures { result ≡ given_misfit port at give }
{
    match port {
        Some(port) if port == give => Some(Misfit::GivesToHost(give)),
        _ => own_misfit(at, give),
    }
}

fn give_misfit(asked: &ViewOrder) -> Option<Misfit>
    ensures { result ≡ give_misfit asked.now.port asked.now.at asked.now.give }
{
    match asked.give {
        Some(give) => given_misfit(asked.port, asked.at, give),
        None => None,
    }
}

fn first_misfit(wire: Option<u8>) -> Option<Misfit>
    ensures { result ≡ first_misfit wire }
{
    match wire {
        Some(version) if version == 1 => Some(Misfit::FirstWire),
        _ => None,
    }
}

fn wire_misfit(asked: &ViewOrder) -> Option<Misfit>
    ensures { result ≡ wire_misfit asked.now }
{
    if asked.has_key || asked.has_address || asked.has_world {
        first_misfit(asked.wire)
    } else {
        None
    }
}

fn sealed_misfit(asked: &ViewOrder) -> Option<Misfit>
    ensures { result ≡ sealed_misfit asked.now }
{
    if asked.has_key && asked.give.is_some() {
        Some(Misfit::SealedGiving)
    } else {
        None
    }
}

/// Returns the first reason why the options of `view` don't go together, if there is one. Each has
/// its range already.
pub(crate) fn misfit_of(asked: &ViewOrder) -> Option<Misfit>
    ensures { result ≡ misfit_of asked.now }
{
    if let Some(misfit) = place_misfit(Misfit::TwoHosts, asked.port, asked.has_address) {
        return Some(misfit);
    }
    if let Some(misfit) = join_misfit(asked) {
        return Some(misfit);
    }
    if let Some(misfit) = at_misfit(asked) {
        return Some(misfit);
    }
    if let Some(misfit) = give_misfit(asked) {
        return Some(misfit);
    }
    if let Some(misfit) = open_misfit(Misfit::OpenWithKey, asked.has_key, asked.is_open) {
        return Some(misfit);
    }
    if let Some(misfit) = sealed_misfit(asked) {
        return Some(misfit);
    }
    wire_misfit(asked)
}

fn has_log(log: LogUse) -> bool
    ensures { result ≡ has_log log }
{
    match log {
        LogUse::Without => false,
        LogUse::GoesOn => true,
        LogUse::Makes => true,
        LogUse::Shares => true,
    }
}

fn is_shared(log: LogUse) -> bool
    ensures { result ≡ is_shared log }
{
    match log {
        LogUse::Without => false,
        LogUse::GoesOn => false,
        LogUse::Makes => false,
        LogUse::Shares => true,
    }
}

fn every_misfit(asked: &HostOrder) -> Option<Misfit>
    ensures { result ≡ every_misfit asked.now }
{
    if !has_log(asked.log) && asked.every.is_some() {
        Some(Misfit::EveryWithoutLog)
    } else {
        None
    }
}

fn unshared_misfit(asked: &HostOrder) -> Option<Misfit>
    ensures { result ≡ unshared_misfit asked.now }
{
    if asked.has_world {
        Some(Misfit::WorldWithoutEtcd)
    } else if asked.has_login {
        Some(Misfit::LoginWithoutEtcd)
    } else if asked.standby.is_some() {
        Some(Misfit::StandbyWithoutEtcd)
    } else {
        None
    }
}

fn sharing_misfit(asked: &HostOrder) -> Option<Misfit>
    ensures { result ≡ sharing_misfit asked.now }
{
    if !is_shared(asked.log) {
        unshared_misfit(asked)
    } else if asked.has_world {
        None
    } else {
        Some(Misfit::EtcdWithoutWorld)
    }
}

fn forget_misfit(asked: &HostOrder) -> Option<Misfit>
    ensures { result ≡ forget_misfit asked.now }
{
    if !asked.has_keys && asked.forget.is_some() {
        Some(Misfit::ForgetWithoutKeys)
    } else {
        None
    }
}

/// Returns the first reason why the options of `host` don't go together, if there is one. Each has
/// its range already.
pub(crate) fn host_misfit(asked: &HostOrder) -> Option<Misfit>
    ensures { result ≡ host_misfit asked.now }
{
    if let Some(misfit) = place_misfit(Misfit::TwoPlaces, asked.port, asked.has_address) {
        return Some(misfit);
    }
    if let Some(misfit) = every_misfit(asked) {
        return Some(misfit);
    }
    if let Some(misfit) = sharing_misfit(asked) {
        return Some(misfit);
    }
    if let Some(misfit) = forget_misfit(asked) {
        return Some(misfit);
    }
    open_misfit(Misfit::OpenWithKeys, asked.has_keys, asked.is_open)
}

fn login_misfit(asked: &ServeOrder) -> Option<Misfit>
    ensures { result ≡ login_misfit asked.now }
{
    if asked.has_login && !asked.has_etcd {
        Some(Misfit::LoginWithoutEtcd)
    } else {
        None
    }
}

/// Returns the first reason why the options of `serve` don't go together, if there is one. Each has
/// its range already.
pub(crate) fn serve_misfit(asked: &ServeOrder) -> Option<Misfit>
    ensures { result ≡ serve_misfit asked.now }
{
    if let Some(misfit) = place_misfit(Misfit::TwoPlaces, asked.port, asked.has_address) {
        return Some(misfit);
    }
    login_misfit(asked)
}

/// Returns the reason why the options of `recall` don't go together, if there is one.
pub(crate) fn recall_misfit(info: bool, makes: bool) -> Option<Misfit>
    ensures { result ≡ recall_misfit info makes }
{
    if info && makes {
        Some(Misfit::InfoOfNewLog)
    } else {
        None
    }
}
