//! The options of `host` and `serve` alone, with their ranges.

use crate::options::{High, NumberOption, TextOption, Unless};
use x3d_values::MAX_VIEWERS;

pub const LISTEN: TextOption = TextOption {
    name: "listen",
    is_word: false,
    value: "ADDRESS:PORT",
    help: "Binds this address and UDP port instead, as 192.0.2.7:4000 or [2001:db8::7]:4000",
};

pub const KEYS: TextOption = TextOption {
    name: "keys",
    is_word: false,
    value: "FILE",
    help: "Serves the viewers that have a key of FILE, and no others",
};

/// The option `--viewers` of `host`.
pub const HOST_VIEWERS: NumberOption = NumberOption {
    name: "viewers",
    low: 1,
    high: High::Number(MAX_VIEWERS as u32),
    unless: Unless::Nothing,
    value: "K",
    help: "How many viewers, 1 to 64 [default: 2, or with --log those of the log]",
};

/// The option `--turns` of `host`.
pub const HOST_TURNS: NumberOption = NumberOption {
    name: "turns",
    low: 1,
    high: High::Number(10_000_000),
    unless: Unless::Nothing,
    value: "T",
    help: "How many turns at most, 1 to 10000000 [default: 1000000, or with a log no end]",
};

pub const LOG: TextOption = TextOption {
    name: "log",
    is_word: false,
    value: "FILE",
    help: "Goes on with the log of FILE",
};

pub const NEW_LOG: TextOption = TextOption {
    name: "new-log",
    is_word: false,
    value: "FILE",
    help: "Makes a log in FILE, which is missing or empty",
};

pub const ETCD: TextOption = TextOption {
    name: "etcd",
    is_word: false,
    value: "ADDRESS:PORT[,..]",
    help: "Shares the log that etcd, at these addresses, has of a world; makes it if there is none",
};

/// The option `--world` of `host`.
pub const SHARED_WORLD: TextOption = TextOption {
    name: "world",
    is_word: false,
    value: "NAME",
    help: "The name of the world whose log etcd has",
};

pub const LOGIN: TextOption = TextOption {
    name: "login",
    is_word: false,
    value: "FILE",
    help: "Logs in to etcd with the user and the password of FILE, a line each",
};

pub const STANDBY: NumberOption = NumberOption {
    name: "standby",
    low: 1,
    high: High::Number(3_600),
    unless: Unless::Nothing,
    value: "SECONDS",
    help: "With --etcd, makes clocks once no other host has made an input for so long, 1 to 3600",
};

pub const KEEP: NumberOption = NumberOption {
    name: "keep",
    low: 0,
    high: High::Inputs,
    unless: Unless::Nothing,
    value: "N",
    help: "Keeps the last N of the inputs that all viewers have, 0 to 281474976710655 [default: all]",
};

/// The option `--forget` of `host`.
pub const HOST_FORGET: NumberOption = NumberOption {
    name: "forget",
    low: 0,
    high: High::Inputs,
    unless: Unless::Nothing,
    value: "N",
    help: "With --keys, keeps the trace of the last N inputs, 0 to 281474976710655 [default: all]",
};

pub const EVERY: NumberOption = NumberOption {
    name: "every",
    low: 1,
    high: High::Number(3_600_000),
    unless: Unless::Nothing,
    value: "MS",
    help: "With a log, makes a clock every MS milliseconds after the job's, 1 to 3600000",
};

/// The option `--until` of `host`.
pub const HOST_UNTIL: NumberOption = NumberOption {
    name: "until",
    low: 0,
    high: High::Inputs,
    unless: Unless::Nothing,
    value: "N",
    help: "Ends once N inputs are numbered and each viewer has them, 0 to 281474976710655",
};

/// The folder of `serve`.
pub const WORLDS: TextOption = TextOption {
    name: "folder",
    is_word: true,
    value: "FOLDER",
    help: "Where the jobs, the logs and the keys of the worlds are",
};

/// The option `--viewers` of `serve`.
pub const WORLD_VIEWERS: NumberOption = NumberOption {
    name: "viewers",
    low: 1,
    high: High::Number(MAX_VIEWERS as u32),
    unless: Unless::Nothing,
    value: "K",
    help: "How many viewers a new world has, 1 to 64 [default: 2]",
};

/// The option `--every` of `serve`.
pub const WORLD_EVERY: NumberOption = NumberOption {
    name: "every",
    low: 1,
    high: High::Number(3_600_000),
    unless: Unless::Nothing,
    value: "MS",
    help: "Makes a clock in each world every MS milliseconds after its job's, 1 to 3600000",
};

/// The option `--forget` of `serve`.
pub const WORLD_FORGET: NumberOption = NumberOption {
    name: "forget",
    low: 0,
    high: High::Inputs,
    unless: Unless::Nothing,
    value: "N",
    help: "Keeps the trace of the last N inputs of each world, 0 to 281474976710655 [default: all]",
};

/// The option `--base` of `serve`.
pub const WORLD_BASE: NumberOption = NumberOption {
    name: "base",
    low: 100,
    high: High::Inputs,
    unless: Unless::Nothing,
    value: "N",
    help: "Keeps the last N to 2N inputs in a log with keys, 100 to 281474976710655 [default: all]",
};

/// The option `--etcd` of `serve`.
pub const WORLD_ETCD: TextOption = TextOption {
    name: "etcd",
    is_word: false,
    value: "ADDRESS:PORT[,..]",
    help: "Shares the logs that etcd, at these addresses, has of the worlds; makes those it lacks",
};
