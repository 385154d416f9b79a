//! The options of `view` alone, with their ranges and defaults.

use crate::options::{FlagOption, High, MAX_WHO, NumberOption, TextOption, Unless};

/// The option `--host` of `view`.
pub const HOST: TextOption = TextOption {
    name: "host",
    is_word: false,
    value: "ADDRESS:PORT[,..]",
    help: "The host's address and UDP port instead, or those of several hosts that share a log",
};

/// The option `--key` of `view`.
pub const KEY: TextOption = TextOption {
    name: "key",
    is_word: false,
    value: "FILE",
    help: "Has the key of FILE, and takes what a host with this key sends",
};

/// The option `--world` of `view`.
pub const WORLD: TextOption = TextOption {
    name: "world",
    is_word: false,
    value: "NAME",
    help: "The name of the world, at a host that serves many",
};

pub const WHO: NumberOption = NumberOption {
    name: "who",
    low: 0,
    high: High::Number(MAX_WHO),
    unless: Unless::Refused,
    value: "V",
    help: "Which viewer this is, 0 to 63",
};

pub const BOOT: NumberOption = NumberOption {
    name: "boot",
    low: 1,
    high: High::Number(u32::MAX),
    unless: Unless::Nothing,
    value: "B",
    help: "Which start of this viewer this is, 1 to 4294967295 [default: one that works]",
};

/// The option `--until` of `view`.
pub const VIEW_UNTIL: NumberOption = NumberOption {
    name: "until",
    low: 0,
    high: High::Inputs,
    unless: Unless::Nothing,
    value: "N",
    help: "Ends once at least N inputs are applied, 0 to 281474976710655",
};

pub const EXACTLY: NumberOption = NumberOption {
    name: "exactly",
    low: 0,
    high: High::Inputs,
    unless: Unless::Nothing,
    value: "N",
    help: "Ends once N inputs are applied, and ignores later ones, 0 to 281474976710655",
};

pub const AT: NumberOption = NumberOption {
    name: "at",
    low: 1,
    high: High::Number(65535),
    unless: Unless::Nothing,
    value: "Q",
    help: "This viewer's own UDP port, 1 to 65535 [default: a free one]",
};

pub const GIVE: NumberOption = NumberOption {
    name: "give",
    low: 1,
    high: High::Number(65535),
    unless: Unless::Nothing,
    value: "Q",
    help: "Sends its snapshot to port Q once its texts are printed, 1 to 65535",
};

pub const GIVE_TURNS: NumberOption = NumberOption {
    name: "give-turns",
    low: 1,
    high: High::Number(u32::MAX),
    unless: Unless::Has("1000000"),
    value: "T",
    help: "How many turns it gives, 1 to 4294967295",
};

pub const WIRE: NumberOption = NumberOption {
    name: "wire",
    low: 1,
    high: High::Number(2),
    unless: Unless::Nothing,
    value: "VERSION",
    help: "The version of datagrams, 1 or 2 [default: 2, or else 1]",
};

pub const JOIN: FlagOption = FlagOption {
    name: "join",
    letter: None,
    help: "Starts from the snapshot that another viewer, or with --key the host, sends to its port",
};

/// The option `--forget` of `view`.
pub const VIEW_FORGET: NumberOption = NumberOption {
    name: "forget",
    low: 0,
    high: High::Inputs,
    unless: Unless::Nothing,
    value: "N",
    help: "Keeps the trace of the last N inputs, 0 to 281474976710655 [default: all]",
};
