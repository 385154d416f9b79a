//! What an option is, and the options of several commands or of those of files, with their ranges
//! and defaults.

use x3d_values::{MAX_INPUTS, MAX_VIEWERS};

/// What the value of an option is if the option is not given.
#[derive(Clone, Copy)]
pub enum Unless {
    /// The option is required.
    Refused,
    /// The option has this number by default.
    Has(&'static str),
    /// The option has no number.
    Nothing,
}

/// The highest number of an option.
#[derive(Clone, Copy)]
pub enum High {
    /// This number.
    Number(u32),
    /// The most inputs that a world can have.
    Inputs,
}

/// An option that takes a number from `low` to `high`.
#[derive(Clone, Copy)]
pub struct NumberOption {
    pub name: &'static str,
    pub low: u32,
    pub high: High,
    pub unless: Unless,
    /// The name of the number in help.
    pub value: &'static str,
    pub help: &'static str,
}

/// An option that takes a text and may be left out, or a word that is required.
#[derive(Clone, Copy)]
pub struct TextOption {
    pub name: &'static str,
    /// It is a word of its own, without the option's name.
    pub is_word: bool,
    /// The name of the text in help.
    pub value: &'static str,
    pub help: &'static str,
}

/// An option without a value.
#[derive(Clone, Copy)]
pub struct FlagOption {
    pub name: &'static str,
    /// The option's short form.
    pub letter: Option<char>,
    pub help: &'static str,
}

/// The highest number that a viewer can have.
pub const MAX_WHO: u32 = MAX_VIEWERS as u32 - 1;

// The help of `VIEWERS`, of `WHO` and of the options of inputs states these numbers.
const _: () = prove!(MAX_VIEWERS == 64 && MAX_WHO == 63 && MAX_INPUTS == 281_474_976_710_655);

pub const VIEWERS: NumberOption = NumberOption {
    name: "viewers",
    low: 1,
    high: High::Number(MAX_VIEWERS as u32),
    unless: Unless::Has("2"),
    value: "K",
    help: "How many viewers, 1 to 64",
};

pub const TURNS: NumberOption = NumberOption {
    name: "turns",
    low: 1,
    high: High::Number(10_000_000),
    unless: Unless::Has("1000000"),
    value: "T",
    help: "How many turns at most, 1 to 10000000",
};

pub const PORT: NumberOption = NumberOption {
    name: "port",
    low: 1,
    high: High::Number(65535),
    unless: Unless::Nothing,
    value: "P",
    help: "The host's UDP port on 127.0.0.1, 1 to 65535",
};

/// The folder of `key`.
pub const FOLDER: TextOption = TextOption {
    name: "folder",
    is_word: true,
    value: "FOLDER",
    help: "Where the files of keys are made",
};

pub const OPEN: FlagOption = FlagOption {
    name: "open",
    letter: None,
    help: "Goes beyond this machine without keys: whoever has the scene may take part",
};

/// The option `--new-log` of `recall`.
pub const RECALL_LOG: TextOption = TextOption {
    name: "new-log",
    is_word: false,
    value: "FILE",
    help: "Makes a log of these inputs, with a run of its own, in FILE, and prints nothing",
};

pub const KEEP_NAMES: TextOption = TextOption {
    name: "keep-names",
    is_word: false,
    value: "FILE",
    help: "Refuses a part that lacks a node with a name of FILE, one a line",
};

/// The option `--until` of `recall`.
pub const RECALL_UNTIL: NumberOption = NumberOption {
    name: "until",
    low: 0,
    high: High::Inputs,
    unless: Unless::Nothing,
    value: "N",
    help: "Prints the first N inputs, 0 to 281474976710655 [default: all]",
};

pub const NO_TRACE: FlagOption = FlagOption {
    name: "no-trace",
    letter: None,
    help: "Prints the scene alone",
};

pub const INFO: FlagOption = FlagOption {
    name: "info",
    letter: None,
    help: "Prints what the log has instead of its inputs",
};

pub const LIST: FlagOption = FlagOption {
    name: "list",
    letter: None,
    help: "Prints only what is left out",
};

pub const VERBOSE: FlagOption = FlagOption {
    name: "verbose",
    letter: Some('v'),
    help: "Reports events on standard error",
};
