//! What a command line asks for.

/// Whether a host has a log, and whether its file is there. `text_of` returns the file's name.
#[derive(Clone, Copy, PartialEq, Eq)]
pub enum LogUse {
    /// The host has no log.
    Without,
    /// `--log`: the host goes on with the log of a file.
    GoesOn,
    /// `--new-log`: the host makes a log.
    Makes,
    /// `--etcd`: the host shares the log that etcd has of a world, and makes it if there is none.
    Shares,
}

/// What `host` does; its input is a job of clocks.
#[derive(Clone, Copy, PartialEq, Eq)]
pub struct HostOrder {
    /// The UDP port of 127.0.0.1 to bind, 1 to 65,535; `None` if `--listen` names an address.
    pub port: Option<u16>,
    /// `--listen`: it binds the address that the option names.
    pub has_address: bool,
    /// `--keys`: it serves viewers that have a key of the file that the option names.
    pub has_keys: bool,
    /// `--open`: it serves whoever has the scene, on any machine.
    pub is_open: bool,
    pub log: LogUse,
    /// `--world`: the log is that of the world that the option names.
    pub has_world: bool,
    /// `--login`: the host logs in to etcd by the file that the option names.
    pub has_login: bool,
    /// How many seconds pass without an input of another host before this one makes clocks, 1 to
    /// 3,600; `None` for none.
    pub standby: Option<u32>,
    /// How many viewers there can be, 1 to `MAX_VIEWERS` of x3d_values, if that is given.
    pub viewers: Option<u8>,
    /// The limit of turns, 1 to 10,000,000, if there is one.
    pub turns: Option<u32>,
    /// How many of the last inputs are kept for viewers that have them, 0 to 2^48 - 1; `None` keeps
    /// all.
    pub keep: Option<u64>,
    /// How many of the last inputs keep their lines of the trace in the world for viewers that
    /// join, 0 to 2^48 - 1; `None` keeps all.
    pub forget: Option<u64>,
    /// How many milliseconds pass from one clock that the host makes to the next, 1 to 3,600,000,
    /// once those of its job are over; `None` for no such clocks.
    pub every: Option<u32>,
    /// After how many inputs the host ends, 0 to 2^48 - 1; `None` for no such end.
    pub until: Option<u64>,
    /// Reports events on standard error.
    pub verbose: bool,
}

/// How many inputs a viewer applies before it ends, 0 to 2^48 - 1.
#[derive(Clone, Copy, PartialEq, Eq)]
pub enum ViewEnd {
    /// At least this many.
    Until(u64),
    /// Exactly this many. Inputs beyond them are not applied.
    Exactly(u64),
}

/// What `view` does; its input is a job of this viewer's points.
#[derive(Clone, Copy, PartialEq, Eq)]
pub struct ViewOrder {
    /// The host's UDP port on 127.0.0.1, 1 to 65,535; `None` if `--host` names an address.
    pub port: Option<u16>,
    /// `--host`: the host is at the address that the option names.
    pub has_address: bool,
    /// `--key`: it has the key of the file that the option names.
    pub has_key: bool,
    /// `--world`: it is of the world that the option names, at a host that serves many.
    pub has_world: bool,
    /// `--open`: it goes to a host on any machine without a key.
    pub is_open: bool,
    /// The number of the viewer, below `MAX_VIEWERS` of x3d_values.
    pub who: u8,
    /// How often the viewer has been started, counting this time, 1 to 2^32 - 1; `None` for a boot
    /// that works.
    pub boot: Option<u32>,
    pub end: ViewEnd,
    /// The limit of turns, 1 to 10,000,000.
    pub turns: u32,
    /// The UDP port to bind, 1 to 65,535; `None` for a free port.
    pub at: Option<u16>,
    /// The port of the viewer that gets this viewer's snapshot, 1 to 65,535; `None` for no viewer.
    pub give: Option<u16>,
    /// How many turns it gives, 1 to 2^32 - 1.
    pub give_turns: u32,
    /// The version of datagrams, 1 or 2; `None` for 2, or 1 if the host doesn't answer in 2.
    pub wire: Option<u8>,
    /// Joins from the pieces of a snapshot: another viewer's, or with a key the host's.
    pub join: bool,
    /// How many of the last inputs keep their lines of the trace, 0 to 2^48 - 1; `None` keeps all.
    pub forget: Option<u64>,
    /// Reports events on standard error.
    pub verbose: bool,
}

/// What `serve` does; the worlds are those of the folder that its word names. `text_of` returns the
/// folder's name, the address, and those of etcd.
#[derive(Clone, Copy, PartialEq, Eq)]
pub struct ServeOrder {
    /// The UDP port of 127.0.0.1 to bind, 1 to 65,535; `None` if `--listen` names an address.
    pub port: Option<u16>,
    /// `--listen`: it binds the address that the option names.
    pub has_address: bool,
    /// `--open`: worlds without keys are served to whoever has the scene, on any machine.
    pub is_open: bool,
    /// `--etcd`: the logs are in etcd, each under the name of its job, and made if there is none.
    pub has_etcd: bool,
    /// `--login`: it logs in to etcd by the file that the option names.
    pub has_login: bool,
    /// How many viewers a new world can have, 1 to `MAX_VIEWERS` of x3d_values, if that is given.
    pub viewers: Option<u8>,
    /// How many of a world's last inputs are kept for viewers that have them, 0 to 2^48 - 1; `None`
    /// keeps all.
    pub keep: Option<u64>,
    /// How many of a world's last inputs keep their lines of the trace for viewers that join, 0 to
    /// 2^48 - 1; `None` keeps all.
    pub forget: Option<u64>,
    /// How many of the last inputs, to twice as many, a log of a world with keys keeps, 100 to
    /// 2^48 - 1; `None` keeps all.
    pub base: Option<u64>,
    /// How many milliseconds pass from one clock that a world's host makes to the next, 1 to
    /// 3,600,000, once those of its job are over; `None` for no such clocks.
    pub every: Option<u32>,
    /// Reports events on standard error.
    pub verbose: bool,
}

/// A command with its options.
#[derive(Clone, Copy, PartialEq, Eq)]
pub enum Order {
    /// `run`: the input is a job; `no_trace` prints the scene alone.
    Run {
        no_trace: bool,
    },
    /// `format`: the input is a scene.
    Format,
    /// `check`: the input is a scene.
    Check,
    /// `rehearse`: the input is a schedule; 1 to `MAX_VIEWERS` viewers.
    Rehearse {
        viewers: u8,
    },
    /// `agree`: the input is a job; 1 to `MAX_VIEWERS` viewers, 1 to 10,000,000 rounds.
    Agree {
        viewers: u8,
        turns: u32,
    },
    Host(HostOrder),
    View(ViewOrder),
    Serve(ServeOrder),
    /// `recall`: the input is a log's file; at most this many of its inputs, 0 to 2^48 - 1, or all.
    /// `info` prints what the log has instead of them; `makes` makes a log of them in the file that
    /// `--new-log` names.
    Recall {
        until: Option<u64>,
        info: bool,
        makes: bool,
    },
    /// `part`: the input is a text; `list` prints only what goes.
    Part {
        list: bool,
    },
    /// `key`: makes the keys of a host and of 1 to `MAX_VIEWERS` viewers.
    Key {
        viewers: u8,
    },
}

/// What words ask for: the text of `--help` or `--version`, or a command.
#[derive(Drop)]
pub enum Request {
    Text(String),
    Order(Order),
}
