//! Why a command ends early, or a world isn't served.

use app_logs::{AppendFault, LogFault, append_fault_of};
use app_program::{Failure, JobFault, RunFault, ShareFault};
use app_standby::SharedFault;
use app_words::OrderFault;
use share_key_files::KeyFileFault;
use share_logged::{LoggedFault, ResumeFault};
use share_store::ReadFault;
use share_turns::TurnFault;

/// Why a command ends early, or a world isn't served.
#[derive(Clone, Copy)]
pub enum End {
    Failure(Failure),
    /// A scene is refused for a value in the braces of the instance on this line.
    Instance(Failure, u32),
    /// The file of a log isn't used.
    Log(LogFault),
    /// The last inputs are in the log or not, and no viewer was sent them.
    InDoubt,
    /// The snapshot of the world at the base of its log is missing, or it is another.
    NoSnapshot,
    /// A text isn't an address with a port, or the system knows no address of its name.
    NoAddress,
    /// A file of keys can't be opened or read.
    KeyFileOpen,
    /// Others than its owner may use a file of keys.
    KeyFileShared,
    /// A file has something else than keys in it.
    KeyFile(KeyFileFault),
    /// The key of a viewer's file is another viewer's.
    WrongViewer,
    /// A host is beyond this machine, without keys and without the word that anyone may come.
    NoKeys,
    /// A text is no name of a world.
    NoWorldName,
    /// The file of a login has something else than a user and a password, a line each.
    LoginFile,
    /// etcd didn't answer.
    EtcdSilent,
    /// What etcd has of a world isn't a log.
    EtcdMalformed,
    /// There is a file with the name of one of the files of keys that are to be made.
    KeyFileThere,
    /// The folder of the worlds can't be read.
    NoFolder,
    /// The file of names that have to stay can't be read.
    NoNames,
    /// A part lacks a name that has to stay; this is already printed.
    NameLost,
}

impl From<Failure> for End {
    fn from(failure: Failure) -> End {
        End::Failure(failure)
    }
}

impl From<OrderFault> for End {
    fn from(fault: OrderFault) -> End {
        End::Failure(Failure::Order(fault))
    }
}

impl From<JobFault> for End {
    fn from(fault: JobFault) -> End {
        End::Failure(Failure::Job(fault))
    }
}

impl From<RunFault> for End {
    fn from(fault: RunFault) -> End {
        End::Failure(Failure::Run(fault))
    }
}

impl From<ShareFault> for End {
    fn from(fault: ShareFault) -> End {
        End::Failure(Failure::Share(fault))
    }
}

impl From<LogFault> for End {
    fn from(fault: LogFault) -> End {
        End::Log(fault)
    }
}

impl From<TurnFault> for End {
    fn from(fault: TurnFault) -> End {
        match fault {
            TurnFault::Port => End::from(ShareFault::Port),
            TurnFault::Spoiled => End::from(ShareFault::Spoiled),
            TurnFault::Memory => End::from(ShareFault::Memory),
        }
    }
}

impl From<LoggedFault> for End {
    fn from(fault: LoggedFault) -> End {
        match fault {
            LoggedFault::Turn(fault) => End::from(fault),
            LoggedFault::Log(AppendFault::InDoubt) => End::InDoubt,
            LoggedFault::Log(fault) => End::Log(append_fault_of(fault)),
        }
    }
}

/// Returns why a world ends whose log isn't read on.
fn read_end(fault: ReadFault) -> End {
    match fault {
        ReadFault::Memory => End::Log(LogFault::Memory),
        ReadFault::Silent => End::EtcdSilent,
        ReadFault::Device => End::EtcdMalformed,
    }
}

impl From<SharedFault> for End {
    fn from(fault: SharedFault) -> End {
        match fault {
            SharedFault::TurnsUsedUp => End::from(ShareFault::TurnsUsedUp),
            SharedFault::Turn(fault) => End::from(fault),
            SharedFault::Read(fault) => read_end(fault),
            SharedFault::Resume(ResumeFault::NotALog(number)) => {
                End::Log(LogFault::NotALog(number))
            }
            SharedFault::Resume(ResumeFault::Memory) => End::Log(LogFault::Memory),
        }
    }
}
