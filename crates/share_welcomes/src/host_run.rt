//! The run of a host, and what the host makes of a datagram.

ghost use Rattle.std.specs.Prelude.{◌≡◌, take, IsTrue};
ghost use Rattle.share_wire.specs.Datagram.{datagram};
ghost use Rattle.share_session.specs.Runs.{session_of};
ghost use Rattle.share_session.specs.Welcomes.{answers};
ghost use Rattle.share_entries.specs.Head.{is_viewer_count};
ghost use Rattle.share_welcomes.specs.Coming as spec;

use share_entries::Head;
use share_session::{
    DatagramFault, Hello, Message2, Run, Session, ViewerCount, Welcome, WorldName, decode, heard,
    session_of,
};
use share_wire::Message;

/// The run of a host: the mark of its scene, the run, the session of both, the name of its world,
/// and how many viewers it has.
#[derive(Clone, Copy)]
pub struct HostRun {
    pub(crate) mark: [u8; 32],
    pub(crate) run: Run,
    pub(crate) session: Session,
    name: WorldName,
    viewers: ViewerCount,
}

/// What a host makes of a datagram.
#[derive(Clone, Copy)]
pub enum Coming {
    /// It isn't of version 2.
    Plain,
    /// It is of the host's session, and says this.
    Heard(Message),
    /// It is a Hello to the host.
    Greets(Hello),
    /// It is of version 2, and not to the host.
    Strange,
}

fn is_same(mark: &[u8; 32], other: &[u8; 32]) -> bool
    ensures { result ≡ spec.is_same mark.now other.now }
{
    mark == other
}

fn is_text(text: &[u8], other: &[u8]) -> bool
    ensures { result ≡ spec.is_same text.now other.now }
{
    text == other
}

fn heard_as(message: Option<Message>) -> Coming
    ensures { result ≡ spec.heard_as message }
{
    match message {
        Some(message) => Coming::Heard(message),
        None => Coming::Strange,
    }
}

/// What is made of bytes that aren't a datagram of version 2.
fn fault_as(fault: DatagramFault) -> Coming
    ensures { result ≡ spec.fault_as fault }
{
    match fault {
        DatagramFault::BadPacket => Coming::Plain,
        DatagramFault::BadVersion => Coming::Plain,
        DatagramFault::BadTag => Coming::Strange,
        DatagramFault::BadBody => Coming::Strange,
    }
}

/// Returns the name of a world that has none.
fn no_name() -> WorldName
    ensures { result ≡ spec.no_name }
{
    let Some(name) = WorldName::new(b"") else {
        unreachable!();
    };
    name
}

impl HostRun {
    ghost use Rattle.std.specs.Prelude.{◌≡◌, IsTrue, length};
    ghost use Rattle.share_entries.specs.Head.{is_viewer_count};
    ghost use Rattle.share_session.specs.Runs.{session_of};
    ghost use Rattle.share_session.specs.Welcomes.{answers};
    ghost use Rattle.share_session.specs.Decoding.{decoded};
    ghost use Rattle.share_welcomes.specs.Coming as spec;

    /// Returns the run of a host of the scene with this mark.
    pub fn new(mark: [u8; 32], run: Run, name: WorldName, viewers: ViewerCount) -> HostRun
        ensures { result ≡ record {
          mark = mark;
          run = run;
          session = session_of mark run;
          name = name;
          viewers = viewers;
        } }
    {
        let session = session_of(&mark, &run);
        HostRun {
            mark,
            run,
            session,
            name,
            viewers,
        }
    }

    /// Returns the run of a host whose log has this head. Its world has no name.
    pub fn of_head(head: &Head) -> HostRun
        requires { IsTrue (is_viewer_count head.now.viewers) }
        ensures { result ≡ spec.run_of_head head.now }
    {
        HostRun::new(
            head.mark,
            head.run,
            no_name(),
            ViewerCount::new(head.viewers),
        )
    }

    /// Reports whether a Hello is to this host: of its scene and of its world's name.
    fn is_greeted(&self, hello: &Hello) -> bool
        ensures { result ≡ spec.is_greeted self.now hello.now }
    {
        is_same(&hello.mark, &self.mark) && is_text(hello.name.text(), self.name.text())
    }

    fn greeting(&self, hello: &Hello) -> Coming
        ensures { result ≡ spec.greeting self.now hello.now }
    {
        if self.is_greeted(hello) {
            Coming::Greets(*hello)
        } else {
            Coming::Strange
        }
    }

    fn message_as(&self, message: &Message2) -> Coming
        ensures { result ≡ spec.message_as self.now message.now }
    {
        match message {
            Message2::Said(_, _) => heard_as(heard(&self.session, &self.mark, message)),
            Message2::Hello(hello) => self.greeting(hello),
            Message2::Welcome(_) => Coming::Strange,
        }
    }

    /// Returns what the host makes of the bytes of a datagram.
    pub fn coming(&self, bytes: &[u8]) -> Coming
        ensures { result ≡ spec.coming_of self.now (decoded bytes.now) }
    {
        match decode(bytes) {
            Ok(message) => self.message_as(&message),
            Err(fault) => fault_as(fault),
        }
    }

    /// Returns the Welcome to a Hello of a viewer whose last boot is `kept`, or 0. Its cookie is
    /// zeros, as this host asks for none.
    pub fn welcome(&self, hello: &Hello, kept: u32) -> Welcome
        ensures value { result ≡ spec.welcome_to self.now hello.now kept }
        ensures answers { IsTrue (answers hello.now result) }
    {
        hello.welcome([0; 8], self.run, self.viewers, kept)
    }
}
