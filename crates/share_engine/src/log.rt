//! A log in etcd, as `Log`.

ghost use Rattle.std.specs.Prelude.{◌≡◌, ◌+◌, ◌<◌, ◌≤◌, ◌^◌, ◌++◌, ℕ, List, Option, true, false, length, Ok, IfOk, IsTrue, IsErrOf, OnErr, OnOk, drop};
ghost use Rattle.share_entries.specs.Chain.{chain_after};
ghost use Rattle.share_entries.specs.Frame.{frame_in, frame_text};
ghost use Rattle.share_etcd.specs.declared.outcome.Outcome.TheVariants.{Refused};
ghost use Rattle.share_etcd.specs.Keys.{text_of};
ghost use Rattle.share_etcd.specs.Requests.{append_text};
ghost use Rattle.share_store.specs.OneLog.{max_entries};
ghost use Rattle.share_engine.specs.Exchanges.{grown};
ghost use Rattle.share_engine.specs.Keys.{held, IsKept, MayLeave, outcome_in};

use crate::asking::ask_for;
use crate::engine::Engine;
use crate::known::Known;
use crate::reading::read_into;
use share_entries::{Chain, Entry, Head, Start, frame_bytes};
use share_etcd::{Revisions, append_bytes};
use share_session::WorldName;
use share_store::{AppendFault, Log, ReadFault, Remembers};
use std::alloc::{AllocError, Global};

/// The largest number of an entry after which more are appended.
const MAX_NUMBER: u64 = 1 << 48;

/// Room for etcd's answer to an append, which has some 250 bytes.
const ANSWER_ROOM: usize = 1024;

/// One handle of a world's log in etcd. It has the entries from its start on in memory. Other hosts
/// may append to the log too.
#[derive(Drop)]
pub struct EtcdLog<E: Engine> {
    pub(crate) engine: E,
    pub(crate) alloc: Global,
    pub(crate) name: WorldName,
    pub(crate) head: Head,
    pub(crate) known: Known,
    /// The revisions of the keys when this handle last read or changed them.
    pub(crate) revisions: Revisions,
    pub(crate) is_open: bool,
    // What the keys may have is what the handle knows, or later.
    ghost kept: { ∥ IsKept (text_of name) head.run known.start (E.told engine)
        (held revisions.head revisions.tail known.entries) ∥₁ },
}

impl<E: Engine> EtcdLog<E> {
    /// Goes on with a log that has these entries at these revisions.
    pub(crate) fn new(
        alloc: Global,
        engine: E,
        name: WorldName,
        head: Head,
        known: Known,
        revisions: Revisions,
    ) -> EtcdLog<E>
        requires { IsKept (text_of name) head.run known.start (E.told engine)
            (held revisions.head revisions.tail known.entries) }
        ensures engine { result.engine ≡ engine }
        ensures name { result.name ≡ name }
        ensures head { result.head ≡ head }
        ensures known { result.known ≡ known }
        ensures revisions { result.revisions ≡ revisions }
        ensures open { result.is_open ≡ true }
    {
        EtcdLog {
            engine,
            alloc,
            name,
            head,
            known,
            revisions,
            is_open: true,
        }
    }

    /// Returns where the entries of this handle start.
    pub fn start(&self) -> Start
        ensures value { result ≡ self.now.known.start }
        ensures low { result.below < 2 ^ 48 }
    {
        self.known.start()
    }

    /// Returns the chain after the last known entry.
    pub fn chain(&self) -> Chain
        ensures { result ≡ chain_after self.now.known.start.chain self.now.known.entries }
    {
        self.known.chain()
    }

    /// Returns the engine.
    pub fn engine(&self) -> &E
        ensures { result.now ≡ self.now.engine }
    {
        &self.engine
    }

    /// Returns the engine, and drops the rest.
    pub fn into_engine(self) -> E
        ensures { result ≡ self.engine }
    {
        let EtcdLog { engine, known, .. } = self;
        drop(known);
        engine
    }

    /// Returns the request for an append of these entries.
    fn request(&self, entries: &[Entry]) -> Result<Vec<u8>, AllocError>
        requires room { self.now.known.start.below + length self.now.known.entries < 2 ^ 48 }
        requires most { length entries.now ≤ max_entries }
        ensures { let k = self.now.known in
            let before = k.start.below + length k.entries in
            let frame = frame_text (chain_after k.start.chain k.entries) (before + 1) entries.now in
            IfOk result (λ v. (v.items ≡ append_text (text_of self.now.name)
            self.now.revisions.head self.now.revisions.tail (before + 1)
            (before + length entries.now) frame)
            × (frame_in (chain_after k.start.chain k.entries) (before + 1) frame
            ≡ Ok entries.now)) }
    {
        let before = self.known.last_number();
        let first = self.known.next_number();
        let last = before + entries.len() as u64;
        let frame = frame_bytes(self.alloc, &self.known.chain(), first, entries)?;
        append_bytes(self.alloc, &self.name, self.revisions, first, last, &frame)
    }

    /// Makes room for more entries. Fails if memory is refused.
    fn make_room(&mut self, count: usize) -> Result<(), AllocError>
        ensures { self.new ≡ self.old }
    {
        self.known.reserve(count)
    }

    /// Asks for an append of these entries by this request.
    fn store(
        &mut self,
        body: &[u8],
        answer: &mut Vec<u8>,
        entries: &[Entry],
    ) -> Result<(), AppendFault>
        requires open { IsTrue self.old.is_open }
        requires asks { let k = self.old.known in
            let before = k.start.below + length k.entries in
            body.now ≡ append_text (text_of self.old.name) self.old.revisions.head
            self.old.revisions.tail (before + 1) (before + length entries.now)
            (frame_text (chain_after k.start.chain k.entries) (before + 1) entries.now) }
        requires again { let k = self.old.known in
            let before = k.start.below + length k.entries in
            frame_in (chain_after k.start.chain k.entries) (before + 1)
            (frame_text (chain_after k.start.chain k.entries) (before + 1) entries.now)
            ≡ Ok entries.now }
        ensures name { self.new.name ≡ self.old.name }
        ensures head { self.new.head ≡ self.old.head }
        ensures start { self.new.known.start ≡ self.old.known.start }
        ensures stored { OnOk result
            (self.new.known.entries ≡ self.old.known.entries ++ entries.now) }
        ensures open { OnOk result (IsTrue self.new.is_open) }
        ensures refused { OnErr result (self.new.known.entries ≡ self.old.known.entries) }
        ensures closed { OnErr result (self.new.is_open ≡ false) }
        // It is taken if the answer says that it was refused.
        ensures taken { IsErrOf result AppendFault.Taken → (said : Option (List ℕ))
            × (E.told self.new.engine
            ≡ grown (E.told self.old.engine) (record { asked = body.now; answer = said }))
            × (outcome_in said ≡ Refused) }
        ensures memory { IsErrOf result AppendFault.Memory → ⊥ }
        ensures full { IsErrOf result AppendFault.Full → ⊥ }
    {
        match ask_for(self.alloc, &mut self.engine, body, answer) {
            Ok(Some(revision)) => match self.known.add(entries) {
                Ok(()) => {
                    self.revisions.tail = revision;
                    Ok(())
                }
                Err(_) => {
                    self.is_open = false;
                    Err(AppendFault::InDoubt)
                }
            },
            Ok(None) => {
                self.is_open = false;
                Err(AppendFault::Taken)
            }
            Err(_) => {
                // It may have been stored.
                self.is_open = false;
                Err(AppendFault::InDoubt)
            }
        }
    }
}

impl<E: Engine> Log for EtcdLog<E> {
    ghost known = { λ l. l.known.entries };

    ghost may_leave = { λ l.
        MayLeave (text_of l.name) l.head.run l.known.start (E.told l.engine) };

    ghost is_open = { λ l. l.is_open };

    ghost is_clean = { λ _. true };

    fn takes_appends(&self) -> bool {
        self.is_open
    }

    fn len(&self) -> u64 {
        self.known.len() as u64
    }

    fn append(&mut self, entries: &[Entry]) -> Result<(), AppendFault> {
        if self.known.last_number() >= MAX_NUMBER {
            return Err(AppendFault::Full);
        }
        let Ok(body) = self.request(entries) else {
            return Err(AppendFault::Memory);
        };
        let Ok(mut answer) = Vec::with_capacity(self.alloc, ANSWER_ROOM) else {
            return Err(AppendFault::Memory);
        };
        if self.make_room(entries.len()).is_err() {
            return Err(AppendFault::Memory);
        }
        self.store(&body, &mut answer, entries)
    }

    fn read_on(&mut self, into: &mut Vec<Entry>) -> Result<(), ReadFault> {
        match read_into(
            self.alloc,
            &mut self.engine,
            &self.name,
            &self.head,
            &mut self.known,
            into,
        ) {
            Ok(revisions) => {
                self.revisions = revisions;
                self.is_open = true;
                Ok(())
            }
            Err(fault) => Err(fault),
        }
    }
}

impl<E: Engine> Remembers for EtcdLog<E> {
    fn entries(&self) -> &[Entry] {
        self.known.entries()
    }
}
