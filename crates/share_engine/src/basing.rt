//! The log of a world gets a base.

ghost use Rattle.std.specs.Prelude.{◌≡◌, ◌+◌, ◌⊎◌, ◌≢◌, List, Option, ℕ, false, length, IfErr, IfOk, IsErrOf, IsTrue, OnErr, OnOk};
ghost use Rattle.share_entries.specs.Base.{base_text};
ghost use Rattle.share_entries.specs.Chain.{chain_after};
ghost use Rattle.share_entries.specs.Head.{head_text, is_viewer_count};
ghost use Rattle.share_etcd.specs.declared.outcome.Outcome.TheVariants.{Refused, Stored};
ghost use Rattle.share_etcd.specs.Keys.{text_of};
ghost use Rattle.share_etcd.specs.Requests.{basing_text};
ghost use Rattle.share_engine.specs.declared.fault.BasingFault.TheVariants.{InDoubt, Memory, OtherPlace, Taken};
ghost use Rattle.share_engine.specs.Exchanges.{grown};
ghost use Rattle.share_engine.specs.Reading.{count_to, is_place_of, without};
ghost use Rattle.share_engine.specs.Keys.{outcome_in};

use crate::asking::ask_for;
use crate::engine::Engine;
use crate::fault::BasingFault;
use crate::log::EtcdLog;
use share_entries::{Base, Chain};
use share_etcd::basing_bytes;
use std::alloc::AllocError;

/// A place of a log where a frame ends: after this many entries, with the chain there. A base may
/// be put there while the log has the base that it had.
#[derive(Clone, Copy, Debug, PartialEq, Eq)]
pub struct Place {
    number: u64,
    chain: Chain,
    /// The revision of the head, which is another one after each base.
    head: u64,
}

impl Place {
    ghost use Rattle.std.specs.Prelude.{◌≡◌};
    ghost use Rattle.share_engine.specs.Reading.{is_place_of};

    /// Returns the number of entries up to there.
    pub fn number(&self) -> u64
        ensures { result ≡ self.now.number }
    {
        self.number
    }

    /// Returns the chain there.
    pub fn chain(&self) -> Chain
        ensures { result ≡ self.now.chain }
    {
        self.chain
    }

    /// Reports whether a base is of this place.
    fn has(&self, base: &Base) -> bool
        ensures { result ≡ is_place_of base.now self.now.number self.now.chain }
    {
        base.number() == self.number && base.chain() == self.chain
    }
}

impl<E: Engine> EtcdLog<E> {
    /// Returns the place after the last known entry.
    pub fn place(&self) -> Place
        ensures number { result.number ≡ self.now.known.start.below + length self.now.known.entries }
        ensures chain { result.chain
            ≡ chain_after self.now.known.start.chain self.now.known.entries }
        ensures head { result.head ≡ self.now.revisions.head }
    {
        Place {
            number: self.known.last_number(),
            chain: self.known.chain(),
            head: self.revisions.head,
        }
    }

    /// Returns the request for a base and its snapshot.
    fn base_request(&self, base: &Base, snapshot: &[u8]) -> Result<Vec<u8>, AllocError>
        requires { IsTrue (is_viewer_count self.now.head.viewers) }
        ensures { IfOk result (λ v. v.items ≡ basing_text (text_of self.now.name)
            self.now.revisions.head self.now.revisions.tail base.now.number
            (head_text self.now.head) (base_text base.now) snapshot.now) }
    {
        basing_bytes(
            self.alloc,
            &self.name,
            self.revisions,
            &self.head,
            base,
            snapshot,
        )
    }

    /// Asks for a base and its snapshot.
    fn ask_base(&mut self, base: &Base, snapshot: &[u8]) -> Result<(), BasingFault>
        requires { IsTrue (is_viewer_count self.old.head.viewers) }
        ensures name { self.new.name ≡ self.old.name }
        ensures head { self.new.head ≡ self.old.head }
        ensures known { self.new.known ≡ self.old.known }
        ensures open { OnOk result (self.new.is_open ≡ self.old.is_open) }
        ensures stored { OnOk result ((said : Option (List ℕ)) × (E.told self.new.engine
            ≡ grown (E.told self.old.engine) (record {
              asked = basing_text (text_of self.old.name) self.old.revisions.head
                  self.old.revisions.tail base.now.number (head_text self.old.head)
                  (base_text base.now) snapshot.now;
              answer = said;
            })) × (outcome_in said ≡ Stored self.new.revisions.head)) }
        // It is taken if the answer says that it was refused.
        ensures taken { IsErrOf result BasingFault.Taken → (said : Option (List ℕ))
            × (E.told self.new.engine ≡ grown (E.told self.old.engine) (record {
              asked = basing_text (text_of self.old.name) self.old.revisions.head
                  self.old.revisions.tail base.now.number (head_text self.old.head)
                  (base_text base.now) snapshot.now;
              answer = said;
            })) × (outcome_in said ≡ Refused) }
        ensures fault { IfErr result (λ e. ((e ≡ Memory) × (self.new ≡ self.old))
            ⊎ (((e ≡ Taken) ⊎ (e ≡ InDoubt)) × (self.new.is_open ≡ false))) }
    {
        let Ok(body) = self.base_request(base, snapshot) else {
            return Err(BasingFault::Memory);
        };
        let mut answer = Vec::new(self.alloc);
        match ask_for(self.alloc, &mut self.engine, &body, &mut answer) {
            Ok(Some(revision)) => {
                self.revisions.head = revision;
                Ok(())
            }
            Ok(None) => {
                self.is_open = false;
                Err(BasingFault::Taken)
            }
            Err(_) => {
                // It may have been stored.
                self.is_open = false;
                Err(BasingFault::InDoubt)
            }
        }
    }

    /// Puts a base of the first entries, up to a place that this handle gave, and a snapshot of the
    /// world there, whose SHA-256 the base has. Their frames are deleted. The handle's entries stay
    /// as they are. Another host's next append is `Taken`; it goes on once it has read on.
    ///
    /// Fails with `OtherPlace` if the base has another number, chain or number of viewers; `Taken`
    /// if the log has another base since, or entries that this handle doesn't know; `InDoubt` if
    /// the base may be there; or with `Memory`. After `InDoubt`, and after `Taken` where etcd was
    /// asked, the handle takes no append before it has read on.
    pub fn put_base(
        &mut self,
        place: &Place,
        base: &Base,
        snapshot: &[u8],
    ) -> Result<(), BasingFault>
        ensures name { self.new.name ≡ self.old.name }
        ensures head { self.new.head ≡ self.old.head }
        ensures known { self.new.known ≡ self.old.known }
        ensures open { OnOk result (self.new.is_open ≡ self.old.is_open) }
        // It is done if the answer to this request says so.
        ensures stored { OnOk result ((said : Option (List ℕ)) × (E.told self.new.engine
            ≡ grown (E.told self.old.engine) (record {
              asked = basing_text (text_of self.old.name) self.old.revisions.head
                  self.old.revisions.tail base.now.number (head_text self.old.head)
                  (base_text base.now) snapshot.now;
              answer = said;
            })) × (outcome_in said ≡ Stored self.new.revisions.head)) }
        // It is taken if the place is of another head, or if the answer says that it was refused.
        ensures taken { IsErrOf result BasingFault.Taken
            → (place.now.head ≢ self.old.revisions.head)
            ⊎ ((said : Option (List ℕ)) × (E.told self.new.engine
            ≡ grown (E.told self.old.engine) (record {
              asked = basing_text (text_of self.old.name) self.old.revisions.head
                  self.old.revisions.tail base.now.number (head_text self.old.head)
                  (base_text base.now) snapshot.now;
              answer = said;
            })) × (outcome_in said ≡ Refused)) }
        ensures place { OnOk result (
            IsTrue (is_place_of base.now place.now.number place.now.chain)
            × (place.now.head ≡ self.old.revisions.head)
            × (length base.now.kept ≡ self.old.head.viewers)) }
        ensures fault { IfErr result (λ e.
            ((e ≡ OtherPlace) × (self.new ≡ self.old)
            × ((is_place_of base.now place.now.number place.now.chain ≡ false)
            ⊎ (length base.now.kept ≢ self.old.head.viewers)))
            ⊎ (((e ≡ Taken) × (self.new ≡ self.old)
            × (place.now.head ≢ self.old.revisions.head))
            ⊎ (((e ≡ Memory) × (self.new ≡ self.old))
            ⊎ (((e ≡ Taken) ⊎ (e ≡ InDoubt)) × (self.new.is_open ≡ false))))) }
    {
        if !place.has(base) || base.kept().len() != usize::from(self.head.viewers) {
            return Err(BasingFault::OtherPlace);
        }
        if place.head != self.revisions.head {
            return Err(BasingFault::Taken);
        }
        self.ask_base(base, snapshot)
    }

    /// Forgets the entries up to a base of this log: the handle's entries then start there. Does
    /// nothing if the base is below their start or above the last of them. Fails if memory is
    /// refused, and then forgets nothing.
    pub fn start_from(&mut self, base: &Base) -> Result<(), AllocError>
        ensures name { self.new.name ≡ self.old.name }
        ensures head { self.new.head ≡ self.old.head }
        ensures known { OnOk result (self.new.known
            ≡ without (count_to base.now.number self.old.known) self.old.known) }
        ensures open { self.new.is_open ≡ self.old.is_open }
        ensures refused { OnErr result (self.new ≡ self.old) }
    {
        let below = self.known.start().below;
        if base.number() > self.known.last_number() {
            return Ok(());
        }
        let count = base.number().saturating_sub(below) as usize;
        self.known.forget(self.alloc, count)
    }
}
