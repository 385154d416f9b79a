//! An engine for tests.

ghost use Rattle.std.specs.Prelude.{◌≡◌, ◌++◌, ◌∷◌, [], List, Option, Some, None, Ok, map, slice_get, length, if◌then◌else◌, IfOk, IfErr, OnErr, OnOk};
ghost use Rattle.std.specs.Option.{option_map};
ghost use Rattle.share_engine.specs.Exchanges.{Exchange};
ghost use Rattle.share_engine.specs.Views.{answer_at, answer_view, told_view};

use crate::engine::{Engine, EngineFault};
use std::alloc::{AllocError, Global};

/// A request, and the body of its answer.
#[derive(Drop)]
pub struct Told {
    asked: Vec<u8>,
    answer: Option<Vec<u8>>,
}

/// An engine for tests. It answers as a plan has it, and records the exchanges.
#[derive(Drop)]
pub struct FakeEngine {
    alloc: Global,
    answers: Vec<Option<Vec<u8>>>,
    told: Vec<Told>,
}

/// Returns a copy of an answer.
fn copied(alloc: Global, answer: Option<&[u8]>) -> Result<Option<Vec<u8>>, AllocError>
    ensures { IfOk result (λ copy. answer_view copy ≡ option_map (λ bytes. bytes.now) answer.entry) }
{
    match answer {
        Some(bytes) => Ok(Some(Vec::from_slice(alloc, bytes)?)),
        None => Ok(None),
    }
}

impl FakeEngine {
    /// Makes an engine. Its answer to request number k, counted from 0, is number k of these, and
    /// `Silent` if that is `None`; after the last all are `Silent`.
    pub fn new(alloc: Global, answers: Vec<Option<Vec<u8>>>) -> FakeEngine
        ensures answers { result.answers ≡ answers }
        ensures told { result.told.items ≡ [] }
    {
        FakeEngine {
            alloc,
            answers,
            told: Vec::new(alloc),
        }
    }

    /// Returns the body of request number k, counted from 0.
    pub fn asked(&self, number: usize) -> Option<&[u8]>
        ensures { option_map (λ body. body.now) result
            ≡ option_map (λ told. told.asked.items) (slice_get self.now.told.items number) }
    {
        match self.told.get(number) {
            Some(told) => Some(&told.asked),
            None => None,
        }
    }

    /// Returns the answer to the next request.
    fn answer(&self) -> Option<&[u8]>
        ensures { option_map (λ body. body.now) result
            ≡ answer_at self.now.answers.items (length self.now.told.items) }
    {
        match self.answers.get(self.told.len()) {
            Some(Some(answer)) => Some(answer),
            Some(None) => None,
            None => None,
        }
    }

    /// Returns what is recorded of a request.
    fn told_of(&self, body: &[u8]) -> Result<Told, AllocError>
        ensures { IfOk result (λ told. told_view told ≡ record {
          asked = body.now;
          answer = answer_at self.now.answers.items (length self.now.told.items);
        }) }
    {
        let asked = Vec::from_slice(self.alloc, body)?;
        let answer = copied(self.alloc, self.answer())?;
        Ok(Told { asked, answer })
    }

    /// Records an exchange.
    fn add(&mut self, told: Told) -> Result<(), EngineFault>
        ensures answers { self.new.answers ≡ self.old.answers }
        ensures ok { OnOk result (self.new.told.items ≡ self.old.told.items ++ told ∷ []) }
        ensures err { OnErr result (self.new.told.items ≡ self.old.told.items) }
        ensures fault { IfErr result (λ e. e ≡ EngineFault.Memory) }
    {
        match self.told.push(told) {
            Ok(()) => Ok(()),
            Err(_) => Err(EngineFault::Memory),
        }
    }
}

/// Puts an answer into a buffer. Reports whether there is one.
fn put(answer: &Option<Vec<u8>>, into: &mut Vec<u8>) -> Result<bool, AllocError>
    ensures { IfOk result (λ there. answer_view answer.now ≡ (if there then Some into.new.items else None)) }
{
    into.clear();
    match answer {
        Some(bytes) => {
            into.extend_from_slice(bytes)?;
            Ok(true)
        }
        None => Ok(false),
    }
}

impl Engine for FakeEngine {
    ghost told = { λ f. Some (map told_view f.told.items) };

    fn ask(&mut self, body: &[u8], into: &mut Vec<u8>) -> Result<(), EngineFault> {
        let Ok(told) = self.told_of(body) else {
            return Err(EngineFault::Memory);
        };
        let Ok(is_answered) = put(&told.answer, into) else {
            drop(told);
            return Err(EngineFault::Memory);
        };
        self.add(told)?;
        if is_answered {
            Ok(())
        } else {
            Err(EngineFault::Silent)
        }
    }
}
