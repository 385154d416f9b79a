//! What comes over a connection, and the answer in it.

use crate::fault::PostFault;
use http1::{Client, Event};
use httparse::spans::{HeaderSpan, Span};
use std::alloc::{AllocError, Global};

/// The longest body of an answer that is taken, in bytes. 64 frames in base64 have 6 million.
const MAX_BODY: usize = 1 << 24;

/// How many headers an answer may have.
const HEADERS: usize = 64;

/// What came over a connection and isn't read.
#[derive(Drop)]
pub(crate) struct Incoming {
    bytes: Vec<u8>,
    /// How many of the bytes are read.
    read: usize,
}

/// What a step of reading found.
#[derive(Clone, Copy)]
pub(crate) enum Step {
    /// More has to come.
    NeedMore,
    /// Something was read.
    Read,
    /// The answer is whole.
    Done,
}

impl Incoming {
    pub(crate) fn none(alloc: Global) -> Incoming {
        Incoming {
            bytes: Vec::new(alloc),
            read: 0,
        }
    }

    /// Adds bytes that came, in place of those that are read.
    pub(crate) fn add(&mut self, came: &[u8]) -> Result<(), AllocError> {
        if self.read >= self.bytes.len() {
            self.bytes.clear();
            self.read = 0;
        }
        self.bytes.extend_from_slice(came)
    }

    fn unread(&self) -> &[u8] {
        self.bytes.get(self.read..).unwrap_or(&[])
    }

    /// Reads the next part of an answer: adds to its body, or notes its status.
    pub(crate) fn step(
        &mut self,
        client: &mut Client,
        status: &mut u16,
        body: &mut Vec<u8>,
    ) -> Result<Step, PostFault> {
        let mut headers = [HeaderSpan::default(); HEADERS];
        let input = self.unread();
        let Ok(progress) = client.read(input, &mut headers) else {
            return Err(PostFault::Silent);
        };
        let step = match progress.event {
            Event::NeedMore => Step::NeedMore,
            Event::Head(head) => {
                *status = head.code;
                Step::Read
            }
            Event::Informational(_) => Step::Read,
            Event::Data(span) => {
                add_data(body, input, span)?;
                Step::Read
            }
            Event::End(_) => Step::Done,
            Event::Paused | Event::Upgraded | Event::Closed => return Err(PostFault::Silent),
        };
        self.read = self.read.saturating_add(progress.consumed);
        Ok(step)
    }
}

/// Adds a piece of the input to a body.
fn add_data(body: &mut Vec<u8>, input: &[u8], span: Span) -> Result<(), PostFault> {
    let Some(piece) = input.get(span.start..span.end) else {
        return Err(PostFault::Silent);
    };
    if body.len().saturating_add(piece.len()) > MAX_BODY {
        return Err(PostFault::Silent);
    }
    match body.extend_from_slice(piece) {
        Ok(()) => Ok(()),
        Err(_) => Err(PostFault::Silent),
    }
}
