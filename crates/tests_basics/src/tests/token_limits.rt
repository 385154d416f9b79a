//! The longest text, the messages of faults, and growths that are refused.

use super::{Row, Said, all_hold, holds};
use classic_lex::{LexFault, LexFaultKind, MAX_LEN, lex};
use std::alloc::Global;
use std::process::Abort;
use tests_memory::{Outcome, Spared, UsedUp, is_refused_until_enough};

/// Reports whether a text of 16 MiB is cut into tokens, and has none.
fn is_cut(alloc: Global) -> bool {
    let mut text = Vec::new(alloc);
    let made = text.extend_from_slice(b"#X3D V3.0 utf8\n").is_ok();
    let filled = text.resize(MAX_LEN, b' ').is_ok();
    let cut = lex(alloc, text.as_slice());
    drop(text);
    match cut {
        Ok(tokens) => made & filled & tokens.is_empty(),
        Err(_) => false,
    }
}

#[test]
fn a_text_may_have_16_mib(rt: HostRuntime) {
    holds(&rt, is_cut(rt.alloc()));
}

const OPEN_STRING: LexFault = LexFault {
    kind: LexFaultKind::OpenString,
    line: 7,
};

const MEMORY: LexFault = LexFault {
    kind: LexFaultKind::Memory,
    line: 0,
};

static SAID: [Said<LexFault>; 2] = [
    Said(OPEN_STRING, "line 7: a string is not closed"),
    Said(MEMORY, "memory was refused"),
];

#[test]
fn faults_are_shown(rt: HostRuntime) {
    all_hold(&rt, rt.alloc(), &SAID);
}

/// Cuts a text into tokens.
struct Cut;

impl Spared<Vec<u8>> for Cut {
    fn work(&self, alloc: Global, text: &mut Vec<u8>, memory: &mut UsedUp) -> Outcome {
        memory.run_short();
        let fault = lex(alloc, text.as_slice()).err();
        memory.come_back();
        Outcome::of(fault.is_none(), fault == Some(MEMORY))
    }
}

/// The number of nodes of a text, and the least number of turns in which memory is refused.
struct Refused(usize, usize);

impl Row for Refused {
    fn holds(&self, alloc: Global) -> bool {
        let mut text = Vec::new(alloc);
        let mut made = text.extend_from_slice(b"#X3D V3.0 utf8\n").is_ok();
        for _ in 0..self.0 {
            made &= text.extend_from_slice(b"Group {}\n").is_ok();
        }
        let refused = is_refused_until_enough(alloc, &Cut, &mut text, self.1);
        drop(text);
        made && refused
    }
}

/// The first list is of four tokens; for many tokens it doubles again and again.
static REFUSED: [Refused; 2] = [Refused(1, 3), Refused(100, 300)];

#[test]
fn each_refused_growth_is_memory_without_a_line(rt: HostRuntime) {
    all_hold(&rt, rt.alloc(), &REFUSED);
}
