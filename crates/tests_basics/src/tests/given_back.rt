//! A TimeSensor's state from its parts, and a text that returns its string.

use super::{Row, all_hold, holds};
use sensor_core::{TimeParts, TimeState};
use std::alloc::Global;
use std::process::Abort;
use x3d_lists::Text;

/// Whether a sensor is active, the number of its cycle, and the cycle of the state that has these
/// parts, if there is such a state.
struct Parts(bool, i64, Option<Option<u64>>);

impl Row for Parts {
    fn holds(&self, _alloc: Global) -> bool {
        let state = TimeState::from_parts(TimeParts {
            active: self.0,
            cycle: self.1,
        });
        match state {
            Some(state) => self.2 == Some(state.cycle()),
            None => self.2 == None,
        }
    }
}

static PARTS: [Parts; 4] = [
    Parts(true, 3, Some(Some(3))),
    Parts(false, 0, Some(None)),
    Parts(true, -1, None),
    Parts(false, 1, None),
];

#[test]
fn parts_make_states(rt: HostRuntime) {
    all_hold(&rt, rt.alloc(), &PARTS);
}

/// Reports whether a text returns the string that it was made from.
fn is_given_back(alloc: Global) -> bool {
    let Ok(text) = Text::from_str(alloc, "door") else {
        return false;
    };
    let string = text.into_string();
    string.as_str() == "door"
}

#[test]
fn a_text_gives_its_string_back(rt: HostRuntime) {
    holds(&rt, is_given_back(rt.alloc()));
}
