//! Which calls of a meter take memory.

use super::holds;
use script_boxes::Meter;
use script_host::Behaviour;
use std::alloc::Global;
use std::process::Abort;
use tests_memory::UsedUp;

const READINGS: [i64; 8] = [1, 2, 3, 4, 5, 6, 7, 8];

/// Returns the mean that is sent at a ninth reading.
fn mean(meter: &mut Meter) -> Option<i64> {
    let replies = meter.receive(0, [9, 0, 0]);
    replies.as_slice().first().map(|reply| reply.numbers[0])
}

/// Reports whether the state is returned.
fn tells(alloc: Global, meter: &Meter) -> bool {
    let mut state = Vec::new(alloc);
    let told = meter.state(&mut state).is_ok();
    drop(state);
    told
}

/// Reports whether checking a state, restoring a meter and receiving a reading take no memory, and
/// returning the state and making a meter do.
fn works(alloc: Global, meter: &mut Meter) -> bool {
    let Ok(used_up) = UsedUp::new(alloc) else {
        return false;
    };
    let fits = meter.fits(&READINGS);
    let restored = meter.restore(&READINGS);
    let mean = mean(meter);
    let told = tells(alloc, meter);
    let made = Meter::new(alloc).err().is_none();
    drop(used_up);
    fits == Ok(()) && restored == Ok(()) && mean == Some(5) && !told && !made
}

fn takes_memory(alloc: Global) -> bool {
    let Ok(mut meter) = Meter::new(alloc) else {
        return false;
    };
    let worked = works(alloc, &mut meter);
    let told = tells(alloc, &meter);
    drop(meter);
    worked && told
}

#[test]
fn a_meter_takes_memory_where_it_is_made_and_where_it_tells_its_state(rt: HostRuntime) {
    holds(&rt, takes_memory(rt.alloc()));
}
