//! An example of scripts, with boxes of any type.

use super::attaching::counter_specs;
use super::holds;
use super::hosting::sends;
use script_boxes::{Counter, Gate};
use script_host::{Behaviour, ReplaceFault, Scripts};
use std::alloc::Global;
use std::process::Abort;

/// Reports whether a counter at 5 in steps of 2 is replaced by a fresh one, and not by a box of
/// another kind.
fn is_replaced<B: Behaviour>(scripts: &mut Scripts<B>, fresh: B, other: B) -> bool {
    let first = sends(scripts, 0, 7);
    let replaced = scripts.replace(0, fresh);
    let second = sends(scripts, 0, 9);
    let refused = scripts.replace(0, other);
    let third = sends(scripts, 0, 11);
    let answers = replaced == Ok(()) && refused == Err(ReplaceFault::KindDiffers);
    first && second && third && answers
}

fn replaces<B: Behaviour>(alloc: Global, boxes: Vec<B>, fresh: B, other: B) -> bool {
    let specs = counter_specs(alloc, 1);
    let attached = Scripts::attach(alloc, specs.as_slice(), boxes);
    drop(specs);
    let Ok(mut scripts) = attached else {
        drop(fresh);
        drop(other);
        return false;
    };
    let held = is_replaced(&mut scripts, fresh, other);
    scripts.close();
    held
}

#[test]
fn script_replaced(rt: HostRuntime) {
    let alloc = rt.alloc();
    let mut boxes: Vec<Box<dyn Behaviour>> = Vec::new(alloc);
    let counter = Box::new(alloc, Counter::new(5, 2)).expect(&rt, "a box");
    let pushed = boxes.push(counter).is_ok();
    let fresh = Box::new(alloc, Counter::new(0, 1)).expect(&rt, "a box");
    let other = Box::new(alloc, Gate::new(true)).expect(&rt, "a box");
    holds(&rt, replaces(alloc, boxes, fresh, other));
    holds(&rt, pushed);
}
