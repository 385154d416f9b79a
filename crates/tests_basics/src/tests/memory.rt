//! Memory that is used up: a growth is refused, and granted if enough bytes are left.

use super::holds;
use std::alloc::{AllocError, Global};
use std::process::Abort;
use tests_memory::{Outcome, Spared, UsedUp, is_refused_until_enough};

/// Reports whether a growth is refused while memory is used up, and granted afterwards.
fn refuses_and_gives(alloc: Global) -> bool {
    let Ok(used_up) = UsedUp::new(alloc) else {
        return false;
    };
    let mut more: Vec<u8> = Vec::new(alloc);
    let refused = more.push(1).is_err() && used_up.count() > 0;
    drop(used_up);
    let given = more.push(1).is_ok();
    drop(more);
    refused && given
}

/// Reports whether growths that together fit in the remaining memory are granted, and no further
/// one.
fn gives_what_is_left(alloc: Global) -> bool {
    let Ok(used_up) = UsedUp::but_for(alloc, 160) else {
        return false;
    };
    let mut first: Vec<u8> = Vec::new(alloc);
    let mut second: Vec<u8> = Vec::new(alloc);
    let mut third: Vec<u8> = Vec::new(alloc);
    let given = first.reserve_exact(40).is_ok() & second.reserve_exact(100).is_ok();
    let refused = third.reserve_exact(1).is_err();
    drop(third);
    drop(second);
    drop(first);
    drop(used_up);
    given && refused
}

#[test]
fn nothing_is_left_but_what_is_to_be(rt: HostRuntime) {
    holds(&rt, refuses_and_gives(rt.alloc()));
    holds(&rt, gives_what_is_left(rt.alloc()));
}

/// Adds `count` lists of 100 bytes. Fails at the first that is refused memory.
fn pushed(lists: &mut Vec<Vec<u8>>, count: usize) -> Result<(), AllocError> {
    let alloc = *lists.allocator();
    for _list in 0..count {
        lists.push(Vec::with_capacity(alloc, 100)?)?;
    }
    Ok(())
}

/// Makes lists, each in a block of 112 bytes, with room for the list of them made before. Counts
/// the turns by how many lists were made when memory was refused.
struct Lists(usize);

/// The number of turns in which each number of lists was made.
type Made = [u32; 4];

impl Spared<Made> for Lists {
    fn work(&self, alloc: Global, made: &mut Made, memory: &mut UsedUp) -> Outcome {
        let mut lists = Vec::new(alloc);
        let ready = lists.reserve_exact(self.0).is_ok();
        memory.run_short();
        let answer = pushed(&mut lists, self.0);
        memory.come_back();
        if let Some(turns) = made.get_mut(lists.len()) {
            *turns = turns.saturating_add(1);
        }
        drop(lists);
        Outcome::of(ready & answer.is_ok(), answer.is_err())
    }
}

/// Each list is the first to be refused in 7 turns; each turn has 16 bytes more than the one
/// before.
#[test]
fn each_growth_is_the_first_that_is_refused(rt: HostRuntime) {
    let mut made: Made = [0; 4];
    let refused = is_refused_until_enough(rt.alloc(), &Lists(3), &mut made, 21);
    holds(&rt, refused);
    holds(&rt, made == [7, 7, 7, 1]);
}
