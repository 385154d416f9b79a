//! Lists and texts: each call that takes memory, with memory and without.

use super::{holds, list_of};
use std::alloc::{AllocError, Global};
use std::process::Abort;
use tests_memory::UsedUp;
use x3d_lists::{Duplicate, Items, Text};

fn push_word(alloc: Global, words: &mut Items<Text>, word: &str) -> Result<(), AllocError> {
    words.push(Text::from_str(alloc, word)?)
}

/// Returns two texts, or fewer if memory is refused.
pub(super) fn words(alloc: Global) -> Items<Text> {
    let mut words = Items::new(alloc);
    let _both = push_word(alloc, &mut words, "door").is_ok()
        && push_word(alloc, &mut words, "lamp").is_ok();
    words
}

/// Reports whether a copy equals the list, and has its second text.
fn is_copied(alloc: Global, words: &Items<Text>) -> bool {
    let Ok(copy) = words.duplicate(alloc) else {
        return false;
    };
    let second = match copy.get(1) {
        Some(word) => word.as_str() == "lamp",
        None => false,
    };
    let same = copy == *words;
    drop(copy);
    same && second
}

/// Reports whether a copy, a push, a list and a text are refused if no memory is left.
fn are_refused(alloc: Global, words: &Items<Text>) -> bool {
    let Ok(used_up) = UsedUp::new(alloc) else {
        return false;
    };
    let mut numbers: Items<i64> = Items::new(alloc);
    let pushed = numbers.push(1).is_err();
    drop(numbers);
    let copied = words.duplicate(alloc).err().is_some();
    let list = Items::from_slice(alloc, &[1, 2]).err().is_some();
    let text = Text::from_str(alloc, "door").err().is_some();
    drop(used_up);
    copied && pushed && list && text
}

fn are_so(alloc: Global) -> bool {
    let words = words(alloc);
    let copied = is_copied(alloc, &words);
    let refused = are_refused(alloc, &words);
    drop(words);
    copied && refused
}

/// Reports whether a list has the items of a slice.
fn has_its_numbers(alloc: Global) -> bool {
    let numbers = list_of(alloc, &[1, 2, 3]);
    let same = numbers.as_slice() == [1, 2, 3].as_slice();
    drop(numbers);
    same
}

#[test]
fn lists_grow_and_are_copied_or_a_refused_growth_is_answered(rt: HostRuntime) {
    holds(&rt, are_so(rt.alloc()));
    holds(&rt, has_its_numbers(rt.alloc()));
}
