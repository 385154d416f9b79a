//! The fields that were set after an input, with the numbers of their values.

ghost use Rattle.std.specs.Prelude.{◌≡◌, ◌++◌, ◌-◌, ◌≤◌, ◌∷◌, [], IfOk, OnOk, length};
ghost use Rattle.std.specs.List.{fold};
ghost use Rattle.embed_changes.specs.Changes.{change_of, changes_after, listed, with_value};
ghost use Rattle.embed_changes.specs.Numbers.{numbers_of};

use crate::numbers::push_numbers;
use crate::outputs::note_after;
use crate::value::value_now;
use cascade_trace::{SentBits, Trace};
use embed_scene::type_number;
use scene_core::{End, Scene};
use std::alloc::{AllocError, Global};
use std::marker::Model;
use x3d_values::{Fields, Value};

/// A field that was set: its type, and where the numbers of its current value are in the list of
/// all numbers.
#[derive(Clone, Copy)]
#[repr(C)]
pub struct Change {
    pub node: u32,
    pub field: u16,
    pub value_type: u8,
    pub first: u32,
    pub count: u32,
}

const _: () = prove!(size_of::<Change>() == 16);

/// Returns a length as C has it. Fails if it is above 2^32 - 1.
fn length_of(count: usize) -> Result<u32, AllocError>
    ensures { IfOk result (λ n. n ≡ count) }
{
    match u32::try_from(count) {
        Ok(count) => Ok(count),
        Err(_above) => Err(AllocError),
    }
}

/// Returns the change of a field with this value, whose numbers lie from `first` to `end`.
fn change_of(source: End, value: &Value, first: usize, end: usize) -> Result<Change, AllocError>
    requires { first ≤ end }
    ensures { IfOk result (λ change. change ≡ change_of source value.now first (end - first)) }
{
    let count = length_of(end - first)?;
    let first = length_of(first)?;
    Ok(Change {
        node: source.node,
        field: source.field,
        value_type: type_number(value.field_type()),
        first,
        count,
    })
}

/// Appends a field with this value. On an error, part of it may be appended.
fn push_value(
    source: End,
    value: &Value,
    changes: &mut Vec<Change>,
    numbers: &mut Vec<i64>,
) -> Result<(), AllocError>
    ensures changes { OnOk result (changes.new.items
        ≡ changes.old.items ++ change_of source value.now (length numbers.old.items)
        (length (numbers_of value.now)) ∷ []) }
    ensures numbers { OnOk result
        (numbers.new.items ≡ numbers.old.items ++ numbers_of value.now) }
{
    let first = numbers.len();
    push_numbers(value, numbers)?;
    let change = change_of(source, value, first, numbers.len())?;
    changes.push(change)?;
    Ok(())
}

/// Appends a field with its current value, if it holds one. On an error, part of it may be
/// appended.
fn push_field(
    scene: &Scene,
    state: &[Fields],
    source: End,
    changes: &mut Vec<Change>,
    numbers: &mut Vec<i64>,
) -> Result<(), AllocError>
    ensures { OnOk result ((changes.new.items, numbers.new.items)
        ≡ listed scene.now state.now (changes.old.items, numbers.old.items) source) }
{
    let Some(value) = value_now(scene, state, source.node, source.field) else {
        return Ok(());
    };
    push_value(source, value, changes, numbers)
}

/// Appends fields with their current values. On an error, part of them may be appended.
fn push_fields(
    scene: &Scene,
    state: &[Fields],
    outputs: &[End],
    changes: &mut Vec<Change>,
    numbers: &mut Vec<i64>,
) -> Result<(), AllocError>
    ensures { OnOk result ((changes.new.items, numbers.new.items)
        ≡ fold (listed scene.now state.now) (changes.old.items, numbers.old.items) outputs.now) }
{
    for source in outputs {
        push_field(scene, state, *source, changes, numbers)?;
    }
    Ok(())
}

/// The fields that were set after an input, with the marks of those that are listed.
#[derive(Drop)]
pub struct ChangeList {
    marks: SentBits,
    changes: Vec<Change>,
}

impl Model for ChangeList {
    ghost use Rattle.std.specs.Prelude.{List};
    ghost use Rattle.embed_changes.specs.declared.changes.Change.{Change};

    ghost Value = { List Change };

    ghost view = { λ l. l.changes.items };
}

impl ChangeList {
    ghost use Rattle.std.specs.Prelude.{◌≡◌, [], IfOk, OnErr, OnOk};
    ghost use Rattle.embed_changes.specs.Changes.{changes_after};

    /// Makes an empty list, for one scene. Fails if memory runs out.
    pub fn new(alloc: Global, scene: &Scene) -> Result<ChangeList, AllocError>
        ensures { IfOk result (λ list. list ≡ []) }
    {
        let marks = SentBits::new(alloc, scene)?;
        Ok(ChangeList {
            marks,
            changes: Vec::new(alloc),
        })
    }

    /// Returns what was listed last.
    pub fn as_slice(&self) -> &[Change]
        ensures { result.now ≡ self.now }
    {
        self.changes.as_slice()
    }

    /// Empties the list.
    pub fn clear(&mut self)
        ensures { self.new ≡ [] }
    {
        self.changes.clear();
    }

    /// Appends the fields that lines of inputs after `since` name. On an error, part of them may be
    /// appended.
    fn push_changes(
        &mut self,
        scene: &Scene,
        state: &[Fields],
        trace: &Trace,
        since: u64,
        numbers: &mut Vec<i64>,
    ) -> Result<(), AllocError>
        requires no_changes { self.old ≡ [] }
        requires no_numbers { numbers.old.items ≡ [] }
        ensures { OnOk result ((self.new, numbers.new.items)
            ≡ changes_after scene.now state.now trace.now since) }
    {
        note_after(*self.changes.allocator(), trace, since, &mut self.marks)?;
        push_fields(
            scene,
            state,
            self.marks.as_slice(),
            &mut self.changes,
            numbers,
        )
    }

    /// Lists the fields that lines of inputs after `since` name, each once, in the order of their
    /// first lines, and the numbers of their current values, if `state` holds what each node of the
    /// scene keeps. A field that only sends holds no value and is left out. Takes time for these
    /// lines, those of one input before them and the numbers, but not for the scene.
    ///
    /// Fails if memory runs out, or if there are more than 2^32 - 1 numbers. Both lists are then
    /// empty.
    pub fn list(
        &mut self,
        scene: &Scene,
        state: &[Fields],
        trace: &Trace,
        since: u64,
        numbers: &mut Vec<i64>,
    ) -> Result<(), AllocError>
        ensures ok { OnOk result ((self.new, numbers.new.items)
            ≡ changes_after scene.now state.now trace.now since) }
        ensures no_changes { OnErr result (self.new ≡ []) }
        ensures no_numbers { OnErr result (numbers.new.items ≡ []) }
    {
        self.changes.clear();
        numbers.clear();
        let listed = self.push_changes(scene, state, trace, since, numbers);
        if listed.is_err() {
            self.changes.clear();
            numbers.clear();
        }
        listed
    }
}
