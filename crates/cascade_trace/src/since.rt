//! The lines of a trace for the inputs from a number on, found from the end.

ghost use Rattle.std.specs.Prelude.{◌≡◌, ◌≤◌, ◌++◌, IfSome, OnOk, count_by, drop, length, pos, slice_get, take, true, false};
ghost use Rattle.std.specs.List.{flat_map};
ghost use Rattle.std.specs.Option.{option_map_or};
ghost use Rattle.x3d_lists.specs.Extends.{Extends};
ghost use Rattle.cascade_trace.specs.Since.{begins_by, takes_value};
ghost use Rattle.cascade_trace.specs.Trace.{lines_of};

use crate::lines::{WritesLines, write_lines};
use crate::trace::{Entry, EntryKind};
use std::alloc::AllocError;
use x3d_values::Value;

/// Reports whether the value of an entry is kept separately.
pub(crate) fn takes_value(entry: &Entry) -> bool
    ensures { result ≡ takes_value entry.now }
{
    matches!(entry.kind, EntryKind::Other)
}

/// Returns the number of separately kept values that the entries take.
fn values_of(entries: &[Entry]) -> usize
    ensures { result ≡ count_by takes_value entries.now }
{
    entries.iter().filter(|entry| takes_value(entry)).count()
}

/// Reports whether an entry is an input whose number is at most `first`.
fn begins_by(entry: &Entry, first: u64) -> bool
    ensures { result ≡ begins_by first entry.now }
{
    match entry.kind {
        EntryKind::Input => entry.input <= first,
        _ => false,
    }
}

/// Returns the place of the last entry that is an input whose number is at most `first`, if there
/// is one.
pub(crate) fn start_of(entries: &[Entry], first: u64) -> Option<usize>
    ensures { IfSome result
        (λ at. option_map_or (begins_by first) (slice_get entries.now at) false ≡ true) }
{
    let count = entries.len();
    for back in 0..count {
        let at = count - 1 - back;
        if begins_by(&entries[at], first) {
            return Some(at);
        }
    }
    None
}

/// Returns the items from a place on.
fn items_from<T>(items: &[T], at: usize) -> &[T]
    requires { at ≤ length items.now }
    ensures { result.now ≡ drop at items.now }
{
    &items[at..]
}

/// Writes the lines of the entries from `at` on. The entry there must be an input, and `values`
/// must hold one value for each entry that takes one. On `AllocError`, `out` may hold a part of the
/// lines.
pub(crate) fn write_lines_at<W: WritesLines>(
    writer: &mut W,
    at: usize,
    entries: &[Entry],
    values: &[Value],
    out: &mut Vec<u8>,
) -> Result<(), AllocError>
    requires inside { at ≤ length entries.now }
    requires counted { count_by takes_value entries.now ≡ length values.now }
    ensures ok { OnOk result (out.new.items
        ≡ out.old.items
        ++ flat_map (W.text writer.old)
        (lines_of (drop at entries.now) 0 (pos 0)
        (drop (count_by takes_value (take at entries.now)) values.now))) }
    ensures kept { Extends out.old.items out.new.items }
{
    let behind = items_from(entries, at);
    let left = values_of(behind);
    let values = items_from(values, values.len() - left);
    write_lines(writer, behind, values, out)
}
