//! Whether all lines of a trace pass a test.

ghost use Rattle.std.specs.Prelude.{◌≡◌, ◌∷◌, Bool, List, Some, None, drop, false, pos, slice_get, true, if◌then◌else◌};
ghost use Rattle.std.specs.List.{list_all};
ghost use Rattle.std.specs.Option.{option_map, option_map_or};
ghost use Rattle.cascade_trace.specs.Trace.{line, lines_of, plain_value};
ghost use Rattle.cascade_trace.specs.declared.trace.Entry.{Entry as EntryView};
ghost use Rattle.cascade_trace.specs.declared.trace.TraceLine.{TraceLine as LineView};

use crate::lines::{LineHead, Moment, head_of, moment_of, plain_value};
use crate::trace::{Entry, EntryKind};
use x3d_values::Value;

/// A test for the lines of a trace.
pub trait TestsLines {
    /// The lines that pass.
    ghost passing: { Self → LineView → Bool };

    /// Reports whether a line passes.
    fn passes(&self, head: LineHead, value: &Value) -> bool
        ensures { result
            ≡ passing self.now (line head.input head.time head.source value.now) };
}

/// Reports whether the line of an event whose entry holds the value passes. True if there is no
/// such line.
fn plain_passes<T: TestsLines>(test: &T, head: LineHead, entry: Entry) -> bool
    ensures { result
        ≡ option_map_or
        (λ v. T.passing test.now (line head.input head.time head.source v))
        (plain_value entry.kind entry.word) true }
{
    match plain_value(entry.kind, entry.word) {
        Some(value) => {
            let passed = test.passes(head, &value);
            drop(value);
            passed
        }
        None => true,
    }
}

/// Returns the remaining values if the line of an event whose value is the first of `values`
/// passes. If there are no values there is no line, and `values` is returned.
fn aside_passes<'a, T: TestsLines>(
    test: &T,
    head: LineHead,
    values: &'a [Value],
) -> Option<&'a [Value]>
    ensures { option_map (λ left. left.now) result
        ≡ (if option_map_or
        (λ v. T.passing test.now (line head.input head.time head.source v))
        (slice_get values.now 0) true
        then Some (drop 1 values.now) else None) }
{
    match values {
        [] => Some(values),
        [value, left @ ..] => {
            if test.passes(head, value) {
                Some(left)
            } else {
                None
            }
        }
    }
}

/// Returns the remaining values if the line of an entry passes or the entry has no line. An input
/// entry sets the moment, which the following lines then have.
fn entry_passes<'a, T: TestsLines>(
    test: &T,
    moment: &mut Moment,
    entry: Entry,
    values: &'a [Value],
) -> Option<&'a [Value]>
    ensures { (es : List EntryView)
        → option_map_or
        (λ left. list_all (T.passing test.now)
        (lines_of es moment.new.input moment.new.time left.now)) result false
        ≡ list_all (T.passing test.now)
        (lines_of (entry ∷ es) moment.old.input moment.old.time values.now) }
{
    let head = head_of(*moment, entry);
    match entry.kind {
        EntryKind::Input => {
            *moment = moment_of(entry);
            Some(values)
        }
        EntryKind::Other => aside_passes(test, head, values),
        _ => {
            if plain_passes(test, head, entry) {
                Some(values)
            } else {
                None
            }
        }
    }
}

/// Reports whether the lines of entries all pass; `values` are those that are kept separately.
#[tactic(auto, unfolding(crate::specs::Trace::lines_of))]
pub(crate) fn all_pass<T: TestsLines>(test: &T, entries: &[Entry], values: &[Value]) -> bool
    ensures { result
        ≡ list_all (T.passing test.now) (lines_of entries.now 0 (pos 0) values.now) }
{
    let mut moment = Moment { input: 0, time: 0 };
    let mut left = values;
    for entry in entries {
        let Some(after) = entry_passes(test, &mut moment, *entry, left) else {
            return false;
        };
        left = after;
    }
    true
}
