//! The two forms of a datagram that has the number of an input.

ghost use Rattle.std.specs.Prelude.{◌≡◌, ◌+◌, ◌≤◌, ◌<◌, ◌^◌, ◌++◌, length};
ghost use Rattle.std.specs.Option.{option_map};
ghost use Rattle.byte_codec.specs.Codec.{number, number_text};
ghost use Rattle.share_wire.specs.Forms as spec;

use crate::packet::{Packet, push_u32, push_u64};
use byte_codec::{u32_of, u64_of};
use x3d_values::MAX_SHORT_NUMBER;

/// The largest number of a next input, or of a floor, that is sent in the short form.
pub(crate) const MAX_SHORT_NEXT: u64 = MAX_SHORT_NUMBER + 1;

/// How a datagram has the number of an input.
#[derive(Clone, Copy)]
pub(crate) enum Form {
    /// In 4 bytes.
    Short,
    /// In 8 bytes.
    Long,
}

/// Returns the form in which a number is sent: numbers up to `most` in the short one.
pub(crate) fn form_of(most: u64, number: u64) -> Form
    ensures { result ≡ spec.form_of most number }
{
    if number <= most {
        Form::Short
    } else {
        Form::Long
    }
}

/// Reports whether a number is sent in this form.
pub(crate) fn has_form(form: Form, most: u64, number: u64) -> bool
    ensures { result ≡ spec.has_form form most number }
{
    match form {
        Form::Short => number <= most,
        Form::Long => number > most,
    }
}

/// Returns the tag of the short form, or that of the long one.
pub(crate) fn tag_in(form: Form, short: u8, long: u8) -> u8
    ensures { result ≡ spec.tag_in form short long }
{
    match form {
        Form::Short => short,
        Form::Long => long,
    }
}

/// Reads a number in its form. Returns `None` if there are too few bytes.
pub(crate) fn number_of(form: Form, bytes: &[u8]) -> Option<(u64, &[u8])>
    ensures { option_map (λ r. (r.0, r.1.now)) result
        ≡ (number (spec.width_of form)).read bytes.now }
{
    match form {
        Form::Short => {
            let Some((number, rest)) = u32_of(bytes) else {
                return None;
            };
            Some((u64::from(number), rest))
        }
        Form::Long => u64_of(bytes),
    }
}

/// Appends a number in its form.
pub(crate) fn push_number(out: &mut Packet, most: u64, number: u64)
    requires room { length out.old.items + 8 ≤ 256 }
    requires few { most < 2 ^ 32 }
    ensures text { out.new.items
        ≡ out.old.items ++ number_text (spec.width_of (spec.form_of most number)) number }
    ensures len { length out.new.items ≤ length out.old.items + 8 }
{
    match form_of(most, number) {
        Form::Short => push_u32(out, number as u32),
        Form::Long => push_u64(out, number),
    }
}
