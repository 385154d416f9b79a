//! The numbers of the kinds of what was left out.

ghost use Rattle.std.specs.Prelude.{◌≡◌};
ghost use Rattle.embed_parts.specs.LeftOut as spec;

use classic_lenient::UnreadKind;
use classic_part::NoteKind;

/// Returns the number of a note's kind. A list has no note on what stays.
pub(crate) fn note_number(kind: NoteKind) -> u8
    ensures { result ≡ spec.note_number kind }
{
    match kind {
        NoteKind::Node => 0,
        NoteKind::Grouped => 1,
        NoteKind::Field => 2,
        NoteKind::Turned => 3,
        NoteKind::Use => 4,
        NoteKind::Route => 5,
        NoteKind::Proto => 6,
        NoteKind::Refused => 7,
        NoteKind::Named => 13,
        NoteKind::Declared => 13,
    }
}

/// Returns the number of a statement that isn't read.
pub(crate) fn unread_number(kind: UnreadKind) -> u8
    ensures { result ≡ spec.unread_number kind }
{
    match kind {
        UnreadKind::ExternProto => 8,
        UnreadKind::Import => 9,
        UnreadKind::Export => 10,
        UnreadKind::Unit => 11,
        UnreadKind::Declaration => 12,
    }
}
