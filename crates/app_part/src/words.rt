//! The words of the lines on what was left out.

ghost use Rattle.std.specs.Prelude.{◌≡◌};
ghost use Rattle.app_part.specs.Words as spec;

use classic_lenient::UnreadKind;
use classic_part::NoteKind;

/// Returns what is before the name in a note's line.
pub(crate) fn before_name(kind: NoteKind) -> &'static str
    ensures { result.now ≡ spec.before_name kind }
{
    match kind {
        NoteKind::Named => "",
        NoteKind::Declared => "",
        NoteKind::Grouped => "node ",
        NoteKind::Node => "node ",
        NoteKind::Field => "field ",
        NoteKind::Turned => "field ",
        NoteKind::Use => "USE ",
        NoteKind::Route => "ROUTE left out: no node ",
        NoteKind::Proto => "PROTO ",
        NoteKind::Refused => "",
    }
}

/// Returns what is after the name in a note's line.
pub(crate) fn after_name(kind: NoteKind) -> &'static str
    ensures { result.now ≡ spec.after_name kind }
{
    match kind {
        NoteKind::Named => "",
        NoteKind::Declared => "",
        NoteKind::Grouped => " read as a group",
        NoteKind::Node => " left out",
        NoteKind::Field => " left out",
        NoteKind::Turned => " left out: it turns, which changes the picture",
        NoteKind::Use => " left out: no node has this name",
        NoteKind::Route => "",
        NoteKind::Proto => " left out: its body has no node",
        NoteKind::Refused => " left out: ",
    }
}

/// Returns what is before the name in the line of a statement that isn't read.
pub(crate) fn before_unread(kind: UnreadKind) -> &'static str
    ensures { result.now ≡ spec.before_unread kind }
{
    match kind {
        UnreadKind::ExternProto => "EXTERNPROTO ",
        UnreadKind::Import => "IMPORT ",
        UnreadKind::Export => "EXPORT ",
        UnreadKind::Unit => "UNIT ",
        UnreadKind::Declaration => "declaration ",
    }
}

/// Returns what is after the name in the line of a statement that isn't read.
pub(crate) fn after_unread(kind: UnreadKind) -> &'static str
    ensures { result.now ≡ spec.after_unread kind }
{
    match kind {
        UnreadKind::ExternProto => " left out",
        UnreadKind::Import => " left out",
        UnreadKind::Export => " left out",
        UnreadKind::Unit => " left out",
        UnreadKind::Declaration => " left out: its type is not read",
    }
}

/// Reports whether a note is of a node that became a group.
pub(crate) fn is_grouped(kind: NoteKind) -> bool
    ensures { result ≡ spec.is_grouped kind }
{
    matches!(kind, NoteKind::Grouped)
}

/// Reports whether a note is of what was left out for a fault.
pub(crate) fn is_refused(kind: NoteKind) -> bool
    ensures { result ≡ spec.is_refused kind }
{
    matches!(kind, NoteKind::Refused)
}
