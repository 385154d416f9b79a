//! A law of formatted scenes: the contract of a function that does nothing.

ghost use Rattle.app_program.specs.Formatting.{FormattedTextsStay};

use classic_round_trip::{
    spellable_documents_are_written, spelled_documents_are_spellable, written_texts_stay,
};

/// What `format_text` writes stays the same bytes when `format_text` reads it, within the limit of
/// 16 MiB. `format_text` then fails for a device or for memory alone.
pub fn formatted_texts_stay()
    ensures { FormattedTextsStay }
{
    spelled_documents_are_spellable();
    spellable_documents_are_written();
    written_texts_stay();
}
