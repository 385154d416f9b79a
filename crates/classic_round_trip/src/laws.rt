//! Laws of texts. Each is the contract of a function that does nothing.

ghost use Rattle.std.specs.Prelude.{ℕ, ◌≤◌, List, length};
ghost use Rattle.classic_lex.specs.Header.{max_len};
ghost use Rattle.classic_tree.specs.Writing.{document_text};
ghost use Rattle.classic_tree.specs.declared.tree.Document.{Document};
ghost use Rattle.classic_text.specs.Spells.{Spells, SpellsButLines};
ghost use Rattle.classic_round_trip.specs.Again.{TextsStay};
ghost use Rattle.classic_round_trip.specs.AnyLength.{SpellsAtAnyLength};
ghost use Rattle.classic_round_trip.specs.Spellable.{IsSpellable};

use classic_text::texts_spell_one_document;

/// Every document that a text spells is spellable.
pub fn spelled_documents_are_spellable()
    ensures with_lines { (text : List ℕ) (d : Document) → Spells text d → IsSpellable d }
    ensures lines_apart { (text : List ℕ) (d : Document) → SpellsButLines text d → IsSpellable d }
{}

/// The text written for a spellable document spells it, ignoring lines and the limit of 16 MiB. If
/// the text is within the limit, it spells the document, ignoring lines.
pub fn spellable_documents_are_written()
    ensures any_length { (d : Document) → IsSpellable d → SpellsAtAnyLength (document_text d) d }
    ensures within { (d : Document) → IsSpellable d → length (document_text d) ≤ max_len
        → SpellsButLines (document_text d) d }
{}

/// If the text written for a spellable document is within the limit of 16 MiB, it spells a
/// document, and writing any document that it spells gives the same text.
pub fn written_texts_stay()
    ensures { TextsStay }
{
    texts_spell_one_document();
}
