//! A law of texts. It is the contract of a function that does nothing.

ghost use Rattle.std.specs.Prelude.{◌≡◌, ℕ, List};
ghost use Rattle.classic_text.specs.Spells.{Spells};
ghost use Rattle.classic_tree.specs.declared.tree.Document.{Document};

/// A text spells at most one document.
pub fn texts_spell_one_document()
    ensures { (text : List ℕ) (some other : Document) → Spells text some → Spells text other
        → some ≡ other }
{}
