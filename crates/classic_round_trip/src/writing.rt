//! Writing a tree.

ghost use Rattle.std.specs.Prelude.{◌≡◌, ℕ, ◌≤◌, List, ◌++◌, length, OnOk, OnErr};
ghost use Rattle.classic_lex.specs.Header.{max_len};
ghost use Rattle.classic_tree.specs.Writing.{document_text};
ghost use Rattle.classic_text.specs.Spells.{SpellsButLines};
ghost use Rattle.classic_round_trip.specs.AnyLength.{SpellsAtAnyLength};

use classic_tree::Document;
use std::alloc::AllocError;

/// Appends a text of the tree. If any text spells the tree, this one does too, ignoring lines and
/// the limit on its own length. Fails, with the buffer unchanged, if memory runs out.
pub fn write(document: &Document, out: &mut Vec<u8>) -> Result<(), AllocError>
    ensures ok { OnOk result (out.new.items ≡ out.old.items ++ document_text document.now) }
    ensures err { OnErr result (out.new.items ≡ out.old.items) }
    ensures again { (text : List ℕ) → SpellsButLines text document.now
        → SpellsAtAnyLength (document_text document.now) document.now }
    ensures within { (text : List ℕ) → SpellsButLines text document.now
        → length (document_text document.now) ≤ max_len
        → SpellsButLines (document_text document.now) document.now }
{
    classic_tree::write(document, out)
}
