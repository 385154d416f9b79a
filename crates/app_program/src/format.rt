//! Writes the text of a scene's document.

ghost use Rattle.std.specs.Prelude.{◌≡◌, ◌⊎◌, IfOk, IfErr, OnOk, List, ℕ};
ghost use Rattle.classic_tree.specs.Writing.{document_text};
ghost use Rattle.classic_tree.specs.declared.tree.Document.{Document as DocumentOf};
ghost use Rattle.classic_text.specs.Spells.{Spells};
ghost use Rattle.classic_round_trip.specs.AnyLength.{SpellsAtAnyLength};
ghost use Rattle.app_program.specs.Formatting.{IsDocumentRead, IsNoText, IsFormatted, IsUnwritten};
ghost use Rattle.app_program.specs.Opening.{IsDeviceOrMemory};

use crate::stream::read_whole;
use crate::texts::write_made;
use app_jobs::JobFault;
use classic_round_trip::{spellable_documents_are_written, spelled_documents_are_spellable, write};
use classic_text::read;
use classic_tree::Document;
use std::alloc::{AllocError, Global};
use std::io::{Read, Write};

/// Reads a scene to its end, and writes the text of its document. The whole text is made before the
/// first byte is written.
///
/// Fails with `Device` if the reader or the writer fails or if the end is not reached in 2^27
/// reads, with `Memory` if memory is refused, or else with the first fault of the text. On failure
/// nothing is written, unless the writer fails.
pub fn format_text<R: Read, W: Write>(
    alloc: Global,
    reader: &mut R,
    writer: &mut W,
) -> Result<(), JobFault>
    ensures ok { OnOk result (IsFormatted (R.remaining reader.old) (R.remaining reader.new)
        (W.contents writer.old) (W.contents writer.new)) }
    ensures refused { IfErr result (λ f. IsDeviceOrMemory f
        ⊎ IsNoText (R.remaining reader.old) (R.remaining reader.new) f) }
    ensures nothing { IfErr result (IsUnwritten (R.remaining reader.old) (R.remaining reader.new)
        (W.contents writer.old) (W.contents writer.new)) }
{
    write_made(writer, read_text(alloc, reader))
}

/// Returns the text of the document that a reader has left.
fn read_text<R: Read>(alloc: Global, reader: &mut R) -> Result<Vec<u8>, JobFault>
    ensures text { IfOk result (λ v. (d : DocumentOf)
        × IsDocumentRead (R.remaining reader.old) (R.remaining reader.new) d
        × (v.items ≡ document_text d)
        × SpellsAtAnyLength (document_text d) d) }
    ensures refused { IfErr result (λ f. IsDeviceOrMemory f
        ⊎ IsNoText (R.remaining reader.old) (R.remaining reader.new) f) }
{
    let document = read_document(alloc, reader)?;
    let text = text_of(alloc, &document);
    // For the prover: an explicit call. The drop of a document would be proved at each exit.
    drop(document);
    Ok(text?)
}

/// Returns the document that a reader has left.
fn read_document<R: Read>(alloc: Global, reader: &mut R) -> Result<Document, JobFault>
    ensures read { IfOk result (IsDocumentRead (R.remaining reader.old) (R.remaining reader.new)) }
    ensures refused { IfErr result (λ f. IsDeviceOrMemory f
        ⊎ IsNoText (R.remaining reader.old) (R.remaining reader.new) f) }
{
    let bytes = read_whole(alloc, reader)?;
    Ok(read(alloc, bytes.as_slice())?)
}

/// Returns the text of a document. If any text spells the document, the returned one does.
fn text_of(alloc: Global, document: &Document) -> Result<Vec<u8>, AllocError>
    ensures text { IfOk result (λ v. v.items ≡ document_text document.now) }
    ensures again { (text : List ℕ) → Spells text document.now
        → SpellsAtAnyLength (document_text document.now) document.now }
{
    spelled_documents_are_spellable();
    spellable_documents_are_written();
    let mut out = Vec::new(alloc);
    write(document, &mut out)?;
    Ok(out)
}
