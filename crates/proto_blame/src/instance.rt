//! Which instance a scene's fault is about.

ghost use Rattle.std.specs.Prelude.{◌≡◌, IfOk};
ghost use Rattle.classic_text.specs.Reading.{read_text};
ghost use Rattle.proto_meaning.specs.Flat.{flat};
ghost use Rattle.proto_blame.specs.Instance as spec;

use crate::document::blamed;
use crate::relining::relined;
use classic_text::{ReadFaultKind, read};
use classic_tree::Document;
use proto_expand::expand;
use proto_flat::{ExpandFaultKind, Flat};
use scene_core::{Scene, SceneFaultKind};
use std::alloc::{AllocError, Global};

fn is_read_memory(kind: ReadFaultKind) -> bool
    ensures { result ≡ spec.is_read_memory kind }
{
    matches!(kind, ReadFaultKind::Memory)
}

fn is_expand_memory(kind: ExpandFaultKind) -> bool
    ensures { result ≡ spec.is_expand_memory kind }
{
    matches!(kind, ExpandFaultKind::Memory)
}

fn is_scene_memory(kind: SceneFaultKind) -> bool
    ensures { result ≡ spec.is_scene_memory kind }
{
    matches!(kind, SceneFaultKind::Memory)
}

/// Returns the document of a text, if the text has one.
fn document_of(alloc: Global, text: &[u8]) -> Result<Option<Document>, AllocError>
    ensures { IfOk result (λ d. d ≡ spec.ok_of (read_text text.now)) }
{
    match read(alloc, text) {
        Ok(document) => Ok(Some(document)),
        Err(fault) => {
            if is_read_memory(fault.kind) {
                return Err(AllocError);
            }
            Ok(None)
        }
    }
}

/// Returns the flat form of a document, if the document has one.
fn flat_of(alloc: Global, document: Document) -> Result<Option<Flat>, AllocError>
    ensures { IfOk result (λ f. f ≡ spec.ok_of (flat document)) }
{
    match expand(alloc, document) {
        Ok(flat) => Ok(Some(flat)),
        Err(fault) => {
            if is_expand_memory(fault.kind) {
                return Err(AllocError);
            }
            Ok(None)
        }
    }
}

/// Returns the line of the fault of a flat document's scene, or 0.
fn scene_line(alloc: Global, flat: &Flat) -> Result<u32, AllocError>
    ensures { IfOk result (λ line. line ≡ spec.scene_line flat.now) }
{
    match Scene::build(alloc, flat) {
        Ok(scene) => {
            drop(scene);
            Ok(0)
        }
        Err(fault) => {
            if is_scene_memory(fault.kind) {
                return Err(AllocError);
            }
            Ok(fault.line)
        }
    }
}

/// Returns the line of the instance, by the flat document and that of the blamed document.
fn flat_line(alloc: Global, blames: Flat, flat: Flat) -> Result<u32, AllocError>
    ensures { IfOk result (λ line. line ≡ spec.flat_line blames flat) }
{
    let lined = relined(alloc, &blames, flat);
    drop(blames);
    let lined = lined?;
    let line = scene_line(alloc, &lined);
    drop(lined);
    line
}

/// Returns the line of the instance, by the flat document and the blamed document.
fn blamed_line(alloc: Global, blames: Document, flat: Flat) -> Result<u32, AllocError>
    ensures { IfOk result (λ line. line ≡ spec.blamed_line blames flat) }
{
    match flat_of(alloc, blames) {
        Ok(Some(blames)) => flat_line(alloc, blames, flat),
        Ok(None) => {
            drop(flat);
            Ok(0)
        }
        Err(refused) => {
            drop(flat);
            Err(refused)
        }
    }
}

/// Returns the line of the instance in a document.
fn document_line(alloc: Global, document: Document) -> Result<u32, AllocError>
    ensures { IfOk result (λ line. line ≡ spec.document_line document) }
{
    let Ok(blames) = blamed(alloc, &document) else {
        drop(document);
        return Err(AllocError);
    };
    match flat_of(alloc, document) {
        Ok(Some(flat)) => blamed_line(alloc, blames, flat),
        Ok(None) => {
            drop(blames);
            Ok(0)
        }
        Err(refused) => {
            drop(blames);
            Err(refused)
        }
    }
}

/// Returns the line of the instance whose braces hold the value of the field at fault, if a text is
/// refused for the value of a field. Returns 0 if no instance's braces do, and for any other text.
/// Fails if memory runs out.
pub fn instance_line(alloc: Global, text: &[u8]) -> Result<u32, AllocError>
    ensures { IfOk result (λ line. line ≡ spec.instance_line text.now) }
{
    match document_of(alloc, text)? {
        Some(document) => document_line(alloc, document),
        None => Ok(0),
    }
}
