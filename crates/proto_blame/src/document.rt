//! The blamed document of a document.

ghost use Rattle.std.specs.Prelude.{◌≡◌, IfOk};
ghost use Rattle.proto_blame.specs.Blamed as spec;

use crate::walk::statements_blamed;
use classic_tree::Document;
use std::alloc::{AllocError, Global};
use x3d_lists::Items;

/// Returns the blamed document of a document: its nodes and prototypes, in which each value is a
/// blame of the instance whose braces hold it. Fails if memory runs out.
pub(crate) fn blamed(alloc: Global, document: &Document) -> Result<Document, AllocError>
    ensures { IfOk result (λ d. d ≡ spec.blamed document.now) }
{
    let statements = statements_blamed(alloc, document.statements.as_slice())?;
    Ok(Document {
        version: document.version,
        profile: None,
        components: Items::new(alloc),
        metas: Items::new(alloc),
        statements,
    })
}
