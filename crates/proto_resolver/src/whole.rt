//! A whole text.

ghost use Rattle.std.specs.Prelude.{IfOk};
ghost use Rattle.proto_resolver.specs.Parts.{IsResolved};

use crate::declarations::resolve_body;
use crate::resolver::Resolver;
use crate::scopes::Scopes;
use crate::walk::Resolved;
use classic_tree::Document;
use proto_meaning::TextTree;
use std::alloc::{AllocError, Global};
use x3d_lists::Items;

/// Returns the tree of a text. A wrong declaration is in it as a fault, and ends the statements.
/// AllocError if memory runs out.
pub fn resolve<'a>(alloc: Global, document: &'a Document) -> Result<TextTree<'a>, AllocError>
    ensures { IfOk result (λ text.
        IsResolved document.now.statements text.protos text.statements) }
{
    let mut resolver = Resolver {
        scopes: Scopes::new(alloc),
        protos: Items::new(alloc),
    };
    let Resolved { tree, .. } = resolve_body(alloc, &mut resolver, document.statements.as_slice())?;
    let Resolver { scopes, protos } = resolver;
    drop(scopes);
    let statements = tree;
    Ok(TextTree { protos, statements })
}
