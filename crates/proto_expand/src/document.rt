//! A whole document.

ghost use Rattle.std.specs.Prelude.{◌≡◌};
ghost use Rattle.x3d_lists.specs.Answers.{Gives};
ghost use Rattle.proto_flat.specs.Fault.{memory};
ghost use Rattle.proto_meaning.specs.Flat.{flat};
ghost use Rattle.proto_meaning.specs.Flat as meaning;
ghost use Rattle.proto_expand.specs.Whole as whole;
ghost use Rattle.proto_expand.specs.Whole.{with_content};

use crate::whole::{Content, protos_of, walk};
use classic_tree::Document;
use proto_flat::{ExpandFault, Flat, Header};
use proto_resolver::resolve;
use std::alloc::Global;

fn content_of(alloc: Global, document: &Document) -> Result<Content, ExpandFault>
    ensures { Gives memory (with_content (meaning.header_of document.now)) result
        (flat document.now) }
{
    let text = resolve(alloc, document)?;
    let trees = text.protos.as_slice();
    let statements = text.statements.as_slice();
    let protos = protos_of(alloc, trees)?;
    walk(alloc, protos.as_slice(), statements)
}

fn header_of(document: Document) -> Header
    ensures { result ≡ meaning.header_of document }
{
    let Document {
        version,
        profile,
        components,
        metas,
        ..
    } = document;
    Header {
        version,
        profile,
        components,
        metas,
    }
}

fn with_header(header: Header, content: Result<Content, ExpandFault>) -> Result<Flat, ExpandFault>
    ensures { result ≡ whole.with_header header content }
{
    match content {
        Ok(content) => {
            let Content {
                nodes,
                roots,
                helpers,
                routes,
            } = content;
            Ok(Flat {
                header,
                nodes,
                roots,
                helpers,
                routes,
            })
        }
        Err(fault) => {
            drop(header);
            Err(fault)
        }
    }
}

/// Returns the flat form of the document: nodes by number, in which each instance is its
/// prototype's body, with nodes of its own (ISO/IEC 19775-1, 4.4.4). Err is the first fault of the
/// text, with its line. It is `TooLarge`, without a line, if before that fault, or in the whole
/// text, there are more than 65,536 nodes or fields of a node, 8,388,608 instances or items of
/// values, or 4,194,304 things counted (nodes, instances, fields, ROUTEs and USEs); or if a text
/// without a fault has more than 65,536 routes. It is `Memory` if memory runs out.
pub fn expand(alloc: Global, document: Document) -> Result<Flat, ExpandFault>
    ensures { Gives memory (λ f. f) result (flat document) }
{
    let content = content_of(alloc, &document);
    with_header(header_of(document), content)
}
