//! The part of a text that the table of node types and fields covers.

use classic_part::part_of;
use classic_text::read;
use classic_tree::{Document, write};
use std::alloc::Global;
use std::test::Fail;
use x3d_values::Items;

static TEXT: &str = "#X3D V3.0 utf8
DEF Pot Teapot { size 2 }
DEF Link Anchor {
  url \"a\"
  children [
    DEF Door Transform { translation 1 0 0 rotation 0 1 0 1 }
  ]
}
DEF Clock TimeSensor { cycleInterval 2 }
ROUTE Pot.out TO Door.translation
";

/// The Anchor became a Group, and the Teapot, its ROUTE and the turned rotation went.
static PART: &str = "#X3D V3.0 utf8
DEF Link Group {
  children [
    DEF Door Transform {
      translation 1 0 0
    }
  ]
}
DEF Clock TimeSensor {
  cycleInterval 2
}
";

/// The lines of what went, in the order of the rounds: the turned rotation, what no prototype of
/// the first round is (Teapot, Anchor and its url), and the ROUTE from the Teapot.
static LINES: [u32; 5] = [6, 2, 3, 4, 10];

fn text_of(alloc: Global, document: &Document) -> Result<Vec<u8>, Fail> {
    let mut text = Vec::new(alloc);
    write(document, &mut text)?;
    Ok(text)
}

fn document_of(alloc: Global, text: &str) -> Result<Document, Fail> {
    match read(alloc, text.as_bytes()) {
        Ok(document) => Ok(document),
        Err(_) => Err(Fail::from("the text is refused")),
    }
}

#[test]
fn what_the_table_lacks_goes(rt: HostRuntime) -> Result<(), Fail> {
    let alloc = rt.alloc();
    let document = document_of(alloc, TEXT)?;
    let mut left = Items::new(alloc);
    let part = part_of(alloc, &document, &[], &mut left)?;
    assert!(rt; text_of(alloc, &part.document)?.as_slice() == PART.as_bytes());
    let mut lines = Vec::new(alloc);
    for note in left.as_slice() {
        lines.push(note.line)?;
    }
    assert!(rt; lines.as_slice() == LINES.as_slice());
    Ok(())
}
