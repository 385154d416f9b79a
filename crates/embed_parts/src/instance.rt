//! The line of the instance that a text is refused for.

ghost use Rattle.embed_parts.specs.Instances.{TellsInstance};
ghost use Rattle.proto_blame.specs.Instance.{instance_line};

use proto_blame::instance_line;
use std::alloc::Global;

const DONE: u8 = 0;

const MEMORY: u8 = 5;

/// Writes the line of the instance whose braces hold the value that a text is refused for to
/// `line`, or 0 if no instance's do. Returns `DONE`, or `MEMORY` if memory runs out; `line` is then
/// unchanged.
pub fn text_instance(alloc: Global, text: &[u8], line: &mut u32) -> u8
    ensures { TellsInstance (instance_line text.now) line.old result line.new }
{
    let Ok(found) = instance_line(alloc, text) else {
        return MEMORY;
    };
    *line = found;
    DONE
}
