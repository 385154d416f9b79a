//! Which fields are listed.

ghost use Rattle.embed_changes.specs.Laws.{AreNamed, AreOnce, AreThoseThatHold};

/// The outputs that sent after an input are those that a later line names, each once; of these the
/// fields that hold a value are listed, in the same order.
pub fn outputs_are_listed()
    ensures once { AreOnce }
    ensures named { AreNamed }
    ensures held { AreThoseThatHold }
{}
