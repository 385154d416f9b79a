//! The law. It is the contract of a function that does nothing.

ghost use Rattle.laws_parts.specs.Stays.{WhatStaysIsAsItWas};

/// Each node, field, route, declaration and prototype of a part is one of the text, with the same
/// line and name, in the same order and inside of the same; only the word of a grouping node
/// outside the table and the name of its children's field change.
pub fn what_stays_is_as_it_was()
    ensures { WhatStaysIsAsItWas }
{}
