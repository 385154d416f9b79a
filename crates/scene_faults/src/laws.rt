//! Laws of blames. Each is the contract of a function that does nothing.

ghost use Rattle.scene_faults.specs.Laws.{ChildrenAreBlamed, DeclarationsAreBlamed};
ghost use Rattle.scene_faults.specs.Laws.{FieldsAreBlamed, ScenesWithoutBlamesPassLimits};

/// A field of a node type that is given a value is blamed exactly if a scene refuses the value; a
/// declared field or its declaration, exactly if a scene refuses what it holds.
pub fn fields_are_blamed()
    ensures given { FieldsAreBlamed }
    ensures declared { DeclarationsAreBlamed }
{}

/// A root or a helper is blamed exactly if a scene refuses it.
pub fn children_are_blamed()
    ensures { ChildrenAreBlamed }
{}

/// An expanded document in which no field, declaration, root or helper is blamed is refused as a
/// scene for TooDeep or TooMany alone.
pub fn scenes_without_blames_pass_limits()
    ensures { ScenesWithoutBlamesPassLimits }
{}
