//! Laws of parts. Each is the contract of a function that does nothing.

ghost use Rattle.app_part.specs.Laws.{PartsAreTheirParts, RefusalsAreLimits};
ghost use Rattle.app_part.specs.Laws.{ScenesAreRefusedAsTexts, ScenesAreTheirParts};

/// The part of a scene that `check` takes is that scene, as `format` writes it, and nothing is left
/// out of it.
pub fn scenes_are_their_parts()
    ensures made { ScenesAreTheirParts }
    ensures refused { ScenesAreRefusedAsTexts }
{}

/// The part of a part is that part, byte by byte.
pub fn parts_are_their_parts()
    ensures { PartsAreTheirParts }
{}

/// A text that is read is refused for a limit alone: never for UnknownNode, UnknownField,
/// RotationUnsupported, Unsupported, UseWithoutDef, NoSuchNode, or another fault for which a part
/// of its line is left out.
pub fn refusals_are_limits()
    ensures { RefusalsAreLimits }
{}
