//! A law about boxes, stated as the contract of a function that does nothing.

ghost use Rattle.std.specs.Prelude.{◌≡◌, List, map};
ghost use Rattle.x3d_values.specs.declared.script.ScriptSpec.{ScriptSpec as Asked};
ghost use Rattle.script_host.specs.Attaching.{Fits};
ghost use Rattle.script_boxes.specs.Boxes.{made_of};
ghost use Rattle.script_boxes.specs.declared.stock.StockScript.{StockScript as Stocked};

/// Proves that only one list of stock boxes fits the scripts: any two that fit are equal.
pub fn fitting_boxes_are_one()
    ensures { (specs : List Asked) (some other : List Stocked) → Fits specs (map made_of some)
        → Fits specs (map made_of other) → map made_of some ≡ map made_of other }
{}
