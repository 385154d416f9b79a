//! Laws of command lines. Each is the contract of a function that does nothing.

ghost use Rattle.std.specs.Prelude.{◌≡◌, ◌∷◌, [], List, codes};
ghost use Rattle.clap.specs.Words.{Text};
ghost use Rattle.app_words.specs.Words.{AsksOnlyForText, Means};
ghost use Rattle.app_words.specs.declared.order.Order.{Order};

/// Words mean at most one order, with one number for each of its options.
pub fn words_mean_one_order()
    ensures { (words : List Text) (some other : Order) → Means words some → Means words other
        → some ≡ other }
{}

/// `--help` and `--version`, alone after the program's own name, ask for their text alone.
pub fn help_and_version_are_asked_for()
    ensures help { AsksOnlyForText (codes "x3d_share" ∷ codes "--help" ∷ []) }
    ensures version { AsksOnlyForText (codes "x3d_share" ∷ codes "--version" ∷ []) }
{}
