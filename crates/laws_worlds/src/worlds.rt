//! What an input does keeps all ranges, and worlds in their ranges have snapshots.

ghost use Rattle.laws_worlds.specs.Fits.{OpeningsFit, StepsFit};
ghost use Rattle.laws_worlds.specs.Snapshots.{FittingHaveSnapshots};

/// A world that fits still fits after the next input.
pub fn steps_fit()
    ensures { StepsFit }
{}

/// The world after input 0 fits, if the one before it fits and so do the states of all scripts.
pub fn openings_fit()
    ensures { OpeningsFit }
{}

/// A world that fits has a snapshot that can be read again.
pub fn fitting_worlds_have_snapshots()
    ensures { FittingHaveSnapshots }
{}
