//! Laws of the field numbers.

ghost use Rattle.x3d_values.specs.declared.node_type.NodeType.TheVariants.{ScalarInterpolator, PositionInterpolator, PositionInterpolator2D, CoordinateInterpolator, BooleanSequencer, IntegerSequencer};
ghost use Rattle.react_core.specs.Numbers.{Interpolates, Sequences, Filters, Triggers};

/// The field numbers that reactions use belong to the fields' names in the table of fields.
pub fn numbers_law()
    ensures scalar { Interpolates ScalarInterpolator }
    ensures position { Interpolates PositionInterpolator }
    ensures position2d { Interpolates PositionInterpolator2D }
    ensures coordinate { Interpolates CoordinateInterpolator }
    ensures boolean { Sequences BooleanSequencer }
    ensures integer { Sequences IntegerSequencer }
    ensures filters { Filters }
    ensures triggers { Triggers }
{}
