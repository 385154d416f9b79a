//! Laws about the sizes of instances, each the contract of a function that does nothing.

ghost use Rattle.proto_meaning.specs.SizeLaws.{
  BareInstancesComeAlike,
  BareInstancesStandInRows,
  DeclaredPrototypesAreSized,
  FloodsAreTooLarge,
  PrototypesAreSized,
  RepeatsPassLimits,
  RowsAreSums,
  StatementsComeAlike,
};

/// If the prototypes in sight are sized, those that a statement declares are sized.
pub fn prototypes_are_sized()
    ensures { PrototypesAreSized }
{}

/// A prototype that a declaration adds to sized ones is sized.
pub fn declared_prototypes_are_sized()
    ensures { DeclaredPrototypesAreSized }
{}

/// A statement ends alike from walks that differ only in the numbers of nodes.
pub fn statements_come_alike()
    ensures { StatementsComeAlike }
{}

/// An instance that is given nothing ends alike anywhere.
pub fn bare_instances_come_alike()
    ensures { BareInstancesComeAlike }
{}

/// If one such instance was added of each prototype, all instances in a row can be added.
pub fn bare_instances_stand_in_rows()
    ensures { BareInstancesStandInRows }
{}

/// The size of a row of instances is the sum of their sizes.
pub fn rows_are_sums()
    ensures { RowsAreSums }
{}

/// What is counted k times is over a limit if the counts are.
pub fn repeats_pass_limits()
    ensures { RepeatsPassLimits }
{}

/// A document with too many such instances in a row is TooLarge, whatever follows them.
pub fn floods_are_too_large()
    ensures { FloodsAreTooLarge }
{}
