//! Names in a text, and which of them are given twice.

ghost use Rattle.std.specs.Prelude.{◌≡◌, ◌++◌, ◌∷◌, [], List, ℕ, true, false, IfOk, OnOk, if◌then◌else◌};
ghost use Rattle.std.specs.Str.{bytes_eq};
ghost use Rattle.scene_faults.specs.Blame.{of_expand};
ghost use Rattle.scene_faults.specs.Index.{AreOf, holds};
ghost use Rattle.scene_faults.specs.Texts as spec;
ghost use Rattle.scene_faults.specs.declared.named.Named.{Named as NamedOf};

use crate::blame::{Blame, of_expand};
use proto_flat::ExpandFaultKind;
use std::alloc::{AllocError, AllocFailed, Global};
use std::collections::BTreeSet;
use x3d_lists::{Duplicate, Items, Text};

/// The name of a field or a PROTO, and the line on which that begins.
#[derive(Drop)]
pub struct Named {
    pub line: u32,
    pub name: Text,
}

/// Names in order.
#[derive(Drop)]
pub struct NameSet<'k> {
    pub names: BTreeSet<&'k str>,
}

impl<'k> NameSet<'k> {
    fn new(alloc: Global) -> NameSet<'k>
        ensures { (name : List ℕ) → holds result name ≡ false }
    {
        NameSet {
            names: BTreeSet::new(alloc),
        }
    }

    #[tactic(auto, unfolding(crate::specs::Index::holds))]
    fn has(&self, name: &str) -> bool
        ensures { result ≡ holds self.now name.now }
    {
        self.names.contains(name)
    }

    fn add(&mut self, name: &'k Text) -> Result<(), AllocFailed<&'k str>>
        ensures { IfOk result (λ _. (other : List ℕ)
            → holds self.new other
            ≡ (if bytes_eq name.now other then true else holds self.old other)) }
    {
        self.names.insert(name.as_str())?;
        Ok(())
    }

    /// Adds a name to those of a list.
    fn add_named(&mut self, named: &'k Named) -> Result<(), AllocError>
        ensures { (earlier : List NamedOf) → AreOf self.old earlier
            → IfOk result (λ _. AreOf self.new (earlier ++ named.now ∷ [])) }
    {
        self.add(&named.name)?;
        Ok(())
    }
}

/// Appends a name.
pub(crate) fn push_name(
    alloc: Global,
    line: u32,
    name: &Text,
    out: &mut Items<Named>,
) -> Result<(), AllocError>
    ensures { OnOk result (out.new ≡ out.old ++ spec.entry line name.now ∷ []) }
{
    let name = name.duplicate(alloc)?;
    out.push(Named { line, name })
}

/// Appends the blame for a part of a text, if it is at fault.
pub(crate) fn push_if(
    is_blamed: bool,
    kind: ExpandFaultKind,
    line: u32,
    out: &mut Items<Blame>,
) -> Result<(), AllocError>
    ensures { OnOk result
        (out.new ≡ out.old ++ (if is_blamed then of_expand kind line ∷ [] else [])) }
{
    if !is_blamed {
        return Ok(());
    }
    out.push(of_expand(kind, line))
}

/// Appends the blames for names that an earlier one of the list has.
pub(crate) fn push_twice(
    alloc: Global,
    kind: ExpandFaultKind,
    named: &[Named],
    out: &mut Items<Blame>,
) -> Result<(), AllocError>
    ensures { OnOk result (out.new ≡ out.old ++ spec.twice kind [] named.now) }
{
    let mut earlier = NameSet::new(alloc);
    for one in named {
        push_if(earlier.has(one.name.as_str()), kind, one.line, out)?;
        earlier.add_named(one)?;
    }
    Ok(())
}
