//! Whether a document is a scene, and all that is at fault.

ghost use Rattle.std.specs.Prelude.{◌≡◌, ◌⊎◌, Ok, Err, IfErr, OnOk};
ghost use Rattle.app_jobs.specs.declared.fault.JobFault.TheVariants.{Memory};
ghost use Rattle.app_program.specs.Opening.{built};
ghost use Rattle.app_program.specs.declared.open.OpenedScene.{OpenedScene as OpenedOf};
ghost use Rattle.scene_faults.specs.Faults.{flat_blames};
ghost use Rattle.scene_faults.specs.Texts.{text_blames};
ghost use Rattle.app_part.specs.Judging as spec;

use app_jobs::JobFault;
use app_program::open_flat;
use classic_tree::Document;
use proto_expand::expand;
use proto_flat::Flat;
use scene_faults::{Blame, blames_of, text_blames_of};
use std::alloc::Global;
use x3d_lists::Items;

/// Why a document is no scene: its first fault, and the blames for all faults that a node or a
/// route alone tells, or its text.
#[derive(Drop)]
pub(crate) struct Refused {
    pub fault: JobFault,
    pub blames: Items<Blame>,
}

/// Returns a refusal with the blames for all that a node or a route alone tells.
fn refusal(alloc: Global, flat: &Flat, fault: JobFault) -> Refused
    ensures { (result.fault ≡ Memory)
        ⊎ ((result.fault ≡ fault) × (result.blames ≡ flat_blames flat.now)) }
{
    match blames_of(alloc, flat) {
        Ok(blames) => Refused { fault, blames },
        Err(_refused) => Refused {
            fault: JobFault::Memory,
            blames: Items::new(alloc),
        },
    }
}

fn judged_flat(alloc: Global, flat: &Flat) -> Result<(), Refused>
    ensures good { OnOk result ((scene : OpenedOf) × (built flat.now ≡ Ok scene)) }
    ensures bad { IfErr result (λ r. (r.fault ≡ Memory)
        ⊎ ((built flat.now ≡ Err r.fault) × (r.blames ≡ flat_blames flat.now))) }
{
    match open_flat(alloc, flat) {
        Ok(opened) => {
            drop(opened);
            Ok(())
        }
        Err(fault) => Err(refusal(alloc, flat, fault)),
    }
}

/// Returns the refusal of a document that can't be expanded.
fn unexpanded(fault: JobFault, blames: Items<Blame>) -> Refused
    ensures { (result.fault ≡ fault) × (result.blames ≡ blames) }
{
    Refused { fault, blames }
}

/// Tells whether a document is a scene, by the blames of its text.
fn judged_by(alloc: Global, document: Document, blames: Items<Blame>) -> Result<(), Refused>
    requires { blames ≡ text_blames document }
    ensures good { OnOk result (spec.IsGood document) }
    ensures bad { IfErr result
        (λ r. (r.fault ≡ Memory) ⊎ spec.IsToldBad document r.fault r.blames) }
{
    match expand(alloc, document) {
        Ok(flat) => {
            drop(blames);
            let told = judged_flat(alloc, &flat);
            drop(flat);
            told
        }
        Err(fault) => Err(unexpanded(JobFault::from(fault), blames)),
    }
}

/// Tells whether a document is a scene, as `check` takes it. Fails with its first fault, and with
/// the blames for all faults that one field, node or route alone tells, or else its text; or with
/// `Memory` if memory runs out.
pub(crate) fn judged(alloc: Global, document: Document) -> Result<(), Refused>
    ensures good { OnOk result (spec.IsGood document) }
    ensures bad { IfErr result
        (λ r. (r.fault ≡ Memory) ⊎ spec.IsToldBad document r.fault r.blames) }
{
    match text_blames_of(alloc, &document) {
        Ok(blames) => judged_by(alloc, document, blames),
        Err(_refused) => {
            drop(document);
            Err(unexpanded(JobFault::Memory, Items::new(alloc)))
        }
    }
}
