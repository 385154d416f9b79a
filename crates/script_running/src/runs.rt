//! The scripts that a scene runs, by their numbers and by their nodes.

ghost use Rattle.std.specs.Prelude.{◌≡◌, ◌<◌, ℕ, OnOk, length};
ghost use Rattle.script_running.specs.Table.{IsNoted, number_at};

use crate::ports::Ports;
use crate::run::Run;
use scene_core::Scene;
use std::alloc::{AllocError, Global};
use std::marker::Model;

/// The scripts that a scene runs, by their numbers.
#[derive(Drop)]
pub struct Runs {
    runs: Vec<Run>,
    /// The number of the script of each node that has one, by the node's number.
    numbers: Vec<Option<usize>>,
}

impl Model for Runs {
    ghost use Rattle.std.specs.Prelude.{List};
    ghost use Rattle.script_running.specs.declared.run.Run.{Run};
    ghost use Rattle.script_running.specs.Table.{IsTable};

    ghost Value = { List Run };

    ghost view = { λ r. r.runs.items };

    ghost invariant = { λ r. IsTable r.numbers.items r.runs.items };
}

/// Extends `numbers` until there is a place for this node.
fn reach(numbers: &mut Vec<Option<usize>>, node: usize) -> Result<(), AllocError>
    ensures same { OnOk result ((i : ℕ) → number_at numbers.new.items i
        ≡ number_at numbers.old.items i) }
    ensures there { OnOk result (node < length numbers.new.items) }
{
    while numbers.len() <= node {
        numbers.push(None)?;
    }
    Ok(())
}

/// Notes script `k` at the place of its node, unless a script is noted there.
fn put(numbers: &mut Vec<Option<usize>>, node: usize, k: usize)
    requires there { node < length numbers.old.items }
    ensures { IsNoted numbers.old.items numbers.new.items node k }
{
    if numbers[node].is_none() {
        numbers[node] = Some(k);
    }
}

/// Like `put`, but makes a place for the node first.
fn note(numbers: &mut Vec<Option<usize>>, node: usize, k: usize) -> Result<(), AllocError>
    ensures { OnOk result (IsNoted numbers.old.items numbers.new.items node k) }
{
    reach(numbers, node)?;
    put(numbers, node, k);
    Ok(())
}

impl Runs {
    ghost use Rattle.std.specs.Prelude.{IfOk};
    ghost use Rattle.std.specs.Prelude.{◌≡◌, ◌<◌, length, slice_get};
    ghost use Rattle.std.specs.Option.{option_map_or};
    ghost use Rattle.script_running.specs.Running.{no_ports, script_from};

    /// Creates the table of these scripts of a scene. Fails if memory runs out.
    pub fn new(alloc: Global, runs: Vec<Run>, scene: &Scene) -> Result<Runs, AllocError>
        ensures { IfOk result (λ made. made ≡ runs.items) }
    {
        let mut numbers = Vec::with_capacity(alloc, scene.node_count())?;
        for (k, run) in runs.iter().enumerate() {
            note(&mut numbers, run.node as usize, k)?;
        }
        Ok(Runs { runs, numbers })
    }

    /// Returns the number of the script at a node, or `None` if the node has no script that is run.
    pub fn script_of(&self, node: u32) -> Option<usize>
        ensures { result ≡ script_from 0 self.now node }
    {
        match self.numbers.get(node as usize) {
            Some(number) => *number,
            None => None,
        }
    }

    /// Returns the node of the k-th script.
    pub fn node(&self, k: usize) -> u32
        requires { k < length self.now }
        ensures { result ≡ option_map_or (λ run. run.node) (slice_get self.now k) 0 }
    {
        self.runs[k].node
    }

    /// Returns the fields of its node that are the inputs and outputs of the k-th script.
    pub fn ports(&self, k: usize) -> &Ports
        requires { k < length self.now }
        ensures { result.now ≡ option_map_or (λ run. run.ports) (slice_get self.now k) no_ports }
    {
        &self.runs[k].ports
    }
}
