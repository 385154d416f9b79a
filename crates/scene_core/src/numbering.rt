//! The numbers of the nodes of a scene.

ghost use Rattle.std.specs.Prelude.{◌≡◌, ◌+◌, ◌≤◌, ◌++◌, [], OnOk, IfOk, length, map, reverse};
ghost use Rattle.scene_core.specs.Parts.{parts_of};
ghost use Rattle.scene_core.specs.Numbers as spec;
ghost use Rattle.scene_core.specs.Tasks.{do_task, finish, unopened, work_left};

use crate::parts::push_parts;
use proto_flat::FlatNode;
use std::alloc::{AllocError, Global};
use x3d_lists::Items;

/// Which nodes have appeared, the numbered nodes in the order of their numbers, and the number of
/// each node, or 0 if it has none.
#[derive(Drop)]
pub struct Numbering {
    pub opened: Items<bool>,
    pub order: Items<u32>,
    pub numbers: Items<u32>,
}

/// A task that is still to be done.
#[derive(Clone, Copy)]
pub enum NumberTask {
    /// Visit a node that appears.
    Visit(u32),
    /// Number a node, now that all nodes in it have numbers.
    Close(u32),
}

impl Numbering {
    ghost use Rattle.std.specs.Prelude.{◌≡◌, OnOk};
    ghost use Rattle.scene_core.specs.Numbers as spec;

    fn is_new(&self, node: u32) -> bool
        ensures { result ≡ spec.is_new self.now node }
    {
        match self.opened.get(node as usize) {
            Some(opened) => !*opened,
            None => false,
        }
    }

    fn appear(&mut self, node: u32)
        ensures { self.new ≡ spec.appear self.old node }
    {
        if (node as usize) < self.opened.len() {
            self.opened.set(node as usize, true);
        }
    }

    /// Gives the node the next number. Numbers have 32 bits; beyond them, fails as if memory were
    /// refused.
    fn close(&mut self, node: u32) -> Result<(), AllocError>
        ensures { OnOk result (self.new ≡ spec.close self.old node) }
    {
        let number = self.order.len();
        if number > u32::MAX as usize {
            return Err(AllocError);
        }
        if (node as usize) < self.numbers.len() {
            self.numbers.set(node as usize, number as u32);
        }
        self.order.push(node)
    }
}

/// Returns the numbers of the nodes of a document.
pub(crate) fn numbered(
    alloc: Global,
    nodes: &[FlatNode],
    roots: &[u32],
    helpers: &[u32],
) -> Result<Numbering, AllocError>
    ensures { IfOk result (λ s. s ≡ spec.numbering nodes.now roots.now helpers.now) }
{
    let mut state = Numbering {
        opened: Items::from_vec(vec![in alloc; false; nodes.len()]?),
        order: Items::new(alloc),
        numbers: Items::from_vec(vec![in alloc; 0; nodes.len()]?),
    };
    let Ok(()) = visit_all(alloc, nodes, roots, helpers, &mut state) else {
        drop(state);
        return Err(AllocError);
    };
    Ok(state)
}

/// Visits the roots, and then the helpers.
fn visit_all(
    alloc: Global,
    nodes: &[FlatNode],
    roots: &[u32],
    helpers: &[u32],
    state: &mut Numbering,
) -> Result<(), AllocError>
    requires { unopened state.old.opened ≤ length nodes.now }
    ensures { OnOk result
        (state.new ≡ finish nodes.now state.old
        (([] ++ map NumberTask.Visit (reverse helpers.now))
        ++ map NumberTask.Visit (reverse roots.now))) }
{
    let mut tasks = Vec::new(alloc);
    push_visits(&mut tasks, helpers)?;
    push_visits(&mut tasks, roots)?;
    run(alloc, nodes, &mut tasks, state)
}

fn push_visits(tasks: &mut Vec<NumberTask>, nodes: &[u32]) -> Result<(), AllocError>
    ensures { OnOk result
        (tasks.new.items ≡ tasks.old.items ++ map NumberTask.Visit (reverse nodes.now)) }
{
    for i in (0..nodes.len()).rev() {
        tasks.push(NumberTask::Visit(nodes[i]))?;
    }
    Ok(())
}

/// Returns the nodes in the fields of a node, or none if there is no such node.
#[tactic(auto, unfolding(crate::specs::Parts::parts_of))]
fn parts_of(alloc: Global, nodes: &[FlatNode], node: u32) -> Result<Vec<u32>, AllocError>
    ensures { IfOk result (λ parts. parts.items ≡ parts_of nodes.now node) }
{
    let mut parts = Vec::new(alloc);
    if let Some(node) = nodes.get(node as usize) {
        push_parts(alloc, node, &mut parts)?;
    }
    Ok(parts)
}

fn visit(
    alloc: Global,
    nodes: &[FlatNode],
    tasks: &mut Vec<NumberTask>,
    state: &mut Numbering,
    node: u32,
) -> Result<(), AllocError>
    requires { unopened state.old.opened ≤ length nodes.now }
    ensures done { OnOk result (finish nodes.now state.new tasks.new.items
        ≡ finish nodes.now (do_task nodes.now state.old (NumberTask.Visit node)) tasks.old.items) }
    ensures few { OnOk result (unopened state.new.opened ≤ length nodes.now) }
    ensures fewer { OnOk result
        (work_left nodes.now state.new tasks.new.items
        ≤ work_left nodes.now state.old tasks.old.items) }
{
    if !state.is_new(node) {
        return Ok(());
    }
    state.appear(node);
    tasks.push(NumberTask::Close(node))?;
    let parts = parts_of(alloc, nodes, node)?;
    push_visits(tasks, parts.as_slice())?;
    Ok(())
}

fn step(
    alloc: Global,
    nodes: &[FlatNode],
    tasks: &mut Vec<NumberTask>,
    state: &mut Numbering,
    task: NumberTask,
) -> Result<(), AllocError>
    requires { unopened state.old.opened ≤ length nodes.now }
    ensures done { OnOk result (finish nodes.now state.new tasks.new.items
        ≡ finish nodes.now (do_task nodes.now state.old task) tasks.old.items) }
    ensures few { OnOk result (unopened state.new.opened ≤ length nodes.now) }
    ensures fewer { OnOk result
        (work_left nodes.now state.new tasks.new.items
        ≤ work_left nodes.now state.old tasks.old.items) }
{
    match task {
        NumberTask::Visit(node) => visit(alloc, nodes, tasks, state, node),
        NumberTask::Close(node) => {
            state.close(node)?;
            Ok(())
        }
    }
}

fn run(
    alloc: Global,
    nodes: &[FlatNode],
    tasks: &mut Vec<NumberTask>,
    state: &mut Numbering,
) -> Result<(), AllocError>
    requires { unopened state.old.opened ≤ length nodes.now }
    ensures { OnOk result (state.new ≡ finish nodes.now state.old tasks.old.items) }
{
    while let Some(task) = tasks.pop() {
        step(alloc, nodes, tasks, state, task)?;
    }
    Ok(())
}
