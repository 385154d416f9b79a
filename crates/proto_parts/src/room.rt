//! How much more may be counted.

ghost use Rattle.std.specs.Prelude.{◌≡◌, ◌&&◌, not, nat_lt};
ghost use Rattle.std.specs.Result.{result_map_both};
ghost use Rattle.proto_meaning.specs.Limits.{ANode, AnInstance, AField, AnItem};
ghost use Rattle.proto_parts.specs.Settled.{full, spend, spend_so_much};

use proto_flat::{ExpandFault, ExpandFaultKind};
use x3d_values::{MAX_FIELDS, MAX_INSTANCES, MAX_ITEMS, MAX_NODES, MAX_PUT_IN};

/// How much more may be counted: nodes, instances, items of the values of nodes, and in `all`
/// nodes, instances, fields, ROUTEs and USEs together.
#[derive(Clone, Copy)]
pub struct Room {
    pub nodes: u32,
    pub instances: u32,
    pub items: usize,
    pub all: u32,
}

impl Room {
    /// Returns the room before anything is counted: 65,536 nodes, 8,388,608 instances, 8,388,608
    /// items and 4,194,304 things in all.
    pub fn new() -> Room
        ensures { result ≡ full }
    {
        Room {
            nodes: MAX_NODES,
            instances: MAX_INSTANCES,
            items: MAX_ITEMS,
            all: MAX_PUT_IN,
        }
    }

    fn has_braces(&self, nodes: u32, instances: u32) -> bool
        ensures { result ≡ not (nat_lt self.now.nodes nodes)
            && not (nat_lt self.now.instances instances) }
    {
        self.nodes >= nodes && self.instances >= instances
    }

    fn has_items(&self, items: usize) -> bool
        ensures { result ≡ not (nat_lt self.now.items items) && not (nat_lt self.now.all 1) }
    {
        self.items >= items && self.all >= 1
    }

    fn spend(&mut self, nodes: u32, instances: u32, items: usize) -> Result<(), ExpandFault>
        ensures { result_map_both (λ _. self.new) (λ e. e) result
            ≡ spend_so_much nodes instances items self.old }
    {
        if !self.has_braces(nodes, instances) {
            return Err(ExpandFaultKind::TooLarge.on_line(0));
        }
        if !self.has_items(items) {
            return Err(ExpandFaultKind::TooLarge.on_line(0));
        }
        self.nodes -= nodes;
        self.instances -= instances;
        self.items -= items;
        self.all -= 1;
        Ok(())
    }

    /// Counts the first word of a node. TooLarge (line 0) if that passes a limit, as in the other
    /// calls.
    pub fn meet_node(&mut self) -> Result<(), ExpandFault>
        ensures { result_map_both (λ _. self.new) (λ e. e) result ≡ spend ANode self.old }
    {
        self.spend(1, 0, 0)
    }

    /// Counts the first word of an instance.
    pub fn meet_instance(&mut self) -> Result<(), ExpandFault>
        ensures { result_map_both (λ _. self.new) (λ e. e) result ≡ spend AnInstance self.old }
    {
        self.spend(0, 1, 0)
    }

    /// Counts a field of a node: its number among the fields, and the number of items in its value.
    /// TooLarge also if `number` is 65,536 or more.
    pub fn meet_field(&mut self, number: usize, items: usize) -> Result<(), ExpandFault>
        ensures { result_map_both (λ _. self.new) (λ e. e) result
            ≡ spend (AField number items) self.old }
    {
        if number >= MAX_FIELDS {
            return Err(ExpandFaultKind::TooLarge.on_line(0));
        }
        self.spend(0, 0, items)
    }

    /// Counts a field of an instance, a ROUTE or a USE.
    pub fn meet_item(&mut self) -> Result<(), ExpandFault>
        ensures { result_map_both (λ _. self.new) (λ e. e) result ≡ spend AnItem self.old }
    {
        self.spend(0, 0, 0)
    }
}
