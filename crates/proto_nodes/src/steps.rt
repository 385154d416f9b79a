//! Steps that add no nodes but the one given.

ghost use Rattle.std.specs.Prelude.{◌≡◌, []};
ghost use Rattle.proto_meaning.specs.Flat as flat;
ghost use Rattle.proto_meaning.specs.Flat.{meet};
ghost use Rattle.proto_meaning.specs.Limits.{ANode, AnInstance, AField, AnItem};
ghost use Rattle.proto_parts.specs.Settled.{doing};
ghost use Rattle.proto_parts.specs.Joins.{instance_by};
ghost use Rattle.proto_parts.specs.Sides.{made_routes};
ghost use Rattle.proto_parts.specs.Put.{flat_of};
ghost use Rattle.proto_parts.specs.Scope as scope;
ghost use Rattle.proto_parts.specs.Scope.{nothing};
ghost use Rattle.proto_nodes.specs.Shown.{Sound, Steps, in_scope, shown};
ghost use Rattle.proto_nodes.specs.Steps.{joining, opening, standing_in, using};

use crate::walker::Walker;
use classic_tree::RouteText;
use proto_flat::{ExpandFault, ExpandFaultKind};
use proto_parts::{InstanceEnds, Interface, PlacedNode, Scope, Wires};
use std::alloc::Global;
use std::mem;
use std::rc::Rc;
use x3d_lists::Text;

impl<'t, 'a> Walker<'t, 'a> {
    /// Counts the first word of a node. TooLarge if that passes a limit, as in the other calls.
    pub fn meet_node(&mut self) -> Result<(), ExpandFault>
        requires { Sound self.old }
        ensures { Steps (λ a. a) (doing (meet ANode) (shown self.old)) result self.new }
    {
        self.room.meet_node()
    }

    /// Counts the first word of an instance.
    pub fn meet_instance(&mut self) -> Result<(), ExpandFault>
        requires { Sound self.old }
        ensures { Steps (λ a. a) (doing (meet AnInstance) (shown self.old)) result self.new }
    {
        self.room.meet_instance()
    }

    /// Counts a field of a node: its number among the fields, and the number of items in its value.
    pub fn meet_field(&mut self, number: usize, items: usize) -> Result<(), ExpandFault>
        requires { Sound self.old }
        ensures { Steps (λ a. a) (doing (meet (AField number items)) (shown self.old)) result
            self.new }
    {
        self.room.meet_field(number, items)
    }

    /// Counts a field of an instance, a ROUTE or a USE.
    pub fn meet_item(&mut self) -> Result<(), ExpandFault>
        requires { Sound self.old }
        ensures { Steps (λ a. a) (doing (meet AnItem) (shown self.old)) result self.new }
    {
        self.room.meet_item()
    }

    /// Counts a USE, and returns the node of that name. UseWithoutDef if no closed braces have the
    /// name.
    pub fn put_use(&mut self, line: u32, name: &Text) -> Result<u32, ExpandFault>
        requires { Sound self.old }
        ensures { Steps (λ n. n) (doing (using line name.now) (shown self.old)) result self.new }
    {
        self.meet_item()?;
        let Some(number) = self.scope.used(name) else {
            return Err(ExpandFaultKind::UseWithoutDef.on_line(line));
        };
        Ok(number)
    }

    /// Counts a ROUTE, and adds it after the others. Memory if memory runs out.
    pub fn put_route(&mut self, route: &'a RouteText) -> Result<(), ExpandFault>
        requires { Sound self.old }
        ensures { Steps (λ a. a) (doing (flat.note_route route.now) (shown self.old)) result
            self.new }
    {
        self.meet_item()?;
        self.scope.note_route(route)?;
        Ok(())
    }

    /// Opens braces, with the name that DEF gives them, and returns the number of braces of the
    /// scope that opened before. Memory if memory runs out.
    pub fn open_braces(&mut self, name: &'a Option<Text>) -> Result<usize, ExpandFault>
        requires { Sound self.old }
        ensures { Steps (λ at. at) (doing (opening name.now) (shown self.old)) result self.new }
    {
        let at = self.scope.open(name)?;
        Ok(at)
    }

    /// Closes the braces of a node: the node is added, and its number, the next one, is returned.
    /// The braces stand for that node. Memory if memory runs out.
    pub fn close_node(
        &mut self,
        name: &'a Option<Text>,
        at: usize,
        node: PlacedNode<'a>,
    ) -> Result<u32, ExpandFault>
        requires { Sound self.old }
        ensures { Steps (λ n. n) (doing (flat.close_node name.now at (flat_of node.entry))
            (shown self.old)) result self.new }
    {
        let number = self.put.close(node)?;
        self.scope.close(name, at, number, None)?;
        Ok(number)
    }

    /// Records that an IS joins a field of the braces number `at` to a field of the interface.
    /// Memory if memory runs out.
    pub fn join_field(
        &mut self,
        outer: &'a Text,
        at: usize,
        field: &'a Text,
    ) -> Result<(), ExpandFault>
        requires { Sound self.old }
        ensures { Steps (λ a. a) (doing (joining outer.now at field.now) (shown self.old)) result
            self.new }
    {
        self.scope.join(outer, at, field)?;
        Ok(())
    }

    /// Checks that no name occurs twice in the interface: FieldTwice if one does, on the line of
    /// the first field whose name occurs earlier.
    pub fn check_interface(&self, interface: &Interface<'_>) -> Result<(), ExpandFault>
        requires { Sound self.now }
        ensures { Steps (λ a. a) (doing (flat.unless_twice [] interface.now) (shown self.now))
            result
            self.now }
    {
        let Some(line) = interface.twice() else {
            return Ok(());
        };
        Err(ExpandFaultKind::FieldTwice.on_line(line))
    }

    /// Begins a scope for the body of an instance, and returns the scope around it.
    pub fn enter(&mut self, alloc: Global) -> Scope<'t, 'a>
        requires { Sound self.old }
        ensures shown { shown self.new ≡ in_scope nothing (shown self.old) }
        ensures sound { Sound self.new }
        ensures around { scope.shown result ≡ (shown self.old).walk.scope }
        ensures held { scope.Sound result }
    {
        mem::replace(&mut self.scope, Scope::new(alloc))
    }

    /// Goes back to the scope around, and drops the one that was open.
    pub fn leave(&mut self, around: Scope<'t, 'a>)
        requires { scope.Sound around }
        ensures shown { shown self.new ≡ in_scope (scope.shown around.entry) (shown self.old) }
        ensures sound { Sound self.new }
    {
        drop(mem::replace(&mut self.scope, around));
    }

    /// Closes the braces of an instance: they stand for the first node of its body, which gets the
    /// instance's name, and the ROUTEs of the body follow the others. Returns that node. Memory if
    /// memory runs out.
    pub fn stand_in(
        &mut self,
        alloc: Global,
        name: &'a Option<Text>,
        at: usize,
        node: u32,
        ends: InstanceEnds<'t, 'a>,
        routes: Option<Rc<Wires<'a>>>,
    ) -> Result<u32, ExpandFault>
        requires { Sound self.old }
        ensures { Steps (λ n. n) (doing (standing_in name.now at (instance_by node ends.entry)
            (made_routes routes.entry)) (shown self.old)) result self.new }
    {
        let ends = Rc::new(alloc, ends)?;
        self.put.rename(node, name);
        self.scope.add_routes(routes)?;
        self.scope.close(name, at, node, Some(ends))?;
        Ok(node)
    }
}
