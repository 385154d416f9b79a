//! Fields by name, in tables for nodes that declare many.

ghost use Rattle.std.specs.Prelude.{◌≡◌, ◌<◌, IfOk, option_map, slice_get};
ghost use Rattle.x3d_values.specs.Tables.{numbered, row_named};
ghost use Rattle.scene_core.specs.Scene.{SceneView, rows_at};
ghost use Rattle.scene_core.specs.Shape.{row_entry};
ghost use Rattle.route_core.specs.Named.{AreTables, no_rows, rows_from, rows_in, table_at};
ghost use Rattle.route_core.specs.Named.{with_entry, with_row};

use crate::resolving::MOST_NODES;
use scene_core::{NodeField, Scene};
use std::alloc::{AllocError, AllocFailed, Global};
use std::collections::BTreeMap;
use x3d_values::FieldRow;

/// The number of declared fields up to which a search is faster than a table.
const FEW: usize = 8;

/// The first field of each name of a node.
#[derive(Drop)]
pub struct RowTable<'a> {
    pub rows: BTreeMap<&'a str, FieldRow>,
}

/// The tables of those nodes that declare many fields, by node number.
#[derive(Drop)]
pub struct RowTables<'a> {
    pub tables: BTreeMap<u32, RowTable<'a>>,
}

fn numbered_row(row: &NodeField<'_>, number: u16) -> FieldRow
    ensures { result ≡ numbered number (row_entry row.now) }
{
    FieldRow {
        number,
        access: row.access,
        field_type: row.field_type,
        default: row.default,
        kind: row.kind,
    }
}

impl<'a> RowTable<'a> {
    fn new(alloc: Global) -> RowTable<'a>
        ensures { rows_in result ≡ no_rows }
    {
        RowTable {
            rows: BTreeMap::new(alloc),
        }
    }

    #[tactic(auto, unfolding(crate::specs::Named::rows_in))]
    fn get(&self, name: &str) -> Option<FieldRow>
        ensures { result ≡ rows_in self.now name.now }
    {
        self.rows.get(name).copied()
    }

    fn insert(
        &mut self,
        name: &'a str,
        row: FieldRow,
    ) -> Result<(), AllocFailed<(&'a str, FieldRow)>>
        ensures { IfOk result (λ _. rows_in self.new ≡ with_row name.now row (rows_in self.old)) }
    {
        self.rows.insert(name, row)?;
        Ok(())
    }

    /// Inserts the field with number `number`, replacing later ones of the same name.
    fn put(
        &mut self,
        scene: &'a Scene,
        node: u32,
        number: u16,
    ) -> Result<(), AllocFailed<(&'a str, FieldRow)>>
        ensures { IfOk result (λ _. rows_in self.new
            ≡ with_entry number (slice_get (rows_at scene.now node) number) (rows_in self.old)) }
    {
        let Some(row) = scene.row(node, number) else {
            return Ok(());
        };
        self.insert(row.name, numbered_row(&row, number))
    }
}

/// Returns the table of all fields of a node, inserted from the last to the first.
fn table_of<'a>(alloc: Global, scene: &'a Scene, node: u32) -> Result<RowTable<'a>, AllocError>
    ensures { IfOk result (λ table. rows_in table ≡ rows_from 0 (rows_at scene.now node)) }
{
    let mut table = RowTable::new(alloc);
    let mut number = scene.field_count(node);
    while 0 < number {
        number -= 1;
        table.put(scene, node, number as u16)?;
    }
    Ok(table)
}

impl<'a> RowTables<'a> {
    fn new(alloc: Global) -> RowTables<'a>
        ensures { (scene : SceneView) → AreTables scene result }
    {
        RowTables {
            tables: BTreeMap::new(alloc),
        }
    }

    #[tactic(auto, unfolding(crate::specs::Named::table_at))]
    fn get(&self, node: u32) -> Option<&RowTable<'a>>
        ensures { option_map (λ t. t.now) result ≡ table_at self.now node }
    {
        self.tables.get(&node)
    }

    /// Sets the table of node `node`.
    fn insert(&mut self, node: u32, table: RowTable<'a>) -> Result<(), AllocError>
        ensures { (scene : SceneView) → AreTables scene self.old
            → rows_in table.entry ≡ rows_from 0 (rows_at scene node)
            → IfOk result (λ _. AreTables scene self.new) }
    {
        self.tables.insert(node, table)?;
        Ok(())
    }

    /// Adds a table for node `node`, if the node declares many fields.
    fn add(&mut self, alloc: Global, scene: &'a Scene, node: u32) -> Result<(), AllocError>
        ensures { AreTables scene.now self.old → IfOk result (λ _. AreTables scene.now self.new) }
    {
        if scene.declared(node).len() <= FEW {
            return Ok(());
        }
        let table = table_of(alloc, scene, node)?;
        self.insert(node, table)
    }
}

/// Returns the tables of the nodes of a scene.
pub(crate) fn tables_of<'a>(alloc: Global, scene: &'a Scene) -> Result<RowTables<'a>, AllocError>
    ensures { IfOk result (λ tables. AreTables scene.now tables) }
{
    let mut tables = RowTables::new(alloc);
    for node in 0..scene.node_count().min(MOST_NODES) {
        tables.add(alloc, scene, node as u32)?;
    }
    Ok(tables)
}

/// Returns the first field with the name of a node, by its table if there is one.
pub(crate) fn field_named(
    scene: &Scene,
    tables: &RowTables<'_>,
    node: u32,
    name: &str,
) -> Option<FieldRow>
    requires { AreTables scene.now tables.now }
    ensures { result ≡ row_named 0 name.now (rows_at scene.now node) }
{
    match tables.get(node) {
        None => scene.field_named(node, name),
        Some(table) => table.get(name),
    }
}
