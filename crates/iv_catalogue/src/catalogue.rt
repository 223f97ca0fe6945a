//! Tables, and the catalogue of a database.
ghost use Rattle.std.specs.Prelude.{◌≡◌, ◌≤◌, ◌<◌, ◌+◌, ◌-◌, ◌*◌, ◌^◌, ◌++◌, ◌∷◌, [], List, ◌==◌, length, map, position, get_or, set, take};
ghost use Rattle.std.specs.Prelude.{slice_get, false, IfOk, IfSome, option_map, OnOk, OnErr};
ghost use Rattle.std.specs.Option.{option_copied};
ghost use Rattle.std.specs.Vec.{vec_len, vec_capacity};
ghost use Rattle.iv_catalogue.specs.Catalogues.{Schema, empty_schema, after, has_table, has_constraint, has_trigger, table_named, constraint_named};
ghost use Rattle.iv_catalogue.specs.Catalogues.{trigger_named, trigger_numbered, places_from, constraint_places, AllOn, AllWithinTables, AfterTable};
ghost use Rattle.iv_catalogue.specs.Catalogues.{BodiesWithinLimit, TriggersNumbered};
ghost use Rattle.iv_catalogue.specs.Names.{has_repeated};
ghost use Rattle.iv_catalogue.specs.declared.plan.SchemaPlan.TheVariants.{CreateTable, AddConstraint, CreateTrigger, DropTrigger};

use crate::constraint::{Constraint, Constraints};
use crate::limits::{
    MOST_BODY_STATEMENTS, MOST_CONSTRAINTS, MOST_TABLES, MOST_TRIGGERS, MOST_TRIGGERS_EVER,
};
use crate::named_list::NamedList;
use crate::number::{ConstraintId, TriggerId};
use crate::plan::Trigger;
use iv_expr::TableId;
use iv_syntax::{Name, Named};
use iv_value::{Kind, Value};
use sqlite_items::{Items, at};
use std::alloc::{AllocError, Global};
use std::marker::Model;

/// A column.
#[derive(Drop)]
pub struct Column {
    pub name: Name,
    pub kind: Kind,
    /// The value of DEFAULT; NULL if there is none.
    pub default: Value,
}

/// A table and its columns, in their order in the text.
#[derive(Drop)]
pub struct Table {
    pub name: Name,
    pub columns: Items<Column>,
}

impl Named for Table {
    ghost named = { λ t. t.name };

    fn name(&self) -> &str {
        self.name.as_str()
    }
}

impl Named for Constraint {
    ghost named = { λ k. k.name };

    fn name(&self) -> &str {
        self.name.as_str()
    }
}

impl Named for Trigger {
    ghost named = { λ t. t.name };

    fn name(&self) -> &str {
        self.name.as_str()
    }
}

/// All tables, constraints and triggers, each in creation order and with a distinct name. A look-up by name takes
/// constant time, and so does finding the constraints of a table. Contracts see the catalogue as its schema.
pub struct Catalogue {
    tables: NamedList<Table>,
    constraints: NamedList<Constraint>,
    // For each table the places of its constraints.
    constraint_places: Vec<Items<ConstraintId>>,
    triggers: NamedList<Trigger>,
    // How many triggers were ever created.
    created: u32,
}

impl Drop for Catalogue {
    fn drop(self) {
        let Catalogue {
            tables,
            constraints,
            constraint_places,
            triggers,
            created: _,
        } = self;
        drop(tables);
        drop(constraints);
        drop(constraint_places);
        drop(triggers);
    }
}

impl Model for Catalogue {
    ghost use Rattle.iv_catalogue.specs.Catalogues.{Schema};
    ghost use Rattle.iv_catalogue.specs.ConstraintPlaces.{Kept, schema_of};
    ghost use Rattle.iv_expr.specs.contracts.tree.Cond as cond;
    ghost use Rattle.iv_expr.specs.contracts.tree.Expr as expr;
    ghost use Rattle.std.specs.Coded.{codes};

    ghost Value = { Schema };

    ghost coded = { Prim.hlevel (codes, cond.the_row.coded, expr.the_row.coded) };

    ghost view = { λ c. schema_of c };

    ghost invariant = { λ c. Kept c };
}

// The places of a table's constraints among these, of which the first has this place.
fn places_from(
    alloc: Global,
    table: TableId,
    first: u32,
    constraints: &[Constraint],
) -> Result<Items<ConstraintId>, AllocError>
    requires { first + length constraints.now < 2 ^ 32 }
    ensures { IfOk result (λ places. places ≡ places_from table first constraints.now) }
{
    let mut places = Items::new(alloc);
    let mut place = first;
    for constraint in constraints {
        if constraint.table.place() == table.place() {
            places.push(ConstraintId::new(place))?;
        }
        place += 1;
    }
    Ok(places)
}

// The places of a new table's constraints, with room for the list of them.
fn places_of_new(
    lists: &mut Vec<Items<ConstraintId>>,
    table: TableId,
    first: u32,
    constraints: &[Constraint],
) -> Result<Items<ConstraintId>, AllocError>
    requires { first + length constraints.now < 2 ^ 32 }
    ensures lists { lists.new.items ≡ lists.old.items }
    ensures room { OnOk result (vec_len lists.new < vec_capacity lists.new) }
    ensures places { IfOk result (λ places. places ≡ places_from table first constraints.now) }
{
    lists.reserve(1)?;
    places_from(*lists.allocator(), table, first, constraints)
}

// Adds a list, for which there is room.
fn push_list(lists: &mut Vec<Items<ConstraintId>>, places: Items<ConstraintId>)
    requires { vec_len lists.old < vec_capacity lists.old }
    ensures { lists.new.items ≡ lists.old.items ++ places ∷ [] }
{
    match lists.push(places) {
        Ok(()) => {}
        Err(_) => unreachable!(),
    }
}

// The places of a table's constraints; none if there is no such table.
fn places_at(lists: &[Items<ConstraintId>], table: usize) -> &[ConstraintId]
    ensures { result.now ≡ get_or lists.now table [] }
{
    match lists.get(table) {
        Some(places) => places.as_slice(),
        None => &[],
    }
}

// Adds a place to those of a table. If an allocation fails the lists are as before.
fn push_place(
    lists: &mut Vec<Items<ConstraintId>>,
    table: usize,
    place: ConstraintId,
) -> Result<(), AllocError>
    requires { table < length lists.old.items }
    ensures ok { OnOk result (lists.new.items
        ≡ set lists.old.items table (get_or lists.old.items table [] ++ place ∷ [])) }
    ensures err { OnErr result (lists.new.items ≡ lists.old.items) }
{
    let places = &mut lists[table];
    places.push(place)
}

// Takes the last place out of those of a table. It allocates nothing.
fn pop_place(lists: &mut Vec<Items<ConstraintId>>, table: usize)
    requires { table < length lists.old.items }
    ensures { lists.new.items ≡ set lists.old.items table
        (take (length (get_or lists.old.items table []) - 1) (get_or lists.old.items table [])) }
{
    let places = &mut lists[table];
    let _ = places.pop();
}

// Where the trigger of this number is in the list.
fn place_of_trigger(triggers: &[Trigger], id: TriggerId) -> Option<usize>
    ensures place { result ≡ position (λ t. t.id == id) triggers.now }
    ensures within { IfSome result (λ place. place < length triggers.now) }
{
    triggers
        .iter()
        .position(|trigger| trigger.id.place() == id.place())
}

// The number of the trigger at this place.
fn number_at(triggers: &[Trigger], place: usize) -> Option<TriggerId>
    ensures { result ≡ option_map (λ t. t.id) (slice_get triggers.now place) }
{
    match at(triggers, place) {
        Some(trigger) => Some(trigger.id),
        None => None,
    }
}

impl Catalogue {
    /// An empty catalogue. It allocates nothing.
    pub fn new(alloc: Global) -> Catalogue
        ensures { result ≡ empty_schema }
    {
        Catalogue {
            tables: NamedList::new(alloc),
            constraints: NamedList::new(alloc),
            constraint_places: Vec::new(alloc),
            triggers: NamedList::new(alloc),
            created: 0,
        }
    }

    /// The tables.
    pub fn tables(&self) -> &[Table]
        ensures tables { result.now ≡ self.now.tables }
        ensures few { length result.now ≤ MOST_TABLES }
    {
        self.tables.as_slice()
    }

    /// The constraints.
    pub fn constraints(&self) -> &[Constraint]
        ensures constraints { result.now ≡ self.now.constraints }
        ensures few { length result.now ≤ MOST_TABLES * MOST_CONSTRAINTS }
        ensures tables { AllWithinTables (length self.now.tables) result.now }
    {
        self.constraints.as_slice()
    }

    /// The triggers.
    pub fn triggers(&self) -> &[Trigger]
        ensures triggers { result.now ≡ self.now.triggers }
        ensures few { length result.now ≤ MOST_TRIGGERS }
        ensures bodies { BodiesWithinLimit result.now }
        ensures numbers { TriggersNumbered self.now }
    {
        self.triggers.as_slice()
    }

    /// How many triggers were ever created.
    pub fn triggers_ever(&self) -> u32
        ensures { result ≡ self.now.created }
    {
        self.created
    }

    /// The table at this place.
    pub fn table(&self, id: TableId) -> Option<&Table>
        ensures { option_copied result ≡ slice_get self.now.tables id }
    {
        at(self.tables.as_slice(), id.place() as usize)
    }

    /// The constraint at this place.
    pub fn constraint(&self, id: ConstraintId) -> Option<&Constraint>
        ensures { option_copied result ≡ slice_get self.now.constraints id }
    {
        at(self.constraints.as_slice(), id.place() as usize)
    }

    /// The trigger of this number.
    pub fn trigger(&self, id: TriggerId) -> Option<&Trigger>
        ensures { option_copied result ≡ trigger_numbered self.now id }
    {
        let triggers = self.triggers.as_slice();
        match place_of_trigger(triggers, id) {
            Some(place) => at(triggers, place),
            None => None,
        }
    }

    /// The table of this name.
    pub fn table_named(&self, name: &str) -> Option<TableId>
        ensures { result ≡ table_named self.now name.now }
    {
        let place = self.tables.place_of(name)?;
        Some(TableId::new(place as u32))
    }

    /// The constraint of this name.
    pub fn constraint_named(&self, name: &str) -> Option<ConstraintId>
        ensures { result ≡ constraint_named self.now name.now }
    {
        let place = self.constraints.place_of(name)?;
        Some(ConstraintId::new(place as u32))
    }

    /// The number of the trigger of this name.
    pub fn trigger_named(&self, name: &str) -> Option<TriggerId>
        ensures { result ≡ trigger_named self.now name.now }
    {
        match self.triggers.place_of(name) {
            Some(place) => number_at(self.triggers.as_slice(), place),
            None => None,
        }
    }

    /// The constraints of a table, in creation order.
    pub fn constraints_of(&self, table: TableId) -> &[ConstraintId]
        ensures { result.now ≡ constraint_places self.now table }
    {
        places_at(self.constraint_places.as_slice(), table.place() as usize)
    }

    /// Adds a table with its constraints: the schema after CREATE TABLE. If an allocation fails, the catalogue is as
    /// before.
    pub fn add_table(&mut self, table: Table, constraints: Constraints) -> Result<(), AllocError>
        requires tables { length self.old.tables < MOST_TABLES }
        requires constraints { length constraints ≤ MOST_CONSTRAINTS }
        requires own { AllOn (length self.old.tables) constraints }
        requires name { has_table self.old table.name ≡ false }
        requires names { has_repeated (map (λ k. k.name) self.old.constraints)
            (map (λ k. k.name) constraints) ≡ false }
        ensures ok { OnOk result (self.new ≡ after self.old (CreateTable table constraints)) }
        ensures err { OnErr result (self.new ≡ self.old) }
    {
        let count = self.tables.len();
        let places = places_of_new(
            &mut self.constraint_places,
            TableId::new(count as u32),
            self.constraints.len() as u32,
            constraints.as_slice(),
        )?;
        self.tables.push(table)?;
        if let Err(error) = self.constraints.append(constraints.into_vec()) {
            self.tables.truncate(count);
            return Err(error);
        }
        push_list(&mut self.constraint_places, places);
        Ok(())
    }

    /// Adds a constraint of a table that is there: the schema after ALTER TABLE ADD. If an allocation fails, the
    /// catalogue is as before.
    pub fn add_constraint(&mut self, constraint: Constraint) -> Result<(), AllocError>
        requires table { constraint.table < length self.old.tables }
        requires few { length (constraint_places self.old constraint.table) < MOST_CONSTRAINTS }
        requires name { has_constraint self.old constraint.name ≡ false }
        ensures ok { OnOk result (self.new ≡ after self.old (AddConstraint constraint)) }
        ensures err { OnErr result (self.new ≡ self.old) }
    {
        let table = constraint.table.place() as usize;
        let count = self.constraints.len();
        self.constraints.push(constraint)?;
        let place = ConstraintId::new(count as u32);
        if let Err(error) = push_place(&mut self.constraint_places, table, place) {
            self.constraints.truncate(count);
            return Err(error);
        }
        Ok(())
    }

    /// Adds a trigger and gives it its number: the schema after CREATE TRIGGER. If an allocation fails, the catalogue
    /// is as before.
    pub fn add_trigger(&mut self, trigger: Trigger) -> Result<(), AllocError>
        requires triggers { length self.old.triggers < MOST_TRIGGERS }
        requires ever { self.old.created < MOST_TRIGGERS_EVER }
        requires body { length trigger.body ≤ MOST_BODY_STATEMENTS }
        requires name { has_trigger self.old trigger.name ≡ false }
        ensures ok { OnOk result (self.new ≡ after self.old (CreateTrigger trigger)) }
        ensures err { OnErr result (self.new ≡ self.old) }
    {
        let mut numbered = trigger;
        numbered.id = TriggerId::new(self.created);
        self.triggers.push(numbered)?;
        self.created += 1;
        Ok(())
    }

    /// Removes the trigger of this number, if there is one: the schema after DROP TRIGGER. It allocates nothing.
    pub fn drop_trigger(&mut self, id: TriggerId)
        ensures { self.new ≡ after self.old (DropTrigger id) }
    {
        if let Some(place) = place_of_trigger(self.triggers.as_slice(), id) {
            self.triggers.remove(place);
        }
    }

    /// Removes the last table and its constraints. The catalogue has to be as `add_table` left it. It allocates
    /// nothing.
    pub fn take_table(&mut self)
        requires { (before : Schema) × (table : Table) × (constraints : List Constraint)
            × AfterTable before table constraints self.old }
        ensures { (before : Schema) (table : Table) (constraints : List Constraint)
            → AfterTable before table constraints self.old → self.new ≡ before }
    {
        let tables = self.tables.len() - 1;
        let own = places_at(self.constraint_places.as_slice(), tables).len();
        let constraints = self.constraints.len() - own;
        self.constraint_places.truncate(tables);
        self.constraints.truncate(constraints);
        self.tables.truncate(tables);
    }

    /// Removes the last constraint. The catalogue has to be as `add_constraint` left it. It allocates nothing.
    pub fn take_constraint(&mut self)
        requires { 0 < length self.old.constraints }
        ensures { (before : Schema) (constraint : Constraint)
            → self.old ≡ after before (AddConstraint constraint) → self.new ≡ before }
    {
        let last = self.constraints.len() - 1;
        let table = self.constraints.as_slice()[last].table.place() as usize;
        pop_place(&mut self.constraint_places, table);
        self.constraints.truncate(last);
    }
}
