//! The columns of a CREATE TABLE, each found by its name without a look at the others.
ghost use Rattle.std.specs.Prelude.{◌≡◌, ℕ, List, IfOk, OnOk, Some, None, if◌then◌else◌, length, option_map, slice_get};
ghost use Rattle.std.specs.BTreeMap.{get_by_text};
ghost use Rattle.std.specs.Option.{option_or};
ghost use Rattle.std.specs.Str.{bytes_eq};
ghost use Rattle.iv_resolution.specs.Constraints.{defined_column, defined_columns};
ghost use Rattle.iv_resolve_scope.specs.FirstColumns.{first_from};

use iv_syntax::{ColumnDefinition, ColumnType, Name, TableElement};
use std::alloc::{AllocError, Global};
use std::collections::BTreeMap;
use std::marker::Model;

/// The first column of a name: its place among the columns, and its type.
#[derive(Clone, Copy)]
pub struct FirstColumn {
    pub place: usize,
    pub kind: ColumnType,
}

// A column as names and kinds see it.
#[derive(Drop)]
struct NamedColumn {
    name: Name,
    kind: ColumnType,
}

impl Model for NamedColumn {
    ghost use Rattle.iv_resolution.specs.Scopes.{NamedColumn as Seen};

    ghost Value = { Seen };

    ghost view = { λ c. record { name = c.name; kind = c.kind } };
}

impl NamedColumn {
    fn of(column: &ColumnDefinition) -> Result<NamedColumn, AllocError>
        ensures { IfOk result (λ c. c ≡ defined_column column.now) }
    {
        Ok(NamedColumn {
            name: column.name.clone()?,
            kind: column.kind,
        })
    }

    fn name(&self) -> &str
        ensures { result.now ≡ self.now.name }
    {
        self.name.as_str()
    }

    fn kind(&self) -> ColumnType
        ensures { result ≡ self.now.kind }
    {
        self.kind
    }
}

/// The columns of a CREATE TABLE, with the first of each name. Contracts see the columns.
#[derive(Drop)]
pub struct ColumnIndex {
    columns: Vec<NamedColumn>,
    firsts: BTreeMap<String, FirstColumn>,
}

impl Model for ColumnIndex {
    ghost use Rattle.std.specs.Prelude.{◌≡◌, ℕ, List};
    ghost use Rattle.std.specs.BTreeMap.{get_by_text};
    ghost use Rattle.iv_resolution.specs.Scopes.{NamedColumn as Seen};
    ghost use Rattle.iv_resolve_scope.specs.FirstColumns.{first_from};

    ghost Value = { List Seen };

    ghost view = { λ x. x.columns.items };

    ghost invariant = { λ x. (name : List ℕ)
        → get_by_text x.firsts name ≡ first_from 0 x.columns.items name };
}

// The columns that the elements define.
fn columns_of(alloc: Global, elements: &[TableElement]) -> Result<Vec<NamedColumn>, AllocError>
    ensures { IfOk result (λ cs. cs.items ≡ defined_columns elements.now) }
{
    let mut columns = Vec::new(alloc);
    for element in elements {
        if let TableElement::Column(column) = element {
            columns.push(NamedColumn::of(column)?)?;
        }
    }
    Ok(columns)
}

// Notes a column, if none of its name is there.
fn note(
    alloc: Global,
    firsts: &mut BTreeMap<String, FirstColumn>,
    name: &str,
    column: FirstColumn,
) -> Result<(), AllocError>
    ensures { OnOk result ((other : List ℕ) → get_by_text firsts.new other
        ≡ option_or (get_by_text firsts.old other)
        (if bytes_eq other name.now then Some column else None)) }
{
    if firsts.contains_key(name) {
        return Ok(());
    }
    let owned = String::from_str(alloc, name)?;
    firsts.insert(owned, column)?;
    Ok(())
}

// The first column of each name.
fn firsts_of(
    alloc: Global,
    columns: &[NamedColumn],
) -> Result<BTreeMap<String, FirstColumn>, AllocError>
    ensures { IfOk result (λ m. (name : List ℕ)
        → get_by_text m name ≡ first_from 0 columns.now name) }
{
    let mut firsts = BTreeMap::new(alloc);
    let mut place = 0usize;
    for column in columns {
        let kind = column.kind();
        note(
            alloc,
            &mut firsts,
            column.name(),
            FirstColumn { place, kind },
        )?;
        place += 1;
    }
    Ok(firsts)
}

impl ColumnIndex {
    /// The columns that the elements define. It allocates their names, and takes nearly linear time.
    pub fn new(alloc: Global, elements: &[TableElement]) -> Result<ColumnIndex, AllocError>
        ensures { IfOk result (λ x. x ≡ defined_columns elements.now) }
    {
        let columns = columns_of(alloc, elements)?;
        let firsts = firsts_of(alloc, columns.as_slice())?;
        Ok(ColumnIndex { columns, firsts })
    }

    /// The first column of that name, in the time of a search among the names.
    pub fn first(&self, name: &str) -> Option<FirstColumn>
        ensures { result ≡ first_from 0 self.now name.now }
    {
        self.firsts.get(name).copied()
    }

    /// How many columns there are.
    pub fn len(&self) -> usize
        ensures { result ≡ length self.now }
    {
        self.columns.len()
    }

    /// The type of the column at this place.
    pub fn type_at(&self, place: usize) -> Option<ColumnType>
        ensures { result ≡ option_map (λ c. c.kind) (slice_get self.now place) }
    {
        match self.columns.get(place) {
            Some(column) => Some(column.kind()),
            None => None,
        }
    }
}
