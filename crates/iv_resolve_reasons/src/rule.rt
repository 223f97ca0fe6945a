//! The rule of definitions that a statement breaks.
ghost use Rattle.std.specs.Prelude.{◌≡◌, option_map};
ghost use Rattle.std.specs.Option.{option_or};
ghost use Rattle.iv_resolution.specs.Items.{constraint_item, generated_item};
ghost use Rattle.iv_resolve_name_faults.specs.Seen.{item_seen};
ghost use Rattle.iv_resolve_reasons.specs.Seen.{reference_fault_seen, schema_fault_seen};

use iv_expr::Side;
use iv_resolve_name_faults::NamedItem;
use iv_syntax::{ColumnType, Literal, Name, TransitionName, TriggerEvent};

/// What is wrong with the reference of a foreign key.
#[derive(Clone, Copy)]
pub enum ReferenceFault<'a> {
    /// So many columns refer to so many others.
    PairCount {
        columns: usize,
        referenced: usize,
    },
    /// A column and the one that it refers to differ in type, or in length.
    PairTypes {
        column: &'a str,
        kind: ColumnType,
        referenced: &'a str,
        referenced_kind: ColumnType,
    },
    /// The columns of the list are no key that is NOT DEFERRABLE.
    NoReliableKey(&'a [Name]),
    /// There is no list, and no primary key.
    NoPrimaryKey,
    /// There is no list, and the primary key is DEFERRABLE.
    DeferrablePrimaryKey,
}

/// The rule that is broken, with names of the statement and of the catalogue.
#[derive(Clone, Copy)]
pub enum SchemaFault<'a> {
    /// The table has no column.
    ColumnlessTable(&'a str),
    /// The DEFAULT of a column doesn't fit its type.
    UnfitDefault {
        column: &'a str,
        kind: ColumnType,
        default: &'a Literal,
    },
    /// The constraint is the second PRIMARY KEY of its table.
    SecondPrimaryKey(NamedItem<'a>),
    /// The constraint is NOT DEFERRABLE and INITIALLY DEFERRED.
    ContradictoryTime(NamedItem<'a>),
    /// The constraint is a CHECK with EXISTS.
    ExistsInCheck(NamedItem<'a>),
    /// The constraint is a foreign key, and its reference to this table is at fault.
    Reference {
        constraint: NamedItem<'a>,
        table: &'a str,
        fault: ReferenceFault<'a>,
    },
    /// REFERENCING names the old or new row or table twice.
    ItemAgain(Side, TransitionName),
    /// REFERENCING gives this name to old rows of an INSERT or new rows of a DELETE.
    SideWithoutRows(&'a str, Side, TriggerEvent),
    /// REFERENCING gives this name to a row, and the trigger isn't FOR EACH ROW.
    RowOfStatement(&'a str),
    /// REFERENCING gives this name to a table, and the trigger is BEFORE.
    TableBefore(&'a str),
    /// The statement of this number, from 1, is INSERT, UPDATE or DELETE, and the trigger is BEFORE.
    ChangeBefore(usize),
    /// The statement of this number is SET, and the trigger is AFTER.
    SetAfter(usize),
    /// The statement of this number is SET, and the trigger isn't FOR EACH ROW.
    SetOfStatement(usize),
    /// The statement of this number is SET of a column of the row variable OLD.
    SetOfOld {
        number: usize,
        variable: &'a str,
        column: &'a str,
    },
}

/// The first of two, if it is there.
pub fn first_reference<'a>(
    first: Option<ReferenceFault<'a>>,
    second: Option<ReferenceFault<'a>>,
) -> Option<ReferenceFault<'a>>
    ensures { option_map reference_fault_seen result
        ≡ option_or (option_map reference_fault_seen first.entry)
        (option_map reference_fault_seen second.entry) }
{
    match first {
        Some(fault) => Some(fault),
        None => second,
    }
}

/// The same of rules.
pub fn first_rule<'a>(
    first: Option<SchemaFault<'a>>,
    second: Option<SchemaFault<'a>>,
) -> Option<SchemaFault<'a>>
    ensures { option_map schema_fault_seen result
        ≡ option_or (option_map schema_fault_seen first.entry)
        (option_map schema_fault_seen second.entry) }
{
    match first {
        Some(fault) => Some(fault),
        None => second,
    }
}

/// A constraint by the name that is given, or by its table and its place.
pub fn constraint_item<'a>(table: &'a str, place: u128, given: &'a Option<Name>) -> NamedItem<'a>
    ensures { item_seen result ≡ elim given.entry.now [
      | Some name ↦ constraint_item name
      | None ↦ generated_item table.entry.now place
    ] }
{
    match given {
        Some(name) => NamedItem::Constraint(name.as_str()),
        None => NamedItem::GeneratedConstraint(table, place),
    }
}
