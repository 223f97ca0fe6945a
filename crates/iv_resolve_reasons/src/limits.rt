//! The limit that a statement is beyond. Nothing here allocates; each function takes time in proportion to the
//! statement.
ghost use Rattle.std.specs.Prelude.{◌≡◌, ◌+◌, ◌==◌, length, map, nat_le, nat_lt, not, option_map};
ghost use Rattle.std.specs.List.{enumerate_from};
ghost use Rattle.std.specs.Option.{option_or};
ghost use Rattle.iv_catalogue.specs.declared.limits.TheConstants.{MOST_CHARACTERS, MOST_COLUMNS, MOST_CONSTRAINTS, MOST_KEY_COLUMNS};
ghost use Rattle.iv_resolution.specs.Constraints.{constraints_of, table_constraint, written_columns, written_constraints};
ghost use Rattle.iv_resolution.specs.Items.{first_of, told_if};
ghost use Rattle.iv_resolution.specs.NameFaults.{item_of_constraint};
ghost use Rattle.iv_resolution.specs.Tables.{altered_at};
ghost use Rattle.iv_resolution.specs.Writable.{is_writable};
ghost use Rattle.iv_resolve_name_faults.specs.Seen.{item_seen};
ghost use Rattle.iv_resolve_tables.specs.Seen.{constraint_seen, rule_seen};
ghost use Rattle.iv_resolve_reasons.specs.Limits.{limit_fault, limit_in_alteration, limit_in_statement, limit_in_table, limit_in_trigger, limit_of_addition};
ghost use Rattle.iv_resolve_reasons.specs.Limits.{limit_of_columns, limit_of_key, limit_of_type, many_columns, many_constraints, many_statements, many_tables};
ghost use Rattle.iv_resolve_reasons.specs.Limits.{many_triggers, many_triggers_ever, no_text};
ghost use Rattle.iv_resolve_reasons.specs.Seen.{limit_fault_seen};

use crate::rule::constraint_item;
use iv_catalogue::{
    Catalogue, MOST_BODY_STATEMENTS, MOST_CHARACTERS, MOST_COLUMNS, MOST_CONSTRAINTS,
    MOST_KEY_COLUMNS, MOST_TABLES, MOST_TRIGGERS, MOST_TRIGGERS_EVER, Table,
};
use iv_resolve::is_writable;
use iv_resolve_name_faults::NamedItem;
use iv_resolve_scope::{Columns, table_place};
use iv_resolve_tables::{Unread, WrittenRule, count_constraints, count_stored, table_constraint};
use iv_syntax::{
    ColumnDefinition, ColumnType, Name, Statement, TableConstraint, TableElement, TriggerDefinition,
};

/// The limit: the most that there may be, and how many there would be.
#[derive(Clone, Copy)]
pub enum LimitFault<'a> {
    Tables {
        most: usize,
        asked: usize,
    },
    /// Of a table.
    Columns {
        table: &'a str,
        most: usize,
        asked: usize,
    },
    /// Of a table.
    Constraints {
        table: &'a str,
        most: usize,
        asked: u128,
    },
    /// Of a UNIQUE or PRIMARY KEY.
    KeyColumns {
        constraint: NamedItem<'a>,
        most: usize,
        asked: usize,
    },
    /// VARCHAR of no character.
    NoCharacters {
        column: &'a str,
    },
    /// Of a VARCHAR.
    Characters {
        column: &'a str,
        most: u64,
        asked: u64,
    },
    Triggers {
        most: usize,
        asked: usize,
    },
    /// Triggers that were ever created.
    TriggersEver {
        most: u32,
        asked: u64,
    },
    /// Of a trigger's body.
    Statements {
        trigger: &'a str,
        most: usize,
        asked: usize,
    },
    /// No text of the language is the statement.
    NoText,
}

fn first_limit<'a>(
    first: Option<LimitFault<'a>>,
    second: Option<LimitFault<'a>>,
) -> Option<LimitFault<'a>>
    ensures { option_map limit_fault_seen result
        ≡ option_or (option_map limit_fault_seen first.entry)
        (option_map limit_fault_seen second.entry) }
{
    match first {
        Some(fault) => Some(fault),
        None => second,
    }
}

// ---- keys and types

fn limit_of_columns<'t>(constraint: NamedItem<'t>, columns: &[Name]) -> Option<LimitFault<'t>>
    ensures { option_map limit_fault_seen result
        ≡ limit_of_columns (item_seen constraint.entry) columns.now }
{
    let asked = columns.len();
    if asked > MOST_KEY_COLUMNS {
        Some(LimitFault::KeyColumns {
            constraint,
            most: MOST_KEY_COLUMNS,
            asked,
        })
    } else {
        None
    }
}

fn limit_of_key<'t>(constraint: NamedItem<'t>, rule: &WrittenRule<'_>) -> Option<LimitFault<'t>>
    ensures { option_map limit_fault_seen result
        ≡ limit_of_key (item_seen constraint.entry) (rule_seen rule.now) }
{
    match rule {
        WrittenRule::NotNull(_) => None,
        WrittenRule::Unique(_, columns) => limit_of_columns(constraint, columns),
        WrittenRule::PrimaryKey(columns) => limit_of_columns(constraint, columns),
        WrittenRule::Check(_) => None,
        WrittenRule::ForeignKey(_, _) => None,
    }
}

fn limit_of_type<'t>(column: &'t str, kind: ColumnType) -> Option<LimitFault<'t>>
    ensures { option_map limit_fault_seen result ≡ limit_of_type column.entry.now kind }
{
    match kind {
        ColumnType::Integer => None,
        ColumnType::Varchar(asked) => {
            if asked == 0 {
                return Some(LimitFault::NoCharacters { column });
            }
            if asked > MOST_CHARACTERS {
                return Some(LimitFault::Characters {
                    column,
                    most: MOST_CHARACTERS,
                    asked,
                });
            }
            None
        }
    }
}

// ---- CREATE TABLE

fn limit_of_types<'t>(elements: &'t [TableElement]) -> Option<LimitFault<'t>>
    ensures { option_map limit_fault_seen result ≡ first_of (λ c. limit_of_type c.name c.kind)
        (written_columns elements.entry.now) }
{
    for element in elements {
        if let TableElement::Column(column) = element {
            if let Some(fault) = limit_of_type(column.name.as_str(), column.kind) {
                return Some(fault);
            }
        }
    }
    None
}

fn limit_of_keys<'t>(table: &'t str, elements: &'t [TableElement]) -> Option<LimitFault<'t>>
    ensures { option_map limit_fault_seen result ≡ first_of
        (λ p. limit_of_key (item_of_constraint table.entry.now p.0 p.1) p.1.rule)
        (enumerate_from 1 (written_constraints elements.entry.now)) }
{
    let count = count_constraints(elements);
    let mut left = Unread::Outside(elements);
    let mut place = 1u128;
    while let Some((constraint, rest)) = left.first() {
        let item = constraint_item(table, place, constraint.name);
        let fault = limit_of_key(item, &constraint.rule);
        if fault.is_some() {
            return fault;
        }
        left = rest;
        place += 1;
    }
    None
}

fn tables_told<'t>(catalogue: &Catalogue) -> Option<LimitFault<'t>>
    ensures { option_map limit_fault_seen result
        ≡ told_if (nat_le MOST_TABLES (length catalogue.now.tables))
        (many_tables MOST_TABLES (length catalogue.now.tables + 1)) }
{
    let count = catalogue.tables().len();
    if count >= MOST_TABLES {
        Some(LimitFault::Tables {
            most: MOST_TABLES,
            asked: count + 1,
        })
    } else {
        None
    }
}

fn columns_told<'t>(table: &'t str, elements: &[TableElement]) -> Option<LimitFault<'t>>
    ensures { option_map limit_fault_seen result
        ≡ told_if (nat_lt MOST_COLUMNS (length (written_columns elements.now)))
        (many_columns table.entry.now MOST_COLUMNS (length (written_columns elements.now))) }
{
    let asked = Columns::Defined(elements).len();
    if asked > MOST_COLUMNS {
        Some(LimitFault::Columns {
            table,
            most: MOST_COLUMNS,
            asked,
        })
    } else {
        None
    }
}

fn constraints_told<'t>(table: &'t str, elements: &[TableElement]) -> Option<LimitFault<'t>>
    ensures { option_map limit_fault_seen result
        ≡ told_if (nat_lt MOST_CONSTRAINTS (length (written_constraints elements.now)))
        (many_constraints table.entry.now MOST_CONSTRAINTS (length (written_constraints elements.now))) }
{
    let asked = count_constraints(elements);
    if asked > MOST_CONSTRAINTS as u128 {
        Some(LimitFault::Constraints {
            table,
            most: MOST_CONSTRAINTS,
            asked,
        })
    } else {
        None
    }
}

fn limit_in_table<'t>(
    catalogue: &Catalogue,
    name: &'t str,
    elements: &'t [TableElement],
) -> Option<LimitFault<'t>>
    ensures { option_map limit_fault_seen result
        ≡ limit_in_table catalogue.now name.entry.now elements.entry.now }
{
    let keys = limit_of_keys(name, elements);
    let after_constraints = first_limit(limit_of_types(elements), keys);
    let after_columns = first_limit(constraints_told(name, elements), after_constraints);
    let after_tables = first_limit(columns_told(name, elements), after_columns);
    first_limit(tables_told(catalogue), after_tables)
}

// ---- ALTER TABLE

fn added_told<'t>(table: &'t str, count: usize) -> Option<LimitFault<'t>>
    ensures { option_map limit_fault_seen result ≡ told_if (nat_le MOST_CONSTRAINTS count)
        (many_constraints table.entry.now MOST_CONSTRAINTS (count + 1)) }
{
    if count >= MOST_CONSTRAINTS {
        Some(LimitFault::Constraints {
            table,
            most: MOST_CONSTRAINTS,
            asked: count as u128 + 1,
        })
    } else {
        None
    }
}

fn limit_of_added<'t>(
    catalogue: &Catalogue,
    place: u32,
    table: &'t Table,
    constraint: &'t TableConstraint,
) -> Option<LimitFault<'t>>
    ensures { option_map limit_fault_seen result ≡ limit_of_addition catalogue.now
        (altered_at catalogue.now place table.entry.now) (table_constraint constraint.entry.now) }
{
    let name = table.name.as_str();
    let count = count_stored(catalogue, place);
    let written = table_constraint(constraint);
    let item = constraint_item(name, count as u128 + 1, written.name);
    first_limit(added_told(name, count), limit_of_key(item, &written.rule))
}

fn limit_in_alteration<'t>(
    catalogue: &'t Catalogue,
    name: &str,
    constraint: &'t TableConstraint,
) -> Option<LimitFault<'t>>
    ensures { option_map limit_fault_seen result
        ≡ limit_in_alteration catalogue.entry.now name.now constraint.entry.now }
{
    let tables = catalogue.tables();
    match table_place(tables, name) {
        Some(place) => match tables.get(place) {
            Some(table) => limit_of_added(catalogue, place as u32, table, constraint),
            None => None,
        },
        None => None,
    }
}

// ---- CREATE TRIGGER

fn triggers_told<'t>(catalogue: &Catalogue) -> Option<LimitFault<'t>>
    ensures { option_map limit_fault_seen result
        ≡ told_if (nat_le MOST_TRIGGERS (length catalogue.now.triggers))
        (many_triggers MOST_TRIGGERS (length catalogue.now.triggers + 1)) }
{
    let count = catalogue.triggers().len();
    if count >= MOST_TRIGGERS {
        Some(LimitFault::Triggers {
            most: MOST_TRIGGERS,
            asked: count + 1,
        })
    } else {
        None
    }
}

fn triggers_ever_told<'t>(catalogue: &Catalogue) -> Option<LimitFault<'t>>
    ensures { option_map limit_fault_seen result
        ≡ told_if (nat_le MOST_TRIGGERS_EVER catalogue.now.created)
        (many_triggers_ever MOST_TRIGGERS_EVER (catalogue.now.created + 1)) }
{
    let count = catalogue.triggers_ever();
    if count >= MOST_TRIGGERS_EVER {
        Some(LimitFault::TriggersEver {
            most: MOST_TRIGGERS_EVER,
            asked: count as u64 + 1,
        })
    } else {
        None
    }
}

fn statements_told<'t>(trigger: &'t TriggerDefinition) -> Option<LimitFault<'t>>
    ensures { option_map limit_fault_seen result
        ≡ told_if (nat_lt MOST_BODY_STATEMENTS (length trigger.entry.now.body))
        (many_statements trigger.entry.now.name MOST_BODY_STATEMENTS (length trigger.entry.now.body)) }
{
    let asked = trigger.body.as_slice().len();
    if asked > MOST_BODY_STATEMENTS {
        Some(LimitFault::Statements {
            trigger: trigger.name.as_str(),
            most: MOST_BODY_STATEMENTS,
            asked,
        })
    } else {
        None
    }
}

fn limit_in_trigger<'t>(
    catalogue: &Catalogue,
    trigger: &'t TriggerDefinition,
) -> Option<LimitFault<'t>>
    ensures { option_map limit_fault_seen result
        ≡ limit_in_trigger catalogue.now trigger.entry.now }
{
    let after_triggers = first_limit(triggers_ever_told(catalogue), statements_told(trigger));
    first_limit(triggers_told(catalogue), after_triggers)
}

// ---- statements

fn limit_in_statement<'a>(
    catalogue: &'a Catalogue,
    statement: &'a Statement,
) -> Option<LimitFault<'a>>
    ensures { option_map limit_fault_seen result
        ≡ limit_in_statement catalogue.entry.now statement.entry.now }
{
    match statement {
        Statement::CreateTable { name, elements } => {
            limit_in_table(catalogue, name.as_str(), elements.as_slice())
        }
        Statement::AlterTable { table, constraint } => {
            limit_in_alteration(catalogue, table.as_str(), constraint)
        }
        Statement::CreateTrigger(trigger) => limit_in_trigger(catalogue, trigger),
        _ => None,
    }
}

fn text_told<'a>(statement: &Statement) -> Option<LimitFault<'a>>
    ensures { option_map limit_fault_seen result ≡ told_if (not (is_writable statement.now)) no_text }
{
    if is_writable(statement) {
        return None;
    }
    Some(LimitFault::NoText)
}

/// The first limit that a statement is beyond. There is one if and only if the statement deserves Limit.
pub fn limit_fault<'a>(catalogue: &'a Catalogue, statement: &'a Statement) -> Option<LimitFault<'a>>
    ensures { option_map limit_fault_seen result
        ≡ limit_fault catalogue.entry.now statement.entry.now }
{
    let limit = limit_in_statement(catalogue, statement);
    first_limit(limit, text_told(statement))
}
