//! CREATE TABLE t (k INT UNIQUE, up INT REFERENCES t (k) ON DELETE RESTRICT ON UPDATE CASCADE).
ghost use Rattle.std.specs.Prelude.{◌≡◌};
ghost use Rattle.iv_catalogue.specs.Catalogues.{empty_schema};
ghost use Rattle.iv_store.specs.Stores.{empty_store};
ghost use Rattle.iv_laws_rows.specs.Changing.{StoreFits};
ghost use Rattle.iv_tests_levels.specs.Pairs.{HasPairs, column_of, foreign_key, immediate, pair_columns, pair_keys, pair_table, unique_key, up_to_key};

use iv_catalogue::{Catalogue, Column, Constraint, Constraints, ForeignKey, Rule, Table};
use iv_expr::TableId;
use iv_store::Keeper;
use iv_syntax::{ConstraintMode, MatchType, Name, NullTreatment, ReferentialAction};
use iv_value::{Kind, Text, Value};
use sqlite_items::Items;
use std::alloc::Global;
use std::panic::Expect;
use std::process::Abort;

/// A name.
pub fn name(rt: &impl Abort, alloc: Global, text: &str) -> Name
    ensures { result ≡ text.now }
{
    Name::new(Text::new(alloc, text).expect(rt, "memory"))
}

fn column(name: Name) -> Column
    ensures { result ≡ column_of name }
{
    Column {
        name,
        kind: Kind::Integer,
        default: Value::Null,
    }
}

fn columns(rt: &impl Abort, alloc: Global) -> Items<Column>
    ensures { result ≡ pair_columns }
{
    let mut columns = Vec::new(alloc);
    let key = column(name(rt, alloc, "K"));
    columns.push(key).expect(rt, "memory");
    let up = column(name(rt, alloc, "UP"));
    columns.push(up).expect(rt, "memory");
    Items::from_vec(columns)
}

/// The table.
pub fn table(rt: &impl Abort, alloc: Global) -> Table
    ensures { result ≡ pair_table }
{
    Table {
        name: name(rt, alloc, "T"),
        columns: columns(rt, alloc),
    }
}

fn constraint(name: Name, rule: Rule) -> Constraint
    ensures { result ≡ immediate name rule }
{
    Constraint {
        name,
        table: TableId::new(0),
        rule,
        deferrable: false,
        initially: ConstraintMode::Immediate,
    }
}

fn reference(rt: &impl Abort, alloc: Global) -> ForeignKey
    ensures { result ≡ up_to_key }
{
    ForeignKey {
        columns: Items::from_slice(alloc, &[1]).expect(rt, "memory"),
        referenced: TableId::new(0),
        key: Items::from_slice(alloc, &[0]).expect(rt, "memory"),
        matching: MatchType::Simple,
        on_delete: ReferentialAction::Restrict,
        on_update: ReferentialAction::Cascade,
    }
}

fn unique(rt: &impl Abort, alloc: Global) -> Constraint
    ensures { result ≡ unique_key }
{
    let name = name(rt, alloc, "U");
    let columns = Items::from_slice(alloc, &[0]).expect(rt, "memory");
    constraint(name, Rule::Unique(NullTreatment::Distinct, columns))
}

fn foreign(rt: &impl Abort, alloc: Global) -> Constraint
    ensures { result ≡ foreign_key }
{
    let name = name(rt, alloc, "F");
    constraint(name, Rule::ForeignKey(reference(rt, alloc)))
}

fn keys(rt: &impl Abort, alloc: Global) -> Constraints
    ensures { result ≡ pair_keys }
{
    let mut keys = Vec::new(alloc);
    keys.push(unique(rt, alloc)).expect(rt, "memory");
    keys.push(foreign(rt, alloc)).expect(rt, "memory");
    Constraints::from_vec(keys)
}

/// Creates the table with its constraints.
#[tactic(auto, using(crate::proofs::Pairs::pairs_fit), unfolding(iv_catalogue::specs::Names::has_repeated))]
pub fn create<K: Keeper>(rt: &impl Abort, alloc: Global, store: &mut K, catalogue: &mut Catalogue)
    requires store { K.view store.old ≡ empty_store }
    requires catalogue { catalogue.old ≡ empty_schema }
    ensures fits { StoreFits catalogue.new (K.view store.new) }
    ensures pairs { HasPairs catalogue.new.tables }
{
    let keys = keys(rt, alloc);
    let table = table(rt, alloc);
    let added = store.add_table(&table, keys.as_slice());
    added.expect(rt, "memory");
    catalogue.add_table(table, keys).expect(rt, "memory");
}
