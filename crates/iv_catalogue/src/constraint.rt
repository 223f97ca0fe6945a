//! Integrity constraints.
ghost use Rattle.std.specs.Prelude.{◌≡◌};

use iv_expr::{Cond, TableId};
use iv_syntax::{ConstraintMode, MatchType, Name, NullTreatment, ReferentialAction};
use sqlite_items::Items;
use std::marker::Model;

/// A foreign key (ISO/IEC 9075-2:1999, "Referential constraint definition"). Columns are places in their table, from 0.
#[derive(Drop)]
pub struct ForeignKey {
    /// The referencing columns, in their order in the text.
    pub columns: Items<u32>,
    /// The referenced table.
    pub referenced: TableId,
    /// The referenced columns, each paired with the referencing column at its place.
    pub key: Items<u32>,
    pub matching: MatchType,
    pub on_delete: ReferentialAction,
    pub on_update: ReferentialAction,
}

/// What a constraint asks of a row of its table. Columns are places in the table, from 0.
#[derive(Drop)]
pub enum Rule {
    NotNull(u32),
    /// CHECK ("Check constraint definition").
    Check(Cond),
    /// UNIQUE ("Unique constraint definition").
    Unique(NullTreatment, Items<u32>),
    PrimaryKey(Items<u32>),
    ForeignKey(ForeignKey),
}

/// A constraint of a table.
#[derive(Drop)]
pub struct Constraint {
    pub name: Name,
    pub table: TableId,
    pub rule: Rule,
    /// Whether SET CONSTRAINTS may set its mode.
    pub deferrable: bool,
    /// Its mode at the start of each transaction.
    pub initially: ConstraintMode,
}

/// The constraints of a new table, in their order in the text. Contracts see it as the list.
pub struct Constraints {
    items: Vec<Constraint>,
}

impl Drop for Constraints {
    fn drop(self) {
        let Constraints { items } = self;
        drop(items);
    }
}

impl Model for Constraints {
    ghost use Rattle.std.specs.Prelude.{List};
    ghost use Rattle.iv_catalogue.specs.declared.constraint.Constraint.{Constraint};
    ghost use Rattle.iv_expr.specs.contracts.tree.Cond as cond;
    ghost use Rattle.std.specs.Coded.{codes};

    ghost Value = { List Constraint };

    ghost coded = { Prim.hlevel (codes, cond.the_row.coded) };

    ghost view = { λ c. c.items.items };
}

impl Constraints {
    /// The list of these constraints.
    pub fn from_vec(items: Vec<Constraint>) -> Constraints
        ensures { result ≡ items.items }
    {
        Constraints { items }
    }

    /// The constraints, as a slice.
    pub fn as_slice(&self) -> &[Constraint]
        ensures { result.now ≡ self.now }
    {
        self.items.as_slice()
    }

    /// The constraints, as a list. It allocates nothing.
    pub fn into_vec(self) -> Vec<Constraint>
        ensures { result.items ≡ self }
    {
        let Constraints { items } = self;
        items
    }
}
