//! What a data statement runs under.
ghost use Rattle.std.specs.Prelude.{◌≡◌};
ghost use Rattle.iv_exec_context.specs.Triggered.{has_trigger, some_have_triggers};

use crate::triggered::{flags_of, has_trigger};
use iv_catalogue::{Catalogue, MOST_TABLES};
use iv_expr::{Change, TableId};
use iv_modes::Modes;
use std::marker::Model;

/// The catalogue and the mode of each constraint, both borrowed. A context is made once for a data statement of a
/// script and all that follows, and tells in constant time whether a table has triggers.
#[derive(Drop)]
pub struct Context<'a> {
    catalogue: &'a Catalogue,
    modes: &'a Modes,
    triggered: [bool; MOST_TABLES],
}

impl<'a> Model for Context<'a> {
    ghost use Rattle.iv_machine.specs.Context.{Context as Meaning};
    ghost use Rattle.iv_exec_context.specs.Triggered.{AreFlagged};
    ghost use Rattle.iv_expr.specs.contracts.tree.Cond as cond;
    ghost use Rattle.iv_expr.specs.contracts.tree.Expr as expr;
    ghost use Rattle.std.specs.Coded.{codes};

    ghost Value = { Meaning };

    ghost coded = { Prim.hlevel (codes, cond.the_row.coded, expr.the_row.coded) };

    ghost view = { λ c. record { schema = c.catalogue.now; modes = c.modes.now.modes } };

    ghost invariant = { λ c. AreFlagged c.catalogue.now.triggers c.triggered };
}

impl<'a> Context<'a> {
    /// The context of this catalogue with these modes. It takes one look at each trigger.
    pub fn new(catalogue: &'a Catalogue, modes: &'a Modes) -> Context<'a>
        ensures { result ≡ record { schema = catalogue.now; modes = modes.now.modes } }
    {
        Context {
            catalogue,
            modes,
            triggered: flags_of(catalogue.triggers()),
        }
    }

    /// The catalogue.
    pub fn catalogue(&self) -> &Catalogue
        ensures { result.now ≡ self.now.schema }
    {
        self.catalogue
    }

    /// The modes of its constraints.
    pub fn modes(&self) -> &Modes
        ensures { result.now.modes ≡ self.now.modes }
    {
        self.modes
    }

    /// Whether some trigger is on the table.
    pub fn has_trigger(&self, table: TableId) -> bool
        ensures { result ≡ has_trigger self.now.schema.triggers table }
    {
        has_trigger(&self.triggered, self.catalogue.triggers(), table)
    }

    /// Whether some of the changes is on a table that has triggers. It takes one look at each change.
    pub fn has_trigger_on(&self, changes: &[Change]) -> bool
        ensures { result ≡ some_have_triggers self.now.schema.triggers changes.now }
    {
        changes.iter().any(|change| self.has_trigger(change.table))
    }
}
