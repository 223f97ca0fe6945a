//! A database for a program that ends with it.
ghost use Rattle.std.specs.Mem.{manually_drop_value};

use iv_account::{Account, Entry};
use iv_catalogue::{Catalogue, Cause, Fault};
use iv_expr::{Row, TableId};
use iv_machine::Limits;
use iv_step::{Executor, Outcome};
use iv_syntax::Statement;
use sqlite_items::Items;
use std::alloc::{AllocError, Global};
use std::marker::Model;
use std::mem::ManuallyDrop;

/// A database whose drop gives no memory back. It is for a program that ends then: the system takes all of its memory at
/// once, and no row is freed by itself. All else is as with the database itself.
#[derive(Drop)]
pub struct Lasting<X> {
    database: ManuallyDrop<X>,
}

impl<X> Model for Lasting<X> {
    ghost use Rattle.std.specs.Mem.{manually_drop_value};

    ghost Value = { X };

    ghost view = { λ l. manually_drop_value l.database };
}

impl<X: Executor + Drop> Executor for Lasting<X> {
    ghost state = { λ l. X.state l };

    ghost told = { λ l. X.told l };

    ghost sure_store = { X.sure_store };

    fn new(alloc: Global, limits: Limits) -> Result<Self, AllocError> {
        let database = X::new(alloc, limits)?;
        Ok(Lasting {
            database: ManuallyDrop::new(database),
        })
    }

    fn explain(&mut self, asked: bool) {
        self.database.explain(asked);
    }

    fn account(&self) -> &[Entry] {
        self.database.account()
    }

    fn is_untold(&self) -> bool {
        self.database.is_untold()
    }

    fn limits(&self) -> Limits {
        self.database.limits()
    }

    fn catalogue(&self) -> &Catalogue {
        self.database.catalogue()
    }

    fn in_transaction(&self) -> bool {
        self.database.in_transaction()
    }

    fn rows(&self, table: TableId) -> Result<Items<Row>, Cause> {
        self.database.rows(table)
    }

    fn pending(&self) -> Result<Vec<Fault>, AllocError> {
        self.database.pending()
    }

    fn violations(&self, faults: &[Fault]) -> Result<Account, AllocError> {
        self.database.violations(faults)
    }

    fn execute(&mut self, statement: &Statement) -> Outcome {
        self.database.execute(statement)
    }
}
