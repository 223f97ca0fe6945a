//! A session as an `Executor`.

use crate::session::Session;
use iv_account::{Account, Entry};
use iv_catalogue::{Catalogue, Cause, Fault};
use iv_expr::{Row, TableId};
use iv_machine::Limits;
use iv_step::{Executor, Outcome};
use iv_store::Keeper;
use iv_syntax::Statement;
use sqlite_items::Items;
use std::alloc::{AllocError, Global};

impl<K: Keeper + Drop> Executor for Session<K> {
    ghost state = { λ s. s.state };

    ghost told = { λ s. s.account };

    ghost sure_store = { K.sure };

    fn new(alloc: Global, limits: Limits) -> Result<Self, AllocError> {
        Session::<K>::new(alloc, limits)
    }

    fn explain(&mut self, asked: bool) {
        self.explain(asked);
    }

    fn account(&self) -> &[Entry] {
        self.account()
    }

    fn is_untold(&self) -> bool {
        self.is_untold()
    }

    fn limits(&self) -> Limits {
        self.limits()
    }

    fn catalogue(&self) -> &Catalogue {
        self.catalogue()
    }

    fn in_transaction(&self) -> bool {
        self.in_transaction()
    }

    fn rows(&self, table: TableId) -> Result<Items<Row>, Cause> {
        self.rows(table)
    }

    fn pending(&self) -> Result<Vec<Fault>, AllocError> {
        self.pending()
    }

    fn violations(&self, faults: &[Fault]) -> Result<Account, AllocError> {
        self.violations(faults)
    }

    fn execute(&mut self, statement: &Statement) -> Outcome {
        self.execute(statement)
    }
}
