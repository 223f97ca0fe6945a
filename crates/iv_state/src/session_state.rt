//! The parts of the state.
ghost use Rattle.std.specs.Prelude.{◌≡◌, false, IfOk, is_some, ◌-◌};
ghost use Rattle.iv_account.specs.Telling.{no_account};
ghost use Rattle.iv_machine.specs.Machine.{empty_state, no_work};
ghost use Rattle.iv_laws_fitting.specs.ConstraintShapes.{SchemaSuits};

use crate::savepoint_list::SavepointList;
use iv_catalogue::Catalogue;
use iv_machine::Limits;
use iv_modes::Modes;
use iv_store::Keeper;
use std::alloc::{AllocError, Global};
use std::marker::Model;

/// What the last statement or call did: how many row changes it made at all levels, how many it undid, and
/// how many keys it looked up.
#[derive(Clone, Copy, Debug, PartialEq, Eq)]
pub struct Work {
    pub changes: u64,
    pub undone: u64,
    pub lookups: u64,
}

impl Work {
    // Nothing was done.
    pub(crate) fn none() -> Work
        ensures { result ≡ record { changes = 0; undone = 0; lookups = 0 } }
    {
        Work {
            changes: 0,
            undone: 0,
            lookups: 0,
        }
    }
}

/// The state of a session, seen as the machine's, with the work of the last call.
///
/// The start of the transaction is the first mark of the store, and each savepoint of it has the next one.
pub struct SessionState<K: Keeper + Drop> {
    pub(crate) limits: Limits,
    pub(crate) catalogue: Catalogue,
    pub(crate) store: K,
    // The modes at the start of a transaction.
    pub(crate) initial: Modes,
    // The modes after SET CONSTRAINTS. Once there are any, there are to the end of the transaction, so that
    // ROLLBACK TO SAVEPOINT sets them in place.
    pub(crate) changed: Option<Modes>,
    pub(crate) active: bool,
    pub(crate) saves: SavepointList,
    pub(crate) work: Work,
}

// Written out, so that it is proved once, and not again in each crate that drops a state.
impl<K: Keeper + Drop> Drop for SessionState<K> {
    fn drop(self) {
        let SessionState {
            limits: _,
            catalogue,
            store,
            initial,
            changed,
            active: _,
            saves,
            work: _,
        } = self;
        drop(catalogue);
        drop(store);
        drop(initial);
        drop(changed);
        drop(saves);
    }
}

impl<K: Keeper + Drop> Model for SessionState<K> {
    ghost use Rattle.iv_state.specs.Kept.{Seen, Kept, parts, seen};
    ghost use Rattle.iv_expr.specs.contracts.tree.Cond as cond;
    ghost use Rattle.iv_expr.specs.contracts.tree.Expr as expr;
    ghost use Rattle.std.specs.Coded.{codes};

    ghost Value = { Seen };

    ghost coded = { Prim.hlevel (codes, cond.the_row.coded, expr.the_row.coded) };

    ghost view = { λ s. seen K.view K.lookups s };

    ghost invariant = { λ s. Kept (parts K.view s) };
}

impl<K: Keeper + Drop> SessionState<K> {
    /// The state without tables, with these limits.
    pub fn new(alloc: Global, limits: Limits) -> Result<Self, AllocError>
        ensures { IfOk result (λ s. s
            ≡ record {
              state = empty_state limits;
              work = no_work;
              lookups = 0;
              looked_up = 0;
              account = no_account false;
            }) }
    {
        Ok(SessionState {
            limits,
            initial: Modes::initial(alloc, &[])?,
            catalogue: Catalogue::new(alloc),
            store: K::new(alloc),
            changed: None,
            active: false,
            saves: SavepointList::new(alloc),
            work: Work::none(),
        })
    }

    /// The tables, constraints and triggers. The definitions suit the tables.
    pub fn catalogue(&self) -> &Catalogue
        ensures now { result.now ≡ self.now.state.schema }
        ensures suits { SchemaSuits self.now.state.schema }
    {
        &self.catalogue
    }

    /// The limits of its statements.
    pub fn limits(&self) -> Limits
        ensures { result ≡ self.now.state.limits }
    {
        self.limits
    }

    /// The allocator that memory is taken from.
    pub fn allocator(&self) -> Global {
        self.store.allocator()
    }

    /// Whether a transaction is open.
    pub fn in_transaction(&self) -> bool
        ensures { result ≡ is_some self.now.state.start }
    {
        self.active
    }

    /// What the last statement or call did.
    pub fn work(&self) -> Work
        ensures work { record { changes = result.changes; undone = result.undone } ≡ self.now.work }
        ensures lookups { result.lookups ≡ self.now.lookups }
    {
        Work {
            changes: self.work.changes,
            undone: self.work.undone,
            lookups: self.work.lookups,
        }
    }
}
