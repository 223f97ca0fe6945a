//! SET CONSTRAINTS.
ghost use Rattle.std.specs.Prelude.{◌≡◌, ◌*◌, ◌+◌, ◌<◌, ◌≤◌, true, false, length, filter, map, IfOk, Some, None};
ghost use Rattle.std.specs.List.{enumerate_from};
ghost use Rattle.iv_catalogue.specs.declared.plan.ConstraintSet.TheVariants as set;
ghost use Rattle.iv_catalogue.specs.declared.limits.TheConstants.{MOST_CONSTRAINTS, MOST_TABLES};
ghost use Rattle.iv_machine.specs.Machine.{constraints_meant, first_made_immediate, is_deferrable, is_open, set_constraints_outcome};
ghost use Rattle.iv_account.specs.Sessions.{set_constraints_told};
ghost use Rattle.iv_account.specs.Telling.{and_told};
ghost use Rattle.iv_laws_rows.specs.Changing.{UnlessMemory};
ghost use Rattle.iv_state.specs.Deferring.{DefersNoLess};
ghost use Rattle.iv_state.specs.Performing.{Performs};

use crate::savepoints::refuse;
use crate::session_state::{SessionState, Work};
use iv_account::Account;
use iv_catalogue::{Catalogue, Cause, Constraint, ConstraintId, ConstraintSet, Fault};
use iv_machine::{Answer, Which};
use iv_modes::Modes;
use iv_step::Outcome;
use iv_store::{ChangeableRows, Keeper};
use iv_syntax::ConstraintMode;
use std::alloc::{AllocError, Global};

// Whether the mode of the constraint may be set.
fn is_deferrable(catalogue: &Catalogue, id: ConstraintId) -> bool
    ensures { result ≡ is_deferrable catalogue.now id }
{
    match catalogue.constraint(id) {
        Some(constraint) => constraint.deferrable,
        None => false,
    }
}

// Those of the constraints of the catalogue whose mode may be set.
fn all_of(
    alloc: Global,
    catalogue: &Catalogue,
    constraints: &[Constraint],
) -> Result<Vec<ConstraintId>, AllocError>
    requires few { length constraints.now ≤ MOST_TABLES * MOST_CONSTRAINTS }
    ensures { IfOk result (λ ids. ids.items ≡
        filter (is_deferrable catalogue.now) (map (λ k. k.0) (enumerate_from 0 constraints.now))) }
{
    let mut ids = Vec::new(alloc);
    let mut place = 0u32;
    for _constraint in constraints {
        let id = ConstraintId::new(place);
        if is_deferrable(catalogue, id) {
            ids.push(id)?;
        }
        place += 1;
    }
    Ok(ids)
}

// All constraints whose mode may be set.
fn all_deferrable(alloc: Global, catalogue: &Catalogue) -> Result<Vec<ConstraintId>, AllocError>
    ensures { IfOk result (λ ids. ids.items ≡ constraints_meant catalogue.now set.All) }
{
    all_of(alloc, catalogue, catalogue.constraints())
}

impl<K: Keeper + Drop> SessionState<K> {
    // The first violation of a constraint that these modes make immediate, if they come of setting this mode. To defer
    // makes none immediate, so no row is read for it.
    #[tactic(auto, using(crate::proofs::Deferred::none_made_immediate, crate::proofs::Deferred::made_immediate))]
    fn first_made_immediate(
        &self,
        modes: &Modes,
        mode: ConstraintMode,
    ) -> Result<Option<Fault>, AllocError>
        requires { DefersNoLess self.now.state.modes mode modes.now.modes }
        ensures { IfOk result (λ fault.
            fault ≡ first_made_immediate self.now.state modes.now.modes) }
    {
        match mode {
            ConstraintMode::Deferred => Ok(None),
            ConstraintMode::Immediate => {
                let made = self.modes().made_immediate(modes)?;
                let fault = self.store.first_fault(&made, Which::Deferred);
                drop(made);
                Ok(fault)
            }
        }
    }

    // Sets the modes of these constraints.
    fn set_modes(
        &mut self,
        ids: &[ConstraintId],
        mode: ConstraintMode,
        account: &mut Account,
    ) -> Outcome
        requires { is_open self.old.state ≡ true }
        ensures performs { Performs self.old.state
            (set_constraints_outcome self.old.state ids.now mode) result self.new }
        ensures still { self.new.looked_up ≡ self.old.looked_up }
        ensures told { UnlessMemory result (account.new ≡ and_told account.old
            (set_constraints_told self.old.state ids.now mode)) }
    {
        self.work = Work::none();
        let mut modes = self.modes().copy()?;
        if let Err(refused) = modes.set(ids, mode) {
            return refuse(Cause::NotDeferrable(refused.0));
        }
        self.tell_modes(&modes, account)?;
        match self.first_made_immediate(&modes, mode)? {
            Some(fault) => refuse(Cause::Violation(fault)),
            None => {
                self.changed = Some(modes);
                Ok(Answer::Done)
            }
        }
    }

    // SET CONSTRAINTS.
    pub(crate) fn set_constraints(
        &mut self,
        set: &ConstraintSet,
        mode: ConstraintMode,
        account: &mut Account,
    ) -> Outcome
        requires { is_open self.old.state ≡ true }
        ensures performs { Performs self.old.state
            (set_constraints_outcome self.old.state
            (constraints_meant self.old.state.schema set.now) mode) result self.new }
        ensures still { self.new.looked_up ≡ self.old.looked_up }
        ensures told { UnlessMemory result (account.new ≡ and_told account.old
            (set_constraints_told self.old.state
            (constraints_meant self.old.state.schema set.now) mode)) }
    {
        match set {
            ConstraintSet::All => {
                let ids = all_deferrable(self.store.allocator(), &self.catalogue)?;
                self.set_modes(ids.as_slice(), mode, account)
            }
            ConstraintSet::Named(ids) => self.set_modes(ids.as_slice(), mode, account),
        }
    }
}
