//! What an account records of COMMIT and SET CONSTRAINTS, the violations for which they are refused, and of RELEASE and
//! ROLLBACK TO SAVEPOINT.
ghost use Rattle.std.specs.Prelude.{◌≡◌, filter, not, true, IfOk, OnOk};
ghost use Rattle.iv_account.specs.Accounts.{faults_told};
ghost use Rattle.iv_account.specs.Sessions.{commit_told, modes_told, savepoint_told};
ghost use Rattle.iv_account.specs.Telling.{MayTell, and_told};
ghost use Rattle.iv_machine.specs.Databases.{is_deferred};

use crate::session_state::SessionState;
use iv_account::Account;
use iv_catalogue::{Catalogue, Fault};
use iv_machine::Which;
use iv_modes::Modes;
use iv_store::{ChangeableRows, Keeper};
use std::alloc::AllocError;

// Tells these violations.
fn tell_faults<K: ChangeableRows>(
    store: &K,
    catalogue: &Catalogue,
    faults: &[Fault],
    account: &mut Account,
) -> Result<(), AllocError>
    ensures { OnOk result (account.new ≡ and_told account.old
        (faults_told catalogue.now (K.view store.now).base.rows faults.now)) }
{
    for fault in faults {
        account.violated(store, catalogue, fault)?;
    }
    Ok(())
}

// Tells those of them whose constraint is immediate in these modes.
fn tell_immediate<K: ChangeableRows>(
    store: &K,
    catalogue: &Catalogue,
    faults: &[Fault],
    modes: &Modes,
    account: &mut Account,
) -> Result<(), AllocError>
    ensures { OnOk result (account.new ≡ and_told account.old
        (faults_told catalogue.now (K.view store.now).base.rows
        (filter (λ f. not (is_deferred modes.now.modes f.constraint)) faults.now))) }
{
    for fault in faults {
        if !modes.is_deferred(fault.constraint) {
            account.violated(store, catalogue, fault)?;
        }
    }
    Ok(())
}

impl<K: Keeper + Drop> SessionState<K> {
    // Tells all violations of the constraints that these modes make immediate, if an account is asked for.
    pub(crate) fn tell_modes(&self, modes: &Modes, account: &mut Account) -> Result<(), AllocError>
        ensures { OnOk result (account.new ≡ and_told account.old
            (modes_told self.now.state modes.now.modes)) }
    {
        if !account.is_asked() {
            return Ok(());
        }
        let faults = self.pending()?;
        tell_immediate(
            &self.store,
            &self.catalogue,
            faults.as_slice(),
            modes,
            account,
        )
    }

    // Tells all violations, if a transaction is open.
    fn tell_violations(&self, account: &mut Account) -> Result<(), AllocError>
        ensures { OnOk result (account.new ≡ and_told account.old (commit_told self.now.state)) }
    {
        if !self.in_transaction() {
            return Ok(());
        }
        let faults = self.store.list_faults(self.modes(), Which::All)?;
        tell_faults(&self.store, &self.catalogue, faults.as_slice(), account)
    }

    /// What an account tells of these violations.
    pub fn violations(&self, faults: &[Fault]) -> Result<Account, AllocError>
        ensures { IfOk result (λ account. account.entries
            ≡ faults_told self.now.state.schema self.now.state.database.rows faults.now) }
    {
        let mut account = Account::new(self.allocator(), true);
        tell_faults(&self.store, &self.catalogue, faults, &mut account)?;
        Ok(account)
    }

    /// Records what COMMIT is refused for, if an account is asked for. If an allocation fails, the account is empty and
    /// says so.
    pub fn tell_commit(&self, account: &mut Account)
        ensures { MayTell true account.old account.new (commit_told self.now.state) }
    {
        if !account.is_asked() {
            return;
        }
        if self.tell_violations(account).is_err() {
            *account = Account::untold(self.allocator());
        }
    }

    /// Records which savepoints stand, if none has this name and an account is asked for.
    pub(crate) fn tell_standing(&self, name: &str, account: &mut Account) -> Result<(), AllocError>
        ensures { OnOk result (account.new ≡ and_told account.old
            (savepoint_told self.now.state name.now)) }
    {
        if !account.is_asked() {
            return Ok(());
        }
        match self.saves.place_of(name) {
            Some(_) => Ok(()),
            None => {
                let names = self.saves.names(self.allocator())?;
                account.standing(names)
            }
        }
    }

    /// Records which savepoints stand for a ROLLBACK TO SAVEPOINT of this name, if none has it and an account is asked
    /// for. If an allocation fails, the account is empty and says so.
    pub fn tell_rollback_to(&self, name: &str, account: &mut Account)
        ensures { MayTell true account.old account.new (savepoint_told self.now.state name.now) }
    {
        if !account.is_asked() {
            return;
        }
        match self.tell_standing(name, account) {
            Ok(()) => {}
            Err(_) => *account = Account::untold(self.allocator()),
        }
    }
}
