//! INSERT, UPDATE and DELETE as levels.

use iv_account::Account;
use iv_catalogue::{Catalogue, DataStatement, Refusal};
use iv_exec_level::change;
use iv_machine::Limits;
use iv_modes::Modes;
use iv_state::DataStatements;
use iv_store::ChangeableRows;

// A data statement of a script is a level.
pub(crate) struct Levels;

impl DataStatements for Levels {
    fn change<K: ChangeableRows>(
        store: &mut K,
        statement: &DataStatement,
        catalogue: &Catalogue,
        modes: &Modes,
        limits: Limits,
        account: &mut Account,
    ) -> Result<u64, Refusal> {
        change(store, statement, catalogue, modes, limits, account)
    }
}
