//! SELECT.
ghost use Rattle.std.specs.Prelude.{◌≡◌, ◌⊎◌, Err, IfErr, IfOk, true};
ghost use Rattle.iv_expr.specs.Scopes.{contents, table_rows};
ghost use Rattle.iv_account.specs.Accounts.{failure_told};
ghost use Rattle.iv_account.specs.Failures.{query_failure};
ghost use Rattle.iv_account.specs.Sessions.{query_told};
ghost use Rattle.iv_account.specs.Telling.{and_told};
ghost use Rattle.iv_catalogue.specs.Refusals.{is_memory_cause, out_of_memory, refusal_answer};
ghost use Rattle.iv_laws_rows.specs.Changing.{UnlessMemory};
ghost use Rattle.iv_machine.specs.Machine.{query_outcome};
ghost use Rattle.iv_state.specs.Performing.{Performs};

use crate::session_state::{SessionState, Work};
use iv_account::Account;
use iv_catalogue::{Cause, Outputs, QueryPlan, Refusal};
use iv_exec_context::tell_query;
use iv_exec_proposals::select;
use iv_expr::{Cond, Row, TableId};
use iv_machine::Answer;
use iv_step::Outcome;
use iv_store::{ChangeableRows, Keeper};
use sqlite_items::Items;

// A query that is refused for this cause. What fails in it is told.
fn refused<K: ChangeableRows>(
    store: &K,
    plan: &QueryPlan,
    cause: Cause,
    account: &mut Account,
) -> Outcome
    ensures answer { (result ≡ refusal_answer cause) ⊎ (result ≡ Err out_of_memory) }
    ensures told { UnlessMemory result (account.new ≡ and_told account.old (failure_told cause
        (query_failure (K.view store.now).base.rows plan.now))) }
{
    tell_query(store, plan, &cause, account)?;
    Err(Refusal::of(cause))
}

impl<K: Keeper + Drop> SessionState<K> {
    /// The rows of a table, by number; none if there is no such table. They share their values with the store. It takes
    /// time in proportion to them.
    #[tactic(auto, using(crate::proofs::AllRows::rows_are, crate::proofs::AllRows::memory_is))]
    pub fn rows(&self, table: TableId) -> Result<Items<Row>, Cause>
        ensures rows { IfOk result (λ rows. rows
            ≡ contents (table_rows self.now.state.database.rows table)) }
        ensures memory { IfErr result (λ cause. is_memory_cause cause ≡ true) }
    {
        let all = QueryPlan::Rows {
            table,
            outputs: Outputs::Star,
            filter: Cond::Always,
        };
        select(&self.store, &all)
    }

    // SELECT. What fails in it is told.
    pub(crate) fn query(&mut self, plan: &QueryPlan, account: &mut Account) -> Outcome
        ensures performs { Performs self.old.state
            (query_outcome self.old.state plan.now) result self.new }
        ensures still { self.new.looked_up ≡ self.old.looked_up }
        ensures told { UnlessMemory result (account.new
            ≡ and_told account.old (query_told self.old.state plan.now)) }
    {
        self.work = Work::none();
        match select(&self.store, plan) {
            Ok(rows) => Ok(Answer::Rows(rows)),
            Err(cause) => refused(&self.store, plan, cause, account),
        }
    }
}
