//! Waves until nothing follows.
ghost use Rattle.std.specs.Prelude.{◌≡◌, ◌+◌, ◌-◌, ◌*◌, ◌≤◌, ◌++◌, ◌∷◌, [], length, true, IfOk, OnOk};
ghost use Rattle.iv_laws_levels.specs.FittingWaves.{Chain};
ghost use Rattle.iv_machine.specs.Databases.{database_after};
ghost use Rattle.iv_machine.specs.Waves.{one_wave, settled_waves};
ghost use Rattle.iv_account.specs.Accounts.{applied_told, one_wave_told, waves_told};
ghost use Rattle.iv_laws_rows.specs.RowFits.{changes_fit};
ghost use Rattle.iv_laws_rows.specs.Changing.{AnswersAt, StoreFits};
ghost use Rattle.iv_exec_triggers.specs.Recording.{Records};
ghost use Rattle.iv_exec_waves.specs.Applying.{Applicable, Proposes};
ghost use Rattle.iv_exec_waves.specs.Progress.{Progress};
ghost use Rattle.iv_exec_waves.specs.Running.{LeavesStore};
ghost use Rattle.iv_exec_waves.specs.Steps.{followed_by, wave_with};

use crate::applying::apply_all;
use crate::entering::enter;
use crate::following::next_wave_told;
use iv_account::Account;
use iv_catalogue::Refusal;
use iv_exec_context::Context;
use iv_expr::{Change, TableColumn, Wave};
use iv_store::ChangeableRows;
use std::alloc::AllocError;

// A wave as it was applied, and the wave that follows.
#[derive(Drop)]
struct AppliedWave {
    wave: Wave,
    next: Wave,
}

// Applies a wave, tells it, and finds what follows it.
fn follow<K: ChangeableRows>(
    store: &mut K,
    context: &Context<'_>,
    wave: Wave,
    account: &mut Account,
) -> Result<AppliedWave, Refusal>
    requires applicable { Applicable (K.view store.old).tables
        (K.view store.old).base wave.changes }
    requires store { StoreFits context.now.schema (K.view store.old) }
    ensures answer { AnswersAt (λ x. record { wave = x.wave; next = x.next })
        (K.view store.new).base.count result
        (followed_by context.now (K.view store.old).base wave) }
    ensures applied { IfOk result (λ x. (K.view store.new).base
        ≡ database_after (K.view store.old).base x.wave) }
    ensures store { LeavesStore context.now.schema result
        (K.view store.old) (K.lookups store.old) (K.view store.new) (K.lookups store.new) }
    ensures told { Records result account.old account.new
        (applied_told context.now (K.view store.old).base wave) }
{
    apply_all(store, wave.changes())?;
    account.changed(wave.changes())?;
    let next = next_wave_told(store, context.catalogue(), &wave, account)?;
    Ok(AppliedWave { wave, next })
}

// One wave: what is applied of it, and what follows.
fn one_wave<K: ChangeableRows>(
    store: &mut K,
    context: &Context<'_>,
    budget: u64,
    changes: Vec<Change>,
    columns: Vec<TableColumn>,
    account: &mut Account,
) -> Result<AppliedWave, Refusal>
    requires { Progress context.now (K.view store.old) changes.items }
    ensures answer { AnswersAt (λ x. record { wave = x.wave; next = x.next })
        (K.view store.new).base.count result
        (one_wave context.now (K.view store.old).base budget
        (wave_with columns.items changes.items)) }
    ensures applied { IfOk result (λ x. (K.view store.new).base
        ≡ database_after (K.view store.old).base x.wave) }
    ensures store { LeavesStore context.now.schema result
        (K.view store.old) (K.lookups store.old) (K.view store.new) (K.lookups store.new) }
    ensures told { Records result account.old account.new
        (one_wave_told context.now (K.view store.old).base budget
        (wave_with columns.items changes.items)) }
{
    let wave = enter(store, context, budget, changes, columns, account)?;
    follow(store, context, wave, account)
}

fn add(waves: &mut Vec<Wave>, wave: Wave) -> Result<(), AllocError>
    ensures { OnOk result (waves.new.items ≡ waves.old.items ++ wave ∷ []) }
{
    waves.push(wave)?;
    Ok(())
}

/// Applies the changes that a statement proposes, and what follows from them by referential actions, wave after wave,
/// and answers the waves as applied. The columns are those of the statement's SET list; the budget is what the
/// statement may still change. A refused call may have applied some waves, and the caller undoes the store. The account
/// records each wave and what follows it, up to a refusal.
pub fn settle<K: ChangeableRows>(
    store: &mut K,
    context: &Context<'_>,
    budget: &mut u64,
    changes: Vec<Change>,
    columns: Vec<TableColumn>,
    account: &mut Account,
) -> Result<Vec<Wave>, Refusal>
    requires store { StoreFits context.now.schema (K.view store.old) }
    requires fit { changes_fit context.now.schema.tables changes.items ≡ true }
    requires proposed { Proposes context.now (K.view store.old).base changes.items }
    ensures answer { AnswersAt (λ waves. record {
      last = (K.view store.new).base;
      waves = waves.items;
      rest = budget.new;
    })
        (K.view store.new).base.count result
        (settled_waves context.now (K.view store.old).base budget.old
        (wave_with columns.items changes.items)) }
    ensures chain { IfOk result
        (λ waves. Chain (K.view store.old).base waves.items (K.view store.new).base) }
    ensures store { LeavesStore context.now.schema result
        (K.view store.old) (K.lookups store.old) (K.view store.new) (K.lookups store.new) }
    ensures told { Records result account.old account.new
        (waves_told context.now (K.view store.old).base budget.old
        (wave_with columns.items changes.items)) }
{
    // Called for what its contract says: the rows are numbered in rising order.
    store.next_row();
    let mut waves = Vec::new(store.allocator());
    let mut changes = changes;
    let mut columns = columns;
    while !changes.is_empty() {
        let applied = one_wave(store, context, *budget, changes, columns, account)?;
        let AppliedWave { wave, next } = applied;
        *budget -= wave.changes().len() as u64;
        add(&mut waves, wave)?;
        let (next_changes, next_columns) = next.into_parts();
        changes = next_changes;
        columns = next_columns;
    }
    Ok(waves)
}
