//! A wave is applied to a store change by change.
ghost use Rattle.std.specs.Prelude.{◌≡◌, ◌+◌, ◌*◌, ◌≤◌, length, OnErr, OnOk};
ghost use Rattle.iv_expr.specs.Changes.{wave_of};
ghost use Rattle.iv_machine.specs.Databases.{database_after};
ghost use Rattle.iv_store.specs.Stores.{most_lookups, store_after};
ghost use Rattle.iv_laws_rows.specs.Changing.{with_database};
ghost use Rattle.iv_exec_waves.specs.Applying.{Applicable, IsNext};

use iv_expr::Change;
use iv_store::ChangeableRows;
use std::alloc::AllocError;

// Makes one change.
fn apply<K: ChangeableRows>(store: &mut K, change: &Change) -> Result<(), AllocError>
    requires { IsNext (K.view store.old) change.now }
    ensures ok { OnOk result (K.view store.new ≡ store_after (K.view store.old) change.now) }
    ensures err { OnErr result (K.view store.new ≡ K.view store.old) }
    ensures looked_up { OnOk result (K.lookups store.new ≤
        K.lookups store.old + most_lookups * length (K.view store.old).constraints) }
{
    store.change(change)
}

// Makes the changes of a wave, one after another. If an allocation fails, some are made.
pub fn apply_all<K: ChangeableRows>(store: &mut K, changes: &[Change]) -> Result<(), AllocError>
    requires { Applicable (K.view store.old).tables (K.view store.old).base changes.now }
    ensures applied { OnOk result ((K.view store.new).base ≡
        database_after (K.view store.old).base (wave_of changes.now)) }
    ensures kept { K.view store.new ≡
        with_database (K.view store.old) (K.view store.new).base }
    ensures looked_up { OnOk result (K.lookups store.new ≤ K.lookups store.old
        + most_lookups * length (K.view store.old).constraints * length changes.now) }
{
    for change in changes {
        apply(store, change)?;
    }
    Ok(())
}
