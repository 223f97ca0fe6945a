//! Rows that refer to keys which were lost under RESTRICT.
ghost use Rattle.std.specs.Prelude.{◌≡◌, find};
ghost use Rattle.std.specs.List.{list_any};
ghost use Rattle.std.specs.Option.{option_map, option_copied};
ghost use Rattle.iv_exec_actions.specs.AffectedForeignKey.{change_losing};
ghost use Rattle.iv_exec_actions.specs.ByTable.{at_places};
ghost use Rattle.iv_exec_actions.specs.Following.{may_restrict, restricts, restricted_fault};
ghost use Rattle.iv_machine.specs.ReferentialActions.{is_restrict};

use crate::affected::{AffectedForeignKey, action_for};
use crate::by_table::ByTable;
use crate::row::LentRow;
use iv_catalogue::{ConstraintId, Fault};
use iv_expr::Change;
use iv_key::Key;
use iv_syntax::ReferentialAction;

/// The first change that removed the key a row refers to.
pub fn change_losing<'a>(affected: &AffectedForeignKey<'a>, row: &LentRow<'_>) -> Option<&'a Change>
    ensures { option_copied result ≡ change_losing affected.now row.now }
{
    let key = Key::new(affected.key().columns.as_slice(), row.values());
    if key.none_null() {
        affected.change_taking(&key)
    } else {
        None
    }
}

fn is_restrict(action: ReferentialAction) -> bool
    ensures { result ≡ is_restrict action }
{
    matches!(action, ReferentialAction::Restrict)
}

fn may_restrict(affected: &AffectedForeignKey<'_>) -> bool
    ensures { result ≡ may_restrict affected.now }
{
    is_restrict(affected.key().on_delete) || is_restrict(affected.key().on_update)
}

/// Whether one of the foreign keys has RESTRICT as an action.
pub fn any_may_restrict(affected_keys: &[AffectedForeignKey<'_>]) -> bool
    ensures { result ≡ list_any may_restrict affected_keys.now }
{
    affected_keys.iter().any(|affected| may_restrict(affected))
}

// Whether a foreign key restricts a row.
fn restricts(affected: &AffectedForeignKey<'_>, row: &LentRow<'_>) -> bool
    ensures { result ≡ restricts row.now affected.now }
{
    if row.table() != affected.table() {
        return false;
    }
    match change_losing(affected, row) {
        Some(change) => matches!(
            action_for(affected.key(), change),
            ReferentialAction::Restrict
        ),
        None => false,
    }
}

// The number of the first foreign key, of those at these places, that restricts a row.
fn first_among(affected_keys: &ByTable<'_>, places: &[usize], row: &LentRow<'_>) -> Option<u32>
    ensures { result ≡ option_map (λ x. x.reference.id)
        (find (restricts row.now) (at_places affected_keys.now places.now)) }
{
    for place in places {
        if let Some(affected) = affected_keys.at(*place) {
            if restricts(affected, row) {
                return Some(affected.id());
            }
        }
    }
    None
}

// The number of the first foreign key that restricts a row.
fn first_restricting(affected_keys: &ByTable<'_>, row: &LentRow<'_>) -> Option<u32>
    ensures { result ≡ option_map (λ x. x.reference.id) (find (restricts row.now) affected_keys.now) }
{
    first_among(affected_keys, affected_keys.places_on(row.table()), row)
}

/// A row with the first foreign key that restricts it.
pub fn restricted_fault(affected_keys: &ByTable<'_>, row: &LentRow<'_>) -> Option<Fault>
    ensures { result ≡ restricted_fault affected_keys.now row.now }
{
    match first_restricting(affected_keys, row) {
        Some(id) => Some(Fault {
            constraint: ConstraintId::new(id),
            row: row.number(),
        }),
        None => None,
    }
}
