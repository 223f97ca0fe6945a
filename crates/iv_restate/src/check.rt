//! The condition of a CHECK.
ghost use Rattle.std.specs.Prelude.{◌≡◌, IfOk};
ghost use Rattle.iv_resolution.specs.Scopes.{named_columns};
ghost use Rattle.iv_restate.specs.Trees.{check_of};
ghost use Rattle.iv_parse_terms.specs.Conditions.{ConditionFormed, condition as whole};
ghost use Rattle.iv_restate.specs.Laws.{CheckIsItself};

use crate::condition::condition_of;
use crate::naming::Naming;
use crate::scope::Scope;
use iv_catalogue::Column;
use iv_expr::Cond;
use iv_syntax::Condition;
use std::alloc::{AllocError, Global};

/// The search condition of a CHECK on a table with these columns: each column by its name, and parentheses only where
/// the grammar needs them. If it is a condition that a CHECK of such a table can have, the tree means just that
/// condition. It fails only for lack of memory, and takes time in proportion to the condition.
pub fn check_condition(
    alloc: Global,
    columns: &[Column],
    condition: &Cond,
) -> Result<Condition, AllocError>
    ensures tree { IfOk result (λ c. c ≡ check_of (named_columns columns.now) condition.now) }
    ensures formed { IfOk result (ConditionFormed whole) }
    ensures itself { IfOk result (λ c. CheckIsItself (named_columns columns.now) condition.now c) }
{
    let naming = Naming {
        tables: &[],
        items: &[],
        subject: &[],
        stem: "",
    };
    let scope = Scope::Within("", columns, &Scope::Nothing);
    condition_of(alloc, &naming, &scope, condition)
}
