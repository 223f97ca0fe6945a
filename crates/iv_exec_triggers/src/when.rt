//! The WHEN of a trigger.
ghost use Rattle.std.specs.Prelude.{◌≡◌, List, Ok};
ghost use Rattle.iv_value.specs.declared.value.Truth.{Truth as TruthValue};
ghost use Rattle.iv_value.specs.Truths.{is_true};
ghost use Rattle.iv_expr.specs.Evaluation.{and_then, truth};
ghost use Rattle.iv_machine.specs.Proposals.{holds, with_cause};
ghost use Rattle.iv_account.specs.declared.entry.Entry.{Entry};
ghost use Rattle.iv_account.specs.Accounts.{told_or};
ghost use Rattle.iv_catalogue.specs.Refusals.{cause_of};
ghost use Rattle.iv_catalogue.specs.declared.cause.Cause.{Cause as CauseValue};

use iv_catalogue::{Cause, Trigger};
use iv_expr::{Rows, Scope, truth};
use iv_value::Truth;

/// The truth of a trigger's WHEN in a scope: as it takes effect, and as an account tells it. It allocates nothing.
#[tactic(auto, using(crate::proofs::Whens::effect_of_truth, crate::proofs::Whens::told_of_truth))]
pub fn truth_of_when<R: Rows>(trigger: &Trigger, scope: &Scope<'_, R>) -> Result<Truth, Cause>
    ensures truth { result ≡ with_cause (truth scope.now trigger.now.when) }
    ensures effect { holds scope.now trigger.now.when ≡ and_then result (λ t. Ok (is_true t)) }
    ensures told { (failed : CauseValue → List Entry) (tell : TruthValue → List Entry)
        → told_or (truth scope.now trigger.now.when) (λ fault. failed (cause_of fault)) tell
        ≡ told_or result failed tell }
{
    Ok(truth(&trigger.when, scope)?)
}

/// Whether a truth is true.
pub fn is_true(truth: Truth) -> bool
    ensures { result ≡ is_true truth }
{
    matches!(truth, Truth::True)
}
