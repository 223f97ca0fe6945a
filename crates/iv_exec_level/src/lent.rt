//! What the triggers of a level borrow, and that it fits them.
ghost use Rattle.std.specs.Prelude.{◌≡◌, ◌<◌, ◌≤◌, ◌∷◌, [], length, true, false, Some, slice_get};
ghost use Rattle.std.specs.List.{list_all};
ghost use Rattle.iv_catalogue.specs.Catalogues.{BodiesWithinLimit};
ghost use Rattle.iv_catalogue.specs.declared.limits.TheConstants.{MOST_BODY_STATEMENTS};
ghost use Rattle.iv_laws_fitting.specs.PlanShapes.{trigger_suits};
ghost use Rattle.iv_machine.specs.BeforeTriggers.{for_each_row};
ghost use Rattle.iv_machine.specs.Levels.{statement_firing};
ghost use Rattle.iv_laws_rows.specs.RowFits.{BodyFits};
ghost use Rattle.iv_exec_triggers.specs.ByTable.{transitions_on};
ghost use Rattle.iv_exec_level.specs.Firing.{ActionFits, AreParts, AreTransitions, CanFire, FiresAt};

use iv_catalogue::{BodyStatement, Trigger};
use iv_exec_context::Context;
use iv_exec_triggers::Transitions;
use iv_expr::{Change, Frame};

/// The trigger at a place.
pub fn trigger_at<'a>(context: &Context<'_>, triggers: &'a [Trigger], place: usize) -> &'a Trigger
    requires within { place < length triggers.now }
    requires short { BodiesWithinLimit triggers.now }
    requires suit { list_all (trigger_suits context.now.schema.tables) triggers.now ≡ true }
    ensures trigger { slice_get triggers.entry.now place ≡ Some result.now }
    ensures fires { CanFire context.now.schema.tables result.now }
{
    &triggers[place]
}

/// The statement at a place of a body that fits.
#[tactic(auto, using(crate::proofs::Lending::action_fits))]
pub fn statement_at<'a>(
    context: &Context<'_>,
    frame: &Frame<'_>,
    body: &'a [BodyStatement],
    place: usize,
) -> &'a BodyStatement
    requires within { place < length body.now }
    requires fits { BodyFits context.now.schema.tables frame.now body.now }
    ensures statement { slice_get body.entry.now place ≡ Some result.now }
    ensures fits { ActionFits context.now.schema.tables frame.now result.now }
{
    &body[place]
}

/// What a row trigger borrows at one of its transitions.
pub fn row_frame<'a>(
    context: &Context<'_>,
    trigger: &Trigger,
    transitions: &'a [Change],
    place: usize,
) -> Frame<'a>
    requires within { place < length transitions.now }
    requires fires { CanFire context.now.schema.tables trigger.now }
    requires transitions { AreTransitions context.now.schema.tables trigger.now transitions.now }
    ensures firing { FiresAt trigger.now transitions.entry.now place result }
    ensures body { BodyFits context.now.schema.tables result trigger.now.body }
{
    Frame::at(transitions, &transitions[place])
}

/// What a statement trigger borrows.
#[tactic(auto, using(crate::proofs::Lending::statement_body))]
pub fn statement_frame<'a>(
    context: &Context<'_>,
    trigger: &Trigger,
    transitions: &'a [Change],
) -> Frame<'a>
    requires fires { CanFire context.now.schema.tables trigger.now }
    requires once { for_each_row trigger.now ≡ false }
    requires transitions { AreTransitions context.now.schema.tables trigger.now transitions.now }
    ensures firing { result ≡ (statement_firing trigger.now transitions.entry.now).frame }
    ensures body { BodyFits context.now.schema.tables result trigger.now.body }
{
    Frame {
        old: None,
        new: None,
        transition: transitions,
    }
}

/// The changes of a trigger's table and event are its transitions.
pub fn recall_transitions(
    context: &Context<'_>,
    trigger: &Trigger,
    transitions: &Transitions,
    changes: &[Change],
)
    requires parts { AreParts context.now.schema.tables transitions.now }
    requires changes { changes.now
        ≡ transitions_on transitions.now trigger.now.table trigger.now.event }
    ensures { AreTransitions context.now.schema.tables trigger.now changes.now }
{}
