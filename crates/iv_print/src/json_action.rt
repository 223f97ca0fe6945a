//! What foreign keys do to rows, as JSON.
ghost use Rattle.std.specs.Prelude.{◌≡◌, ◌++◌};
ghost use Rattle.std.specs.List.{flat_map};
ghost use Rattle.iv_print.specs.JsonAccounts.{acting_members, action_name, further_action, json_action, json_actions};
ghost use Rattle.iv_text.specs.Writing.{Writes};

use crate::json_account::write_place;
use iv_account::RowAction;
use iv_catalogue::Catalogue;
use iv_syntax::ReferentialAction;
use iv_text::json::{write_key, write_name, write_text_member};
use iv_text::{DeviceFault, Sink, write_all, write_nothing};

fn action_name(action: ReferentialAction) -> &'static str
    ensures { result.now ≡ action_name action }
{
    match action {
        ReferentialAction::NoAction => "NO ACTION",
        ReferentialAction::Restrict => "RESTRICT",
        ReferentialAction::Cascade => "CASCADE",
        ReferentialAction::SetNull => "SET NULL",
        ReferentialAction::SetDefault => "SET DEFAULT",
    }
}

// The foreign key that acts, and its action.
#[tactic(auto, using(iv_text::proofs::WriteLemmas::writes_then))]
fn write_acting<W: Sink>(
    sink: &mut W,
    catalogue: &Catalogue,
    acted: &RowAction,
) -> Result<(), DeviceFault>
    ensures { Writes (W.state sink.old) (W.state sink.new) result
        (acting_members catalogue.now acted.now) }
{
    write_key(sink, b"constraint")?;
    write_name(sink, catalogue.constraints(), acted.constraint)?;
    write_text_member(sink, b"action", action_name(acted.action).as_bytes())
}

#[tactic(auto, using(iv_text::proofs::WriteLemmas::writes_then))]
fn write_action<W: Sink>(
    sink: &mut W,
    catalogue: &Catalogue,
    acted: &RowAction,
) -> Result<(), DeviceFault>
    ensures { Writes (W.state sink.old) (W.state sink.new) result
        (json_action catalogue.now acted.now) }
{
    write_all(sink, b"{")?;
    write_acting(sink, catalogue, acted)?;
    write_place(sink, catalogue, acted.table, acted.row)?;
    write_all(sink, b"}")
}

#[tactic(auto, using(iv_text::proofs::WriteLemmas::writes_then))]
fn write_further_action<W: Sink>(
    sink: &mut W,
    catalogue: &Catalogue,
    acted: &RowAction,
) -> Result<(), DeviceFault>
    ensures { Writes (W.state sink.old) (W.state sink.new) result
        (further_action catalogue.now acted.now) }
{
    write_all(sink, b",")?;
    write_action(sink, catalogue, acted)
}

// Further actions, each after a comma.
#[tactic(auto, using(iv_text::proofs::WriteLemmas::writes_then))]
fn write_more_actions<W: Sink>(
    sink: &mut W,
    catalogue: &Catalogue,
    actions: &[RowAction],
) -> Result<(), DeviceFault>
    ensures { Writes (W.state sink.old) (W.state sink.new) result
        (flat_map (further_action catalogue.now) actions.now) }
{
    let mut rest = actions;
    while let Some((acted, others)) = rest.split_first() {
        write_further_action(sink, catalogue, acted)?;
        rest = others;
    }
    Ok(())
}

/// What foreign keys do to rows, each between commas.
#[tactic(auto, using(iv_text::proofs::WriteLemmas::writes_then))]
pub(crate) fn write_actions<W: Sink>(
    sink: &mut W,
    catalogue: &Catalogue,
    actions: &[RowAction],
) -> Result<(), DeviceFault>
    ensures { Writes (W.state sink.old) (W.state sink.new) result
        (json_actions catalogue.now actions.now) }
{
    match actions {
        [] => write_nothing(sink),
        [acted, more @ ..] => {
            write_action(sink, catalogue, acted)?;
            write_more_actions(sink, catalogue, more)
        }
    }
}
