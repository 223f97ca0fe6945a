//! The statements of a script, run one after the other, with the lines of their outcomes.
ghost use Rattle.std.specs.Prelude.{◌≡◌, ◌+◌, ◌<◌, ◌≤◌, ◌^◌, ◌||◌, IfOk, MatchResult, Some, if◌then◌else◌};
ghost use Rattle.iv_catalogue.specs.Refusals.{is_memory};
ghost use Rattle.iv_text.specs.Sinks.{FailsOnce};
ghost use Rattle.iv_text.specs.Writing.{Writes};
ghost use Rattle.iv_step.specs.Pending.{FaultsRise};
ghost use Rattle.iv_script.specs.Transcript.{accepted_of, lines_in, refused_of};
ghost use Rattle.iv_script.specs.Running.{RanOne, RanAll};

use crate::lines::{Told, write_told};
use crate::news::{News, news_after};
use crate::telling::Telling;
use iv_catalogue::Fault;
use iv_step::{Executor, Outcome, is_memory_refused};
use iv_syntax::Statement;
use iv_text::{DeviceFault, Sink};

/// How many statements were accepted and refused, how many of the refused had cause 22, and for how many accounts of
/// COMMITs and ROLLBACK TOs and lines of what is pending memory was refused.
#[derive(Clone, Copy, Debug, PartialEq, Eq)]
pub struct Tally {
    pub accepted: u64,
    pub refused: u64,
    pub memory_refused: u64,
    pub untold: u64,
}

// One or none.
fn one_if(condition: bool) -> u64
    ensures is { result ≡ (if condition then 1 else 0) }
    ensures small { result ≤ 1 }
{
    if condition { 1 } else { 0 }
}

/// How far a run is: the tally, and the pending violations that were listed last.
#[derive(Drop)]
pub struct Point {
    pub tally: Tally,
    pub listed: Vec<Fault>,
}

// The tally with an outcome more. Memory was refused for its account or for the lines of what is pending, or it wasn't.
fn with(tally: Tally, outcome: &Outcome, untold: bool) -> Tally
    requires accepted { tally.accepted < 2 ^ 63 }
    requires refused { tally.refused < 2 ^ 63 }
    requires memory_refused { tally.memory_refused < 2 ^ 63 }
    requires untold { tally.untold < 2 ^ 63 }
    ensures accepted { result.accepted ≡ tally.accepted + accepted_of outcome.now }
    ensures refused { result.refused ≡ tally.refused + refused_of outcome.now }
    ensures memory_refused { result.memory_refused ≡ tally.memory_refused + (if is_memory outcome.now then 1 else 0) }
    ensures untold { result.untold ≡ tally.untold + (if untold then 1 else 0) }
{
    let memory_refused = one_if(is_memory_refused(outcome));
    let untold = one_if(untold);
    match outcome {
        Ok(_) => Tally {
            accepted: tally.accepted + 1,
            refused: tally.refused,
            memory_refused: tally.memory_refused + memory_refused,
            untold: tally.untold + untold,
        },
        Err(_) => Tally {
            accepted: tally.accepted,
            refused: tally.refused + 1,
            memory_refused: tally.memory_refused + memory_refused,
            untold: tally.untold + untold,
        },
    }
}

// Writes the lines of a statement, with the account that the session has, and these news.
fn write_statement<S: Executor, W: Sink>(
    writer: &mut W,
    number: u64,
    statement: &Statement,
    outcome: &Outcome,
    session: &S,
    telling: Telling,
    news: &News,
) -> Result<(), DeviceFault>
    ensures { Writes (W.state writer.old) (W.state writer.new) result
        (lines_in telling.style.format telling.style.explain telling.style.explain number (Some statement.now)
        (S.state session.now).schema (S.state session.now).limits outcome.now (S.told session.now).entries news.now.came.entries news.now.went.items) }
{
    let told = Told {
        account: session.account(),
        is_told: telling.style.explain,
        came: news.came.entries(),
        went: news.went.as_slice(),
    };
    let catalogue = session.catalogue();
    write_told(
        writer,
        telling,
        number,
        Some(statement),
        outcome,
        catalogue,
        session.limits(),
        told,
    )
}

// Whether memory was refused to a statement, or to its account.
fn is_refused<S: Executor>(session: &S, outcome: &Outcome) -> bool
    ensures { result ≡ (is_memory outcome.now || (S.told session.now).untold) }
{
    is_memory_refused(outcome) || session.is_untold()
}

// Whether memory was refused to the account of a statement, or to the lines of what is pending.
fn is_untold<S: Executor>(session: &S, news: &News) -> bool
    ensures { result ≡ ((S.told session.now).untold || news.now.is_refused) }
{
    session.is_untold() || news.is_refused
}

// Runs one statement and writes its lines.
fn run_one<S: Executor, W: Sink>(
    session: &mut S,
    telling: Telling,
    number: u64,
    statement: &Statement,
    writer: &mut W,
    point: Point,
) -> Result<Point, DeviceFault>
    requires asked { telling.style.explain ≡ (S.told session.old).asked }
    requires accepted { point.tally.accepted < 2 ^ 63 }
    requires refused { point.tally.refused < 2 ^ 63 }
    requires memory_refused { point.tally.memory_refused < 2 ^ 63 }
    requires untold { point.tally.untold < 2 ^ 63 }
    requires rise { FaultsRise point.listed.items }
    ensures ran { MatchResult result
        (λ p. RanOne S.sure_store telling.style number
        (S.state session.old) (S.state session.new) point.listed.items p.listed.items statement.now point.tally p.tally
        (W.state writer.old) (W.state writer.new))
        (λ _. FailsOnce (W.state writer.old) (W.state writer.new)) }
    ensures asked { (S.told session.new).asked ≡ (S.told session.old).asked }
    ensures rise { IfOk result (λ p. FaultsRise p.listed.items) }
{
    let Point { tally, listed } = point;
    let outcome = session.execute(statement);
    let refused = is_refused(&*session, &outcome);
    let news = news_after(
        telling.alloc,
        &*session,
        telling.style.explain,
        refused,
        listed,
    );
    let written = write_statement(
        writer, number, statement, &outcome, &*session, telling, &news,
    );
    let untold = is_untold(&*session, &news);
    let counted = with(tally, &outcome, untold);
    drop(outcome);
    let News {
        came,
        went,
        listed,
        is_refused: _,
    } = news;
    drop(came);
    drop(went);
    written?;
    Ok(Point {
        tally: counted,
        listed,
    })
}

/// Runs the statements and writes their lines.
pub fn run_statements<S: Executor, W: Sink>(
    session: &mut S,
    telling: Telling,
    statements: &[Statement],
    writer: &mut W,
) -> Result<Tally, DeviceFault>
    requires { telling.style.explain ≡ (S.told session.old).asked }
    ensures { MatchResult result
        (λ t. RanAll S.sure_store telling.style (S.state session.old) (S.state session.new) statements.now t
        (W.state writer.old) (W.state writer.new))
        (λ _. FailsOnce (W.state writer.old) (W.state writer.new)) }
{
    let mut rest = statements;
    let mut number = 0u64;
    let listed = Vec::new(telling.alloc);
    let mut point = Point {
        tally: Tally {
            accepted: 0,
            refused: 0,
            memory_refused: 0,
            untold: 0,
        },
        listed,
    };
    while let Some((statement, others)) = rest.split_first() {
        number += 1;
        point = run_one(session, telling, number, statement, writer, point)?;
        rest = others;
    }
    let Point { tally, listed } = point;
    drop(listed);
    Ok(tally)
}
