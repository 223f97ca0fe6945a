//! The list that records the account of a statement.
ghost use Rattle.std.specs.Prelude.{◌≡◌, [], ◌∷◌, false, Some, Ok, IfOk, OnOk};
ghost use Rattle.std.specs.Option.{option_copied};
ghost use Rattle.iv_account.specs.Accounts.{conflict_told, failure_told, ran_or_skipped, seen, tells_failure};
ghost use Rattle.iv_account.specs.Telling.{and_told, no_account, untold_account};
ghost use Rattle.iv_account.specs.declared.entry.Entry.TheVariants as entry;

use crate::entry::{Disagreement, Entry, RowAction, SkippedView, TriggerView};
use crate::failure::FailedEvaluation;
use iv_catalogue::{Cause, Constraint, Fault, Trigger};
use iv_expr::{Change, Frame, Row, StoredRow};
use iv_syntax::{Granularity, Name};
use iv_value::{Truth, Value};
use sqlite_items::Items;
use std::alloc::{AllocError, Global};
use std::marker::Model;

/// A row of these values.
pub fn row_of(alloc: Global, values: &[Value]) -> Result<Row, AllocError>
    ensures { IfOk result (λ r. r ≡ values.now) }
{
    let copies = values.to_vec(alloc)?;
    Row::new(copies)
}

fn side_of(alloc: Global, side: Option<&[Value]>) -> Result<Option<Row>, AllocError>
    ensures { IfOk result (λ r. r ≡ option_copied side.entry) }
{
    match side {
        Some(values) => Ok(Some(row_of(alloc, values)?)),
        None => Ok(None),
    }
}

// The changes again; their rows are shared.
fn changes_of(alloc: Global, changes: &[Change]) -> Result<Items<Change>, AllocError>
    ensures { IfOk result (λ r. r ≡ changes.now) }
{
    let copies = changes.to_vec(alloc)?;
    Ok(Items::from_vec(copies))
}

// What a trigger that runs saw.
fn seen(alloc: Global, trigger: &Trigger, frame: &Frame<'_>) -> Result<TriggerView, AllocError>
    ensures { IfOk result (λ s. s ≡ seen (record { trigger = trigger.now; frame = frame.now })) }
{
    let old = side_of(alloc, frame.old)?;
    let new = side_of(alloc, frame.new)?;
    let transition = if matches!(trigger.granularity, Granularity::Row) {
        Items::new(alloc)
    } else {
        changes_of(alloc, frame.transition)?
    };
    Ok(TriggerView {
        old,
        new,
        transition,
    })
}

// What a trigger saw that is skipped.
fn skipped(alloc: Global, frame: &Frame<'_>, when: Truth) -> Result<SkippedView, AllocError>
    ensures { IfOk result (λ s. s ≡ record { old = frame.now.old; new = frame.now.new; when = when }) }
{
    Ok(SkippedView {
        old: side_of(alloc, frame.old)?,
        new: side_of(alloc, frame.new)?,
        when,
    })
}

// What is told of a trigger whose WHEN has this truth.
fn ran_or_skipped(
    alloc: Global,
    trigger: &Trigger,
    frame: &Frame<'_>,
    when: Truth,
) -> Result<Entry, AllocError>
    ensures { IfOk result (λ e. e ≡ ran_or_skipped trigger.now frame.now when) }
{
    match when {
        Truth::True => Ok(Entry::Ran(trigger.id, seen(alloc, trigger, frame)?)),
        _ => Ok(Entry::Skipped(trigger.id, skipped(alloc, frame, when)?)),
    }
}

/// Whether an account tells what failed where a statement is refused for this cause.
pub fn tells_failure(cause: &Cause) -> bool
    ensures { result ≡ tells_failure cause.now }
{
    matches!(cause, Cause::NumberOutOfRange | Cause::TextTooLong)
}

/// The entries so far if an account is asked for, and otherwise nothing. Without an account no call allocates. If an
/// allocation fails, nothing is said of the entries.
pub struct Account {
    asked: bool,
    entries: Vec<Entry>,
    untold: bool,
}

impl Drop for Account {
    fn drop(self) {
        let Account {
            asked: _,
            entries,
            untold: _,
        } = self;
        drop(entries);
    }
}

impl Model for Account {
    ghost use Rattle.iv_account.specs.Telling.{Account as Told};
    ghost use Rattle.iv_expr.specs.contracts.tree.Cond as cond;
    ghost use Rattle.std.specs.Coded.{codes};

    ghost Value = { Told };

    ghost coded = { Prim.hlevel (codes, cond.the_row.coded) };

    ghost view = { λ a. record { asked = a.asked; entries = a.entries.items; untold = a.untold } };
}

impl Account {
    /// An empty account. It allocates nothing.
    pub fn new(alloc: Global, asked: bool) -> Account
        ensures { result ≡ no_account asked }
    {
        Account {
            asked,
            entries: Vec::new(alloc),
            untold: false,
        }
    }

    /// An account that was asked for and could not be allocated. It allocates nothing.
    pub fn untold(alloc: Global) -> Account
        ensures { result ≡ untold_account }
    {
        Account {
            asked: true,
            entries: Vec::new(alloc),
            untold: true,
        }
    }

    /// Whether an account is asked for.
    pub fn is_asked(&self) -> bool
        ensures { result ≡ self.now.asked }
    {
        self.asked
    }

    /// Whether the account could not be allocated, so that it is empty.
    pub fn is_untold(&self) -> bool
        ensures { result ≡ self.now.untold }
    {
        self.untold
    }

    /// Where it takes its memory from.
    pub fn allocator(&self) -> Global {
        *self.entries.allocator()
    }

    /// The entries, in order.
    pub fn entries(&self) -> &[Entry]
        ensures { result.now ≡ self.now.entries }
    {
        self.entries.as_slice()
    }

    // Adds an entry, if an account is asked for.
    fn add(&mut self, entry: Entry) -> Result<(), AllocError>
        ensures told { OnOk result (self.new ≡ and_told self.old (entry ∷ [])) }
        ensures unasked { self.old.asked ≡ false → result ≡ Ok tt }
    {
        if self.asked {
            self.entries.push(entry)?;
        }
        Ok(())
    }

    /// Records that a wave of these changes was applied.
    pub fn changed(&mut self, changes: &[Change]) -> Result<(), AllocError>
        ensures told { OnOk result (self.new ≡ and_told self.old (entry.Changed changes.now ∷ [])) }
        ensures unasked { self.old.asked ≡ false → result ≡ Ok tt }
    {
        if !self.asked {
            return Ok(());
        }
        let copies = changes_of(*self.entries.allocator(), changes)?;
        self.add(Entry::Changed(copies))
    }

    /// Records that these foreign keys act on these rows.
    pub fn acted(&mut self, actions: Vec<RowAction>) -> Result<(), AllocError>
        ensures told { OnOk result (self.new ≡ and_told self.old (entry.Acted actions.items ∷ [])) }
        ensures unasked { self.old.asked ≡ false → result ≡ Ok tt }
    {
        self.add(Entry::Acted(Items::from_vec(actions)))
    }

    /// Records that a trigger runs on what it sees, or is skipped, by the truth of its WHEN.
    pub fn ran_or_skipped(
        &mut self,
        trigger: &Trigger,
        frame: &Frame<'_>,
        when: Truth,
    ) -> Result<(), AllocError>
        ensures told { OnOk result (self.new ≡ and_told self.old
            (ran_or_skipped trigger.now frame.now when ∷ [])) }
        ensures unasked { self.old.asked ≡ false → result ≡ Ok tt }
    {
        if !self.asked {
            return Ok(());
        }
        let entry = ran_or_skipped(*self.entries.allocator(), trigger, frame, when)?;
        self.add(entry)
    }

    /// Records that the data statement at this place of a trigger's body begins.
    pub fn began(&mut self, place: u32) -> Result<(), AllocError>
        ensures told { OnOk result (self.new ≡ and_told self.old (entry.Began place ∷ [])) }
        ensures unasked { self.old.asked ≡ false → result ≡ Ok tt }
    {
        self.add(Entry::Began(place))
    }

    /// Records that the data statement that began last ends.
    pub fn ended(&mut self) -> Result<(), AllocError>
        ensures told { OnOk result (self.new ≡ and_told self.old (entry.Ended ∷ [])) }
        ensures unasked { self.old.asked ≡ false → result ≡ Ok tt }
    {
        self.add(Entry::Ended)
    }

    /// Records the constraint and the row of a refusal, with these rows.
    pub fn faulted(&mut self, fault: Fault, rows: Vec<StoredRow>) -> Result<(), AllocError>
        ensures told { OnOk result (self.new ≡ and_told self.old (entry.Faulted fault rows.items ∷ [])) }
        ensures unasked { self.old.asked ≡ false → result ≡ Ok tt }
    {
        self.add(Entry::Faulted(fault, Items::from_vec(rows)))
    }

    /// Records the later of two foreign keys that disagree about a row, with these rows, and how they disagree.
    pub fn disagreed(
        &mut self,
        fault: Fault,
        rows: Vec<StoredRow>,
        how: Option<Disagreement>,
    ) -> Result<(), AllocError>
        ensures told { OnOk result (self.new ≡ and_told self.old
            (conflict_told fault rows.items how ∷ [])) }
        ensures unasked { self.old.asked ≡ false → result ≡ Ok tt }
    {
        match how {
            Some(how) => self.add(Entry::Disagreed(fault, Items::from_vec(rows), how)),
            None => self.faulted(fault, rows),
        }
    }

    /// Records that these savepoints stand, the earliest first.
    pub fn standing(&mut self, names: Vec<Name>) -> Result<(), AllocError>
        ensures told { OnOk result (self.new ≡ and_told self.old (entry.Standing names.items ∷ [])) }
        ensures unasked { self.old.asked ≡ false → result ≡ Ok tt }
    {
        self.add(Entry::Standing(Items::from_vec(names)))
    }

    /// Records that a constraint isn't added, with these rows.
    pub fn not_added(
        &mut self,
        constraint: Constraint,
        rows: Vec<StoredRow>,
    ) -> Result<(), AllocError>
        ensures told { OnOk result (self.new ≡ and_told self.old
            (entry.NotAdded constraint rows.items ∷ [])) }
        ensures unasked { self.old.asked ≡ false → result ≡ Ok tt }
    {
        self.add(Entry::NotAdded(constraint, Items::from_vec(rows)))
    }

    // Records this failure, if the cause tells of one.
    fn failed_by(&mut self, cause: &Cause, failure: FailedEvaluation) -> Result<(), AllocError>
        ensures told { OnOk result (self.new
            ≡ and_told self.old (failure_told cause.now (Some failure))) }
        ensures unasked { self.old.asked ≡ false → result ≡ Ok tt }
    {
        if tells_failure(cause) {
            self.add(Entry::Failed(failure))
        } else {
            drop(failure);
            Ok(())
        }
    }

    /// Records what failed, if this is the cause of a number that is out of range or of a text that is too long.
    pub fn failed(
        &mut self,
        cause: &Cause,
        failure: Option<FailedEvaluation>,
    ) -> Result<(), AllocError>
        ensures told { OnOk result (self.new ≡ and_told self.old (failure_told cause.now failure)) }
        ensures unasked { self.old.asked ≡ false → result ≡ Ok tt }
    {
        match failure {
            Some(failure) => self.failed_by(cause, failure),
            None => Ok(()),
        }
    }
}
