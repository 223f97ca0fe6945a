//! Constraints that are watched from the first row.
ghost use Rattle.std.specs.Prelude.{◌≡◌, ◌≤◌, ◌∷◌, [], length};
ghost use Rattle.iv_catalogue.specs.declared.constraint.Rule.TheVariants as rule;
ghost use Rattle.iv_store_faults.specs.Watching.{AreWatched, IsShownBy};
ghost use Rattle.iv_laws_kept.specs.Kept.{AllNamed};
ghost use Rattle.iv_syntax.specs.declared.table.MatchType.TheVariants.{Simple};
ghost use Rattle.iv_syntax.specs.declared.table.NullTreatment.TheVariants.{Distinct};
ghost use Rattle.iv_syntax.specs.declared.table.ReferentialAction.TheVariants.{NoAction};

use iv_catalogue::{Constraint, ForeignKey, Rule};
use iv_expr::TableId;
use iv_store_faults::Faults;
use iv_store_groups::Groups;
use iv_syntax::{ConstraintMode, MatchType, Name, NullTreatment, ReferentialAction};
use iv_value::Text;
use sqlite_items::Items;
use std::alloc::Global;
use std::panic::Expect;
use std::process::Abort;

/// What is watched.
#[derive(Clone, Copy)]
pub enum Watched {
    Nothing,
    /// UNIQUE over the first column of the first table.
    Unique,
    /// PRIMARY KEY over it, and the first column of the second table refers to it.
    Reference,
}

fn named(rt: &impl Abort, alloc: Global, text: &str) -> Name {
    Name::new(Text::new(alloc, text).expect(rt, "memory"))
}

// The first column.
fn first_column(rt: &impl Abort, alloc: Global) -> Items<u32>
    ensures { result ≡ 0 ∷ [] }
{
    let mut columns = Vec::new(alloc);
    columns.push(0u32).expect(rt, "memory");
    Items::from_vec(columns)
}

fn unique(rt: &impl Abort, alloc: Global) -> Constraint
    ensures { result.rule ≡ rule.Unique Distinct (0 ∷ []) }
{
    Constraint {
        name: named(rt, alloc, "U"),
        table: TableId::new(0),
        rule: Rule::Unique(NullTreatment::Distinct, first_column(rt, alloc)),
        deferrable: false,
        initially: ConstraintMode::Immediate,
    }
}

fn primary_key(rt: &impl Abort, alloc: Global) -> Constraint
    ensures table { result.table ≡ 0 }
    ensures rule { result.rule ≡ rule.PrimaryKey (0 ∷ []) }
{
    Constraint {
        name: named(rt, alloc, "P"),
        table: TableId::new(0),
        rule: Rule::PrimaryKey(first_column(rt, alloc)),
        deferrable: false,
        initially: ConstraintMode::Immediate,
    }
}

fn reference(rt: &impl Abort, alloc: Global) -> Constraint
    ensures { result.rule ≡ rule.ForeignKey (record {
      columns = 0 ∷ [];
      referenced = 0;
      key = 0 ∷ [];
      matching = Simple;
      on_delete = NoAction;
      on_update = NoAction;
    }) }
{
    Constraint {
        name: named(rt, alloc, "F"),
        table: TableId::new(1),
        rule: Rule::ForeignKey(ForeignKey {
            columns: first_column(rt, alloc),
            referenced: TableId::new(0),
            key: first_column(rt, alloc),
            matching: MatchType::Simple,
            on_delete: ReferentialAction::NoAction,
            on_update: ReferentialAction::NoAction,
        }),
        deferrable: true,
        initially: ConstraintMode::Deferred,
    }
}

// Watches constraints, if there is no row.
fn watch_all(rt: &impl Abort, groups: &mut Groups, faults: &mut Faults, constraints: &[Constraint])
    requires no_group { groups.old.groups ≡ [] }
    requires no_constraint { faults.old ≡ record { constraints = []; violating = [] } }
    requires named { AllNamed constraints.now }
    requires few { length constraints.now ≤ 2 }
    ensures shown { IsShownBy [] faults.new groups.new }
    ensures watched { AreWatched faults.new groups.new }
{
    groups.cover(constraints.len()).expect(rt, "memory");
    faults.watch(groups, constraints).expect(rt, "memory");
}

// Adds UNIQUE to no constraint.
fn push_unique(rt: &impl Abort, alloc: Global, constraints: &mut Vec<Constraint>)
    requires { constraints.old.items ≡ [] }
    ensures named { AllNamed constraints.new.items }
    ensures few { length constraints.new.items ≤ 2 }
{
    constraints.push(unique(rt, alloc)).expect(rt, "memory");
}

// Adds PRIMARY KEY and the foreign key to no constraint.
fn push_reference(rt: &impl Abort, alloc: Global, constraints: &mut Vec<Constraint>)
    requires { constraints.old.items ≡ [] }
    ensures named { AllNamed constraints.new.items }
    ensures few { length constraints.new.items ≤ 2 }
{
    constraints
        .push(primary_key(rt, alloc))
        .expect(rt, "memory");
    constraints.push(reference(rt, alloc)).expect(rt, "memory");
}

// Watches the constraints that are added to none, if there is no row.
fn push_and_watch(
    rt: &impl Abort,
    alloc: Global,
    groups: &mut Groups,
    faults: &mut Faults,
    watched: Watched,
    constraints: &mut Vec<Constraint>,
)
    requires none { constraints.old.items ≡ [] }
    requires no_group { groups.old.groups ≡ [] }
    requires no_constraint { faults.old ≡ record { constraints = []; violating = [] } }
    ensures shown { IsShownBy [] faults.new groups.new }
    ensures watched { AreWatched faults.new groups.new }
{
    match watched {
        Watched::Nothing => return,
        Watched::Unique => push_unique(rt, alloc, constraints),
        Watched::Reference => push_reference(rt, alloc, constraints),
    }
    watch_all(rt, groups, faults, constraints.as_slice());
}

/// Watches what is to be watched, while there is no row.
pub fn watch(
    rt: &impl Abort,
    alloc: Global,
    groups: &mut Groups,
    faults: &mut Faults,
    watched: Watched,
)
    requires no_group { groups.old.groups ≡ [] }
    requires no_constraint { faults.old ≡ record { constraints = []; violating = [] } }
    ensures shown { IsShownBy [] faults.new groups.new }
    ensures watched { AreWatched faults.new groups.new }
{
    let mut constraints = Vec::new(alloc);
    push_and_watch(rt, alloc, groups, faults, watched, &mut constraints);
    drop(constraints);
}
