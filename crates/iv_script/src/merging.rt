//! Which violations one list has and another hasn't.
ghost use Rattle.std.specs.Prelude.{◌≡◌, ◌++◌, ◌∷◌, [], if◌then◌else◌, IfOk, OnOk};
ghost use Rattle.iv_step.specs.Pending.{FaultsRise, without};
ghost use Rattle.iv_script.specs.Merging.{begins_with, faults_from, is_before};

use iv_catalogue::Fault;
use std::alloc::{AllocError, Global};

fn is_before(fault: &Fault, other: &Fault) -> bool
    ensures { result ≡ is_before fault.now other.now }
{
    fault.constraint.place() < other.constraint.place()
        || (fault.constraint == other.constraint && fault.row < other.row)
}

// The faults from the first one on that isn't before this one.
fn faults_from<'a>(faults: &'a [Fault], fault: &Fault) -> &'a [Fault]
    ensures { result.now ≡ faults_from fault.now faults.entry.now }
{
    let mut left = faults;
    while let Some((first, more)) = left.split_first() {
        if !is_before(first, fault) {
            return left;
        }
        left = more;
    }
    left
}

fn begins_with(faults: &[Fault], fault: &Fault) -> bool
    ensures { result ≡ begins_with faults.now fault.now }
{
    match faults {
        [first, ..] => { first.constraint == fault.constraint && first.row == fault.row }
        [] => false,
    }
}

fn push_unless(found: &mut Vec<Fault>, fault: Fault, is_there: bool) -> Result<(), AllocError>
    ensures { OnOk result (found.new.items ≡ found.old.items ++ (if is_there then [] else fault ∷ [])) }
{
    if is_there {
        return Ok(());
    }
    found.push(fault)?;
    Ok(())
}

/// The faults that the others don't have. Each list is walked once.
pub fn without(alloc: Global, faults: &[Fault], others: &[Fault]) -> Result<Vec<Fault>, AllocError>
    requires faults { FaultsRise faults.now }
    requires others { FaultsRise others.now }
    ensures { IfOk result (λ found. found.items ≡ without faults.now others.now) }
{
    let mut found = Vec::new(alloc);
    let mut rest = faults;
    let mut left = others;
    while let Some((fault, more)) = rest.split_first() {
        left = faults_from(left, fault);
        push_unless(&mut found, *fault, begins_with(left, fault))?;
        rest = more;
    }
    Ok(found)
}
