//! Columns that come twice in a list. No call can fail for lack of memory.
ghost use Rattle.std.specs.Prelude.{◌≡◌, option_map};
ghost use Rattle.iv_resolution.specs.NameFaults.{column_twice, column_twice_listed, duplicate_in_rule};
ghost use Rattle.iv_resolve_tables.specs.Seen.{rule_seen};
ghost use Rattle.iv_resolve_name_faults.specs.Seen.{fault_seen};

use crate::again::name_again;
use crate::item::{NameFault, NamedItem, first_fault};
use iv_resolve_tables::WrittenRule;
use iv_syntax::Name;
use sqlite_items::Items;
use std::alloc::Global;

/// The first of the names that comes again, as a column.
#[tactic(auto, using(crate::proofs::InPlace::themselves))]
pub fn column_twice<'t>(alloc: Global, names: &'t [Name]) -> Option<NameFault<'t>>
    ensures { option_map fault_seen result ≡ column_twice names.entry.now }
{
    match name_again(alloc, names) {
        Some(name) => Some(NameFault::Twice(NamedItem::Column(None, name))),
        None => None,
    }
}

/// The same of a list that may be left out.
pub fn column_twice_listed<'t>(
    alloc: Global,
    names: &'t Option<Items<Name>>,
) -> Option<NameFault<'t>>
    ensures { option_map fault_seen result ≡ column_twice_listed names.entry.now }
{
    match names {
        Some(listed) => column_twice(alloc, listed.as_slice()),
        None => None,
    }
}

/// The first column that comes twice in a list of a constraint.
pub fn duplicate_in_rule<'t>(alloc: Global, rule: &WrittenRule<'t>) -> Option<NameFault<'t>>
    ensures { option_map fault_seen result ≡ duplicate_in_rule (rule_seen rule.now) }
{
    match rule {
        WrittenRule::NotNull(_) => None,
        WrittenRule::Unique(_, columns) => column_twice(alloc, columns),
        WrittenRule::PrimaryKey(columns) => column_twice(alloc, columns),
        WrittenRule::Check(_) => None,
        WrittenRule::ForeignKey(columns, references) => {
            let listed = column_twice_listed(alloc, &references.columns);
            first_fault(column_twice(alloc, columns), listed)
        }
    }
}
