//! Laws of groups, each as the contract of a function that does nothing.
ghost use Rattle.iv_store_violating.specs.Apart.{ShownGroupsAreApart};

/// Groups that show rows have no row in common within a constraint.
pub fn shown_groups_are_apart()
    ensures { ShownGroupsAreApart }
{}
