//! A journal: changes of rows, in the order in which they were made.
ghost use Rattle.std.specs.Prelude.{◌≡◌, [], ◌∷◌, ◌++◌, ◌-◌, None, length, take, slice_get, option_to_list, OnOk, OnErr};
ghost use Rattle.std.specs.Option.{option_copied};

use iv_expr::Change;
use iv_numbers::give_room_back;
use std::alloc::{AllocError, Global};
use std::marker::Model;

/// Changes, the last of which is undone first. Contracts see it as their list, in the order in which they were noted.
#[derive(Drop)]
pub struct Journal {
    changes: Vec<Change>,
}

impl Model for Journal {
    ghost use Rattle.std.specs.Prelude.{List};
    ghost use Rattle.iv_expr.specs.declared.row.Change.{Change as Noted};

    ghost Value = { List Noted };

    ghost view = { λ j. j.changes.items };
}

impl Journal {
    /// An empty journal. It allocates nothing.
    pub fn new(alloc: Global) -> Journal
        ensures { result ≡ [] }
    {
        Journal {
            changes: Vec::new(alloc),
        }
    }

    /// Notes a change, after all others. If an allocation fails, the journal stays as it was.
    pub fn note(&mut self, change: Change) -> Result<(), AllocError>
        ensures ok { OnOk result (self.new ≡ self.old ++ change ∷ []) }
        ensures err { OnErr result (self.new ≡ self.old) }
    {
        self.changes.push(change)?;
        Ok(())
    }

    /// How many changes are noted.
    pub fn mark(&self) -> u64
        ensures { result ≡ length self.now }
    {
        self.changes.len() as u64
    }

    /// The last change, if there is one.
    pub fn last(&self) -> Option<&Change>
        ensures { option_copied result ≡ slice_get self.now (length self.now - 1) }
    {
        self.changes.last()
    }

    /// Removes the last change, if there is one. It allocates nothing.
    pub fn pop(&mut self) -> Option<Change>
        ensures last { self.old ≡ self.new ++ option_to_list result }
        ensures rest { self.new ≡ take (length self.old - 1) self.old }
        ensures none { result ≡ None → self.old ≡ [] }
    {
        self.changes.pop()
    }

    /// Removes all changes. It can't fail for lack of memory, and gives some back if these changes used less than a
    /// quarter of it.
    pub fn forget(&mut self)
        ensures { self.new ≡ [] }
    {
        give_room_back(&mut self.changes);
        self.changes.clear();
    }
}
