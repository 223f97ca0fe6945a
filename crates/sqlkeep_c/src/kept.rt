//! What is open behind a handle, as a pointer. The functions here are proved by hand.
ghost use Rattle.std.specs.Prelude.{◌≡◌, Option, None, Some, is_some, true};
ghost use Rattle.std.specs.Coded.{coded_option};
ghost use Rattle.sqlkeep_c.specs.Behind.{Behind, behind_code};

use crate::loose::Loose;
use iv_shown::Connection;
use std::alloc::Global;
use std::marker::Model;
use std::ptr::null_mut;

/// A pointer to the box of what is open, or one that leads to nothing. Its drop frees nothing: only an empty one is
/// dropped.
#[repr(C)]
#[derive(Drop)]
pub struct Kept {
    at: *mut u8,
    alloc: Global,
    pub ghost behind: { Option Behind } by { coded_option behind_code },
}

impl Model for Kept {
    ghost use Rattle.sqlkeep_c.specs.Behind.{owns_behind};

    ghost also_owns = { λ k. owns_behind k.alloc k.at k.behind };
}

impl Kept {
    /// One that leads to nothing.
    pub fn empty(alloc: Global) -> Kept
        ensures { result.behind ≡ None }
    {
        Kept {
            at: null_mut(),
            alloc,
        }
    }

    /// One that leads to this.
    pub fn of(loose: Loose<Connection, Global>) -> Kept
        ensures { result.behind ≡ Some loose.value }
    {
        let Loose { at, alloc } = loose;
        Kept {
            at: at as *mut u8,
            alloc,
        }
    }

    /// What it leads to.
    pub fn into_loose(self) -> Loose<Connection, Global>
        requires { is_some self.behind ≡ true }
        ensures { Some result.value ≡ self.behind }
    {
        let Kept { at, alloc } = self;
        Loose {
            at: at as *mut Connection,
            alloc,
        }
    }
}
