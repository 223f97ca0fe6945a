//! The rows behind a result, as a pointer. The functions here are proved by hand.
ghost use Rattle.std.specs.Prelude.{◌≡◌, Option, None, Some, is_some, true};
ghost use Rattle.std.specs.Coded.{coded_option};
ghost use Rattle.sqlkeep_c.specs.BehindResult.{Rows, rows_code};

use crate::loose::Loose;
use iv_connection::QueryResult;
use std::alloc::Global;
use std::marker::Model;
use std::ptr::null_mut;

/// A pointer to the box of a result, or one that leads to nothing. Its drop frees nothing: only an empty one is
/// dropped.
#[repr(C)]
#[derive(Drop)]
pub struct KeptRows {
    at: *mut u8,
    alloc: Global,
    pub ghost behind: { Option Rows } by { coded_option rows_code },
}

impl Model for KeptRows {
    ghost use Rattle.sqlkeep_c.specs.BehindResult.{owns_rows};

    ghost also_owns = { λ k. owns_rows k.alloc k.at k.behind };
}

impl KeptRows {
    /// One that leads to nothing.
    pub fn empty(alloc: Global) -> KeptRows
        ensures { result.behind ≡ None }
    {
        KeptRows {
            at: null_mut(),
            alloc,
        }
    }

    /// One that leads to this.
    pub fn of(loose: Loose<QueryResult, Global>) -> KeptRows
        ensures { result.behind ≡ Some loose.value }
    {
        let Loose { at, alloc } = loose;
        KeptRows {
            at: at as *mut u8,
            alloc,
        }
    }

    /// What it leads to.
    pub fn into_loose(self) -> Loose<QueryResult, Global>
        requires { is_some self.behind ≡ true }
        ensures { Some result.value ≡ self.behind }
    {
        let KeptRows { at, alloc } = self;
        Loose {
            at: at as *mut QueryResult,
            alloc,
        }
    }
}
