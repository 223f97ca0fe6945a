//! The result that C holds.
ghost use Rattle.std.specs.Prelude.{◌≡◌, None, Some, is_some, option_map};

use crate::kept_rows::KeptRows;
use crate::loose::Loose;
use iv_connection::QueryResult;
use std::alloc::Global;
use std::mem::replace;

/// A result, in memory of the caller. The rows behind it are `kept.behind` in clauses.
#[repr(C)]
#[derive(Drop)]
pub struct ResultHandle {
    is_open: bool,
    kept: KeptRows,
    ghost same: { is_some kept.behind ≡ is_open },
}

impl ResultHandle {
    /// Whether there are rows behind it.
    pub(crate) fn is_open(&self) -> bool
        ensures { result ≡ is_some self.now.kept.behind }
    {
        self.is_open
    }
}

fn empty_result(alloc: Global) -> ResultHandle
    ensures { result.kept.behind ≡ None }
{
    ResultHandle {
        is_open: false,
        kept: KeptRows::empty(alloc),
    }
}

/// Takes out the rows behind a result, and leaves it empty.
pub(crate) fn take_rows(handle: &mut ResultHandle, alloc: Global) -> Option<Box<QueryResult>>
    ensures taken { option_map (λ b. b.value) result ≡ handle.old.kept.behind }
    ensures left { handle.new.kept.behind ≡ None }
{
    let ResultHandle { is_open, kept } = replace(handle, empty_result(alloc));
    if is_open {
        Some(kept.into_loose().into_box())
    } else {
        None
    }
}

/// Puts these rows behind an empty result.
pub(crate) fn put_rows(handle: &mut ResultHandle, rows: Box<QueryResult>)
    requires { handle.old.kept.behind ≡ None }
    ensures { handle.new.kept.behind ≡ Some rows.value }
{
    *handle = ResultHandle {
        is_open: true,
        kept: KeptRows::of(Loose::of(rows)),
    };
}
