//! The handle that C holds.
ghost use Rattle.std.specs.Prelude.{◌≡◌, None, Some, is_some, option_map};

use crate::kept::Kept;
use crate::loose::Loose;
use iv_shown::Connection;
use std::alloc::Global;
use std::mem::replace;

/// A handle, in memory of the caller. What is open behind it is `kept.behind` in clauses.
#[repr(C)]
#[derive(Drop)]
pub struct Handle {
    is_open: bool,
    kept: Kept,
    ghost same: { is_some kept.behind ≡ is_open },
}

impl Handle {
    /// Whether something is open behind it.
    pub(crate) fn is_open(&self) -> bool
        ensures { result ≡ is_some self.now.kept.behind }
    {
        self.is_open
    }
}

fn empty(alloc: Global) -> Handle
    ensures { result.kept.behind ≡ None }
{
    Handle {
        is_open: false,
        kept: Kept::empty(alloc),
    }
}

/// Takes out what is open behind the handle, and leaves it empty.
pub(crate) fn take(handle: &mut Handle, alloc: Global) -> Option<Box<Connection>>
    ensures taken { option_map (λ b. b.value) result ≡ handle.old.kept.behind }
    ensures left { handle.new.kept.behind ≡ None }
{
    let Handle { is_open, kept } = replace(handle, empty(alloc));
    if is_open {
        Some(kept.into_loose().into_box())
    } else {
        None
    }
}

/// Puts this behind an empty handle.
pub(crate) fn put(handle: &mut Handle, connection: Box<Connection>)
    requires { handle.old.kept.behind ≡ None }
    ensures { handle.new.kept.behind ≡ Some connection.value }
{
    *handle = Handle {
        is_open: true,
        kept: Kept::of(Loose::of(connection)),
    };
}
