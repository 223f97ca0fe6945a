//! How outcomes are told.

use iv_text::Style;
use std::alloc::Global;

/// How outcomes are told, and where memory comes from for what that takes.
#[derive(Clone, Copy)]
pub struct Telling {
    pub style: Style,
    pub alloc: Global,
}
