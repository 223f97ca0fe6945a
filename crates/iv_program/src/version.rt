//! What `--version` tells.

// The version, whether the program is proved, and what it was built of. A program can't know these: `tools/builds.py`
// writes them here into the program that was built, over this text and the room behind it.
const SIGNED: &str =
    "0.1.0 (not signed by a build)                                                                                           ";

/// The version, whether the program is proved, and what it was built of.
pub fn version() -> &'static str {
    SIGNED.trim_end()
}
