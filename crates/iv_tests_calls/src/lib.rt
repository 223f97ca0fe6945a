//! Tests of calls on texts that no script reaches, and calls of the laws. A crate's own tests have the whole crate proved once more.
#![tactic(auto)]

#[cfg(test)]
mod filling;
#[cfg(test)]
mod laws;
#[cfg(test)]
mod names;
#[cfg(test)]
mod reasons;
#[cfg(test)]
mod tokens;
#[cfg(test)]
mod written;
