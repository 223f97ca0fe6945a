//! Tests of the calls of `iv_session` and `iv_script`. A crate's own tests have the whole crate proved once more.
#![tactic(auto)]

#[cfg(test)]
mod accounts;
#[cfg(test)]
mod calls;
#[cfg(test)]
mod devices;
#[cfg(test)]
mod faults;
#[cfg(test)]
mod load;
#[cfg(test)]
mod sessions;
#[cfg(test)]
mod shown;
#[cfg(test)]
mod sure;
#[cfg(test)]
mod work;
