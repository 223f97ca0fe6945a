//! Cases as data, and what they tell as one text. One function runs them all, and a test is their list and the text.
use crate::shown::{compare, show};
use crate::steps::{Step, tell_steps};
use crate::triggers::{Question, Run, tell_of_trigger};
use crate::waves::{Asked, Waves, show_of_waves};
use iv_store_index::IndexStore;
use iv_store_plain::PlainStore;
use std::alloc::Global;
use std::process::Abort;

/// What is done, and what is asked.
#[derive(Clone, Copy)]
pub enum Case {
    /// Waves are made, and something is asked of them.
    OfWaves(Waves, Asked),
    /// A trigger is created, and something is asked of it.
    OfTrigger(Run, Question),
    /// Steps are taken in the plain store.
    InPlain(&'static [Step]),
    /// Steps are taken in the store with keys.
    InIndex(&'static [Step]),
}

// Shows what a case tells, and whether it is done: why it is refused is shown too.
fn tell(rt: &impl Abort, alloc: Global, case: &Case, shown: &mut String) -> bool {
    match case {
        Case::OfWaves(waves, asked) => {
            show_of_waves(rt, alloc, waves, asked, shown);
            true
        }
        Case::OfTrigger(run, question) => tell_of_trigger(rt, alloc, run, question, shown),
        Case::InPlain(steps) => tell_steps::<PlainStore>(rt, alloc, steps, shown),
        Case::InIndex(steps) => tell_steps::<IndexStore>(rt, alloc, steps, shown),
    }
}

/// Asserts what cases tell, one after another.
pub fn shows(rt: &impl Abort, alloc: Global, cases: &[Case], wanted: &str) {
    let mut shown = String::new(alloc);
    for case in cases {
        if tell(rt, alloc, case, &mut shown) {
            show(rt, "done; ", &mut shown);
        }
    }
    compare(rt, "cases", shown.as_str(), wanted);
    drop(shown);
}
