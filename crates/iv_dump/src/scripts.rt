//! Texts in scripts of limited length.
ghost use Rattle.std.specs.Prelude.{◌≡◌, ◌++◌, ◌∷◌, [], IfOk, OnOk, map, string_bytes};
ghost use Rattle.iv_dump.specs.Making.{IsPushed};
ghost use Rattle.iv_dump.specs.Scripts.{AreShort};

use crate::refusal::DumpRefusal;
use std::alloc::Global;
use std::marker::Model;
use std::mem::replace;

/// The most bytes of a script, 2^20.
pub const LONGEST_SCRIPT: usize = 1_048_576;

/// Scripts, none of them too long, of which texts are added to the last. Contracts see those that are full, and the last.
pub struct Scripts {
    alloc: Global,
    done: Vec<String>,
    last: String,
}

impl Drop for Scripts {
    fn drop(self) {
        let Scripts {
            alloc: _,
            done,
            last,
        } = self;
        drop(done);
        drop(last);
    }
}

impl Model for Scripts {
    ghost use Rattle.std.specs.Prelude.{◌≤◌, List, ℕ, length, map, string_bytes};
    ghost use Rattle.iv_dump.specs.Scripts.{AreShort, LONGEST_SCRIPT};

    ghost Value = { List (List ℕ) × List ℕ };

    ghost view = { λ s. (map string_bytes s.done.items, string_bytes s.last) };

    ghost invariant = { λ s. AreShort (map string_bytes s.done.items) × (length (string_bytes s.last) ≤ LONGEST_SCRIPT) };
}

impl Scripts {
    /// No script.
    pub fn new(alloc: Global) -> Scripts
        ensures { result ≡ ([], []) }
    {
        Scripts {
            alloc,
            done: Vec::new(alloc),
            last: String::new(alloc),
        }
    }

    /// Adds a text that stays whole: to the last script, or to a new one if that would become too long.
    #[tactic(auto, using(crate::proofs::Pushed::short_pushed, crate::proofs::Pushed::text_pushed))]
    pub fn push(&mut self, text: &str) -> Result<(), DumpRefusal>
        ensures { OnOk result (IsPushed text.now self.old self.new) }
    {
        if text.len() > LONGEST_SCRIPT {
            return Err(DumpRefusal::TooLong);
        }
        if self.last.len() + text.len() > LONGEST_SCRIPT {
            let full = replace(&mut self.last, String::new(self.alloc));
            self.done.push(full)?;
        }
        self.last.push_str(text)?;
        Ok(())
    }

    /// All of them.
    #[tactic(auto, using(crate::proofs::Pushed::short_pushed, crate::proofs::Pushed::text_pushed))]
    pub fn into_vec(self) -> Result<Vec<String>, DumpRefusal>
        ensures short { IfOk result (λ scripts. AreShort (map string_bytes scripts.items)) }
        ensures texts { IfOk result (λ scripts. map string_bytes scripts.items ≡ self.0 ++ self.1 ∷ []) }
    {
        let Scripts {
            alloc: _,
            mut done,
            last,
        } = self;
        done.push(last)?;
        Ok(done)
    }
}
