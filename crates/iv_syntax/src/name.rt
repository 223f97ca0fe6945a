//! Names of tables, columns, constraints, triggers, ranges and savepoints.
ghost use Rattle.std.specs.Prelude.{◌≡◌, List, ℕ};

use iv_value::Text;
use std::alloc::AllocError;
use std::marker::Model;

/// What has a name.
pub trait Named {
    ghost named: { Self → List ℕ };

    /// Its name.
    fn name(&self) -> &str
        ensures { result.now ≡ named self.now };
}

/// A name, folded to upper case and shared. Contracts see it as its bytes.
pub struct Name {
    folded: Text,
}

impl Drop for Name {
    fn drop(self) {
        let Name { folded } = self;
        drop(folded);
    }
}

impl Model for Name {
    ghost use Rattle.std.specs.Prelude.{List, ℕ};

    ghost Value = { List ℕ };

    ghost view = { λ n. n.folded };
}

impl Name {
    /// The name that is this text, which is taken as it is.
    pub fn new(folded: Text) -> Name
        ensures { result ≡ folded }
    {
        Name { folded }
    }

    /// Its characters.
    pub fn as_str(&self) -> &str
        ensures { result.now ≡ self.now }
    {
        self.folded.as_str()
    }
}

impl Named for Name {
    ghost named = { λ n. n };

    fn name(&self) -> &str {
        self.as_str()
    }
}

impl Clone for Name {
    ghost is_clone = { λ x y. y ≡ x };

    fn clone(&self) -> Result<Name, AllocError> {
        Ok(Name {
            folded: self.folded.clone()?,
        })
    }
}
