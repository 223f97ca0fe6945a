//! Conditions that were read.
ghost use Rattle.std.specs.Prelude.{◌≡◌};
ghost use Rattle.iv_syntax.specs.Trees.{condition_depth};

use iv_syntax::Condition;

/// A condition and its depth.
pub struct ConditionPart {
    pub tree: Condition,
    pub depth: u8,
    ghost counted: { depth ≡ condition_depth tree },
}

// Written out, so that what drops a tree is proved once.
impl Drop for ConditionPart {
    fn drop(self) {
        let ConditionPart { tree, depth: _ } = self;
        drop(tree);
    }
}

impl ConditionPart {
    /// The condition and its depth.
    pub fn into_parts(self) -> (Condition, u8)
        ensures tree { result.0 ≡ self.tree }
        ensures depth { result.1 ≡ condition_depth self.tree }
    {
        let ConditionPart { tree: taken, depth } = self;
        (taken, depth)
    }
}
