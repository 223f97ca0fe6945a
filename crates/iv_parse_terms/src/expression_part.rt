//! Expressions that were read.
ghost use Rattle.std.specs.Prelude.{◌≡◌};
ghost use Rattle.iv_syntax.specs.Trees.{depth as depth_of};

use iv_syntax::Expression;

/// An expression and its depth.
pub struct ExpressionPart {
    pub tree: Expression,
    pub depth: u8,
    ghost counted: { depth ≡ depth_of tree },
}

// Written out, so that what drops a tree is proved once.
impl Drop for ExpressionPart {
    fn drop(self) {
        let ExpressionPart { tree, depth: _ } = self;
        drop(tree);
    }
}

impl ExpressionPart {
    /// The expression and its depth.
    pub fn into_parts(self) -> (Expression, u8)
        ensures tree { result.0 ≡ self.tree }
        ensures depth { result.1 ≡ depth_of self.tree }
    {
        let ExpressionPart { tree: taken, depth } = self;
        (taken, depth)
    }
}
