//! Expressions of a plan.
ghost use Rattle.std.specs.Prelude.{◌≡◌, option_map};

use crate::node::Node;
use px_column::Name;
use std::marker::Model;

/// An expression in an arena, and the name that its result is given, if any (polars `ExprIR`).
pub struct ExprIR {
    node: Node,
    alias: Option<Name>,
}

/// One call where an expression is let go, so that proofs see no more of what is inside.
impl Drop for ExprIR {
    fn drop(self) {
        let ExprIR {
            node: _,
            alias: _alias,
        } = self;
    }
}

impl Model for ExprIR {
    ghost use Rattle.px_arena.specs.Named.{NamedNode};

    ghost Value = { NamedNode };

    ghost view = { λ e. record { node = e.node; alias = e.alias } };
}

impl ExprIR {
    /// The expression of a node, under this name if there is one.
    pub fn new(node: Node, alias: Option<Name>) -> ExprIR
        ensures node { result.node ≡ node }
        ensures alias { result.alias ≡ alias }
    {
        ExprIR { node, alias }
    }

    /// The node.
    pub fn node(&self) -> Node
        ensures { result ≡ self.now.node }
    {
        self.node
    }

    /// The name that the result is given.
    pub fn get_alias(&self) -> Option<&Name>
        ensures { option_map (λ name. name.now) result ≡ self.now.alias }
    {
        self.alias.as_ref()
    }
}
