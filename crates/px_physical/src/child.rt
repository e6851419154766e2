//! A node below another, and how it is let go.

use crate::phys_expr::PhysExpr;

/// The node below another.
#[cycle(node)]
pub(crate) struct Child {
    /// The node, by its place.
    pub(crate) node: Box<PhysExpr>,
}

/// One call where it is let go, so that what owns nodes sees few of the ways from node to node.
impl Drop for Child {
    #[cycle(drop_node)]
    fn drop(self) {
        let Child { node: _node } = self;
    }
}
