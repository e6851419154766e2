//! Expressions whose nodes stand in a list, each behind its children.
ghost use Rattle.std.specs.Prelude.{◌≡◌, ◌+◌, ◌-◌, ◌^◌, ◌<◌, ◌++◌, ◌∷◌, [], true, length, Ok, OnOk, OnErr};
ghost use Rattle.px_column.specs.Prelude.{Answers, AnswersBy};

use crate::node::{AExpr, Node};
use px_column::Px;
use std::alloc::Global;
use std::marker::Model;

/// Nodes of expressions, of which there are fewer than 2^32 (polars `Arena`); seen as the list of
/// their trees.
pub struct Arena {
    nodes: Vec<AExpr>,
}

/// One call where an arena is let go, so that proofs see no more of what is inside.
impl Drop for Arena {
    fn drop(self) {
        let Arena { nodes: _nodes } = self;
    }
}

impl Model for Arena {
    ghost use Rattle.std.specs.Prelude.{List};
    ghost use Rattle.std.specs.Coded.{coded_list};
    ghost use Rattle.px_tree.specs.Tree.{Tree};
    ghost use Rattle.px_tree.specs.TreeCode.{coded_tree};

    ghost Value = { List Tree };

    ghost coded = { coded_list coded_tree };

    ghost use Rattle.px_arena.specs.Arena.{trees_in, IsArena};

    ghost view = { λ a. trees_in a.nodes.items };

    ghost invariant = { λ a. IsArena a.nodes.items };
}

impl Arena {
    ghost use Rattle.px_arena.specs.Arena.{node_tree, tree_at, children_below};

    /// An arena with no nodes.
    pub fn new(alloc: Global) -> Px<Arena>
        ensures { Answers result (Ok []) }
    {
        Ok(Arena {
            nodes: Vec::new(alloc),
        })
    }

    /// The number of nodes.
    #[tactic(auto, using(crate::proofs::Trees::arena_rules))]
    pub fn len(&self) -> u32
        ensures count { result ≡ length self.now }
        ensures short { result < 2 ^ 32 }
    {
        self.nodes.len() as u32
    }

    /// The node at a place, whose children stand before it.
    #[tactic(auto, using(crate::proofs::Trees::arena_rules))]
    pub fn get(&self, node: Node) -> &AExpr
        requires { node.0 < length self.now }
        ensures tree { tree_at self.now node ≡ node_tree self.now result.now }
        ensures children { children_below node.0 result.now ≡ true }
    {
        &self.nodes[node.0 as usize]
    }

    /// Adds a node, whose children are there already, and says where it stands.
    #[tactic(auto, using(crate::proofs::Trees::arena_rules))]
    pub fn add(&mut self, item: AExpr) -> Px<Node>
        requires room { length self.old < 2 ^ 32 - 1 }
        requires children { children_below (length self.old) item ≡ true }
        ensures place { AnswersBy (λ node. node.0) result (Ok (length self.old)) }
        ensures added { OnOk result (self.new ≡ self.old ++ node_tree self.old item ∷ []) }
        ensures same { OnErr result (self.new ≡ self.old) }
    {
        let place = self.nodes.len() as u32;
        self.nodes.push(item)?;
        Ok(Node(place))
    }
}
