//! What evaluating a node answers on a frame: the definitions that contracts of nodes speak of, and the laws
//! by which a node's answer comes from those of its inputs. Nothing runs here.
#![tactic(auto)]
