//! A tree with its cost.

ghost use Rattle.std.specs.Prelude.{◌≡◌};
ghost use Rattle.pq_plan.specs.Cost.{cost, IsPlanTree};

use crate::cost::bound_of;
use crate::physical::Physical;
use pq_base::Bound;
use std::marker::Model;

/// A tree and the sum over its nodes, seen as the tree.
pub struct BoundedPlan {
    tree: Physical,
    bound: Bound,
}

// Written out, so that whoever drops a plan makes one call for it.
impl Drop for BoundedPlan {
    fn drop(self) {
        let BoundedPlan {
            tree: _tree,
            bound: _bound,
        } = self;
    }
}

impl Model for BoundedPlan {
    ghost use Rattle.std.specs.Coded.{codes};
    ghost use Rattle.std.specs.Prelude.{◌≡◌};
    ghost use Rattle.pq_plan.specs.Cost.{cost};
    ghost use Rattle.pq_plan.specs.contracts.physical.Physical as physical;
    ghost use Rattle.pq_plan.specs.declared.physical.Physical.{Physical};

    ghost Value = { Physical };

    ghost coded = { Prim.hlevel (codes, physical.the_row.coded) };

    ghost view = { λ p. p.tree };

    ghost invariant = { λ p. p.bound ≡ cost p.tree };
}

impl BoundedPlan {
    /// The tree with its cost. It has each relation once at most.
    pub fn wrap(tree: Physical) -> BoundedPlan
        requires { IsPlanTree tree }
        ensures { result ≡ tree }
    {
        let bound = bound_of(&tree);
        BoundedPlan { tree, bound }
    }

    /// The tree.
    pub fn tree(&self) -> &Physical
        ensures { result.now ≡ self.now }
    {
        &self.tree
    }

    /// The sum over the nodes of the tree.
    pub fn bound(&self) -> Bound
        ensures { result ≡ cost self.now }
    {
        self.bound
    }
}
