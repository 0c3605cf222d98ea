//! The definitions of a store with their plans.
ghost use Rattle.std.specs.Prelude.{◌≡◌};
ghost use Rattle.pq_schema.specs.Schema.{empty_schema, query_at};
ghost use Rattle.pq_schema.specs.Valid.{IsValid};
ghost use Rattle.pq_running.specs.Running.{IsQueryNumber};
ghost use Rattle.pq_catalog.specs.Kept.{IsKeptPlan};

use pq_base::List;
use pq_plan::BoundedPlan;
use pq_schema::Catalog;
use std::alloc::Global;
use std::marker::Model;

/// What is known of a store: its definitions, with the plan of each query. Rows are read from the store each
/// time.
#[derive(Drop)]
pub struct PlannedCatalog {
    pub(crate) catalog: Catalog,
    /// One for each definition, `None` for one that is no query's.
    pub(crate) plans: List<Option<BoundedPlan>>,
}

impl Model for PlannedCatalog {
    ghost use Rattle.pq_schema.specs.Schema.{Schema};

    ghost Value = { Schema };

    ghost use Rattle.pq_schema.specs.Valid.{IsValid};
    ghost use Rattle.pq_catalog.specs.Kept.{ArePlans};

    ghost view = { λ s. s.catalog };

    ghost invariant = { λ s. IsValid s.catalog × ArePlans s.catalog s.plans };
}

impl PlannedCatalog {
    /// No definitions.
    pub fn blank(alloc: Global) -> PlannedCatalog
        ensures { result ≡ empty_schema }
    {
        PlannedCatalog {
            catalog: Catalog::new(alloc),
            plans: List::new(alloc),
        }
    }

    /// Tells a proof that the definitions are valid.
    pub fn known(&self)
        ensures { IsValid self.now }
    {
        self.catalog.known();
    }

    /// The catalog of its definitions.
    pub fn catalog(&self) -> &Catalog
        ensures { result.now ≡ self.now }
    {
        &self.catalog
    }

    /// The plan of the query of this definition's number.
    pub fn kept_plan(&self, query: u16) -> &BoundedPlan
        requires { IsQueryNumber self.now query }
        ensures { IsKeptPlan self.now.tables (query_at self.now query) result.now }
    {
        match &self.plans.items()[query as usize - 1] {
            Some(plan) => plan,
            None => unreachable!(),
        }
    }
}
