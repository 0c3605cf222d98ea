//! The catalog with one definition more, and with its plan.
ghost use Rattle.std.specs.Prelude.{◌≡◌, Ok, IfOk};
ghost use Rattle.pq_schema.specs.Definitions.{counted_schema, new_counter};
ghost use Rattle.pq_schema.specs.Names.{IsName, IsTableDef, IsAlterDef, IsCounterDef};
ghost use Rattle.pq_schema.specs.Resolved.{IsResolved};
ghost use Rattle.pq_schema.specs.Schema.{with_query};
ghost use Rattle.pq_schema.specs.Valid.{IsDefined};
ghost use Rattle.pq_schema.specs.Wanted.{IsWanted};
ghost use Rattle.pq_catalog.specs.Extends.{Extends, ExtendsBy, ExtendsCounting, ExtendsWith};
ghost use Rattle.pq_catalog.specs.Kept.{IsPlanWanting, KeepsPlan};

use crate::planned::PlannedCatalog;
use pq_base::{List, NoMem, Refusal, Stopped};
use pq_definitions::{add_column, add_counter, add_query, add_table};
use pq_plan::BoundedPlan;
use pq_schema::{AlterDef, CounterDef, NewIndex, Query, TableDef};
use std::alloc::Global;

/// A table's number, or why it is refused.
pub type Numbered = Result<u8, Refusal>;

/// The number of a query's definition, or why it is refused.
pub type Defined = Result<u16, Refusal>;

/// Puts the plan of a definition that was made behind the others, or answers why the definition is refused.
fn keep_plan<N: Drop, P: Drop>(
    alloc: Global,
    plans: &mut List<P>,
    plan: P,
    added: Result<N, Stopped>,
) -> Result<Result<N, Refusal>, NoMem>
    ensures { IfOk result (λ made. KeepsPlan plans.old plan added made plans.new) }
{
    match added {
        Ok(number) => {
            plans.push(alloc, plan)?;
            Ok(Ok(number))
        }
        Err(Stopped::Refused(why)) => Ok(Err(why)),
        Err(Stopped::NoMem) => Err(NoMem),
    }
}

impl PlannedCatalog {
    /// The catalog with the table that the definition makes, and its number; or as it was, where it
    /// is refused.
    pub fn with_table_of(
        self,
        alloc: Global,
        def: TableDef,
    ) -> Result<(PlannedCatalog, Numbered), NoMem>
        requires { IsTableDef def }
        ensures { IfOk result (λ made. Extends self def made.0 made.1) }
    {
        let PlannedCatalog { catalog, plans } = self;
        let mut catalog = catalog;
        let mut plans = plans;
        let added = add_table(alloc, &mut catalog, def);
        let made = keep_plan(alloc, &mut plans, None, added)?;
        Ok((PlannedCatalog { catalog, plans }, made))
    }

    /// The catalog with the column that the definition adds, and the number of its definition; or as it
    /// was, where it is refused.
    pub fn with_column_of(
        self,
        alloc: Global,
        def: AlterDef,
    ) -> Result<(PlannedCatalog, Defined), NoMem>
        requires { IsAlterDef def }
        ensures { IfOk result (λ made. ExtendsWith self def made.0 made.1) }
    {
        let PlannedCatalog { catalog, plans } = self;
        let mut catalog = catalog;
        let mut plans = plans;
        let added = add_column(alloc, &mut catalog, def);
        let made = keep_plan(alloc, &mut plans, None, added)?;
        Ok((PlannedCatalog { catalog, plans }, made))
    }

    /// The catalog with the counter that is defined, and the number of its definition; or as it was, where
    /// it is refused.
    pub fn with_counter_of(
        self,
        alloc: Global,
        def: CounterDef,
    ) -> Result<(PlannedCatalog, Defined), NoMem>
        requires { IsCounterDef def }
        ensures { IfOk result (λ made. ExtendsCounting self def made.0 made.1) }
    {
        let PlannedCatalog { catalog, plans } = self;
        let mut catalog = catalog;
        let mut plans = plans;
        let added = add_counter(alloc, &mut catalog, def);
        let made = keep_plan(alloc, &mut plans, None, added)?;
        Ok((PlannedCatalog { catalog, plans }, made))
    }

    /// The catalog with a counter that nothing refuses.
    pub fn with_counted(self, alloc: Global, def: CounterDef) -> Result<PlannedCatalog, NoMem>
        requires names { IsCounterDef def }
        requires accepted { new_counter self def ≡ Ok (counted_schema self def) }
        ensures { IfOk result (λ next. next ≡ counted_schema self def) }
    {
        match self.with_counter_of(alloc, def)? {
            (planned, Ok(_)) => Ok(planned),
            (_, Err(_)) => unreachable!(),
        }
    }

    /// The catalog with the query, its plan and the index that it wants, and the number of its
    /// definition; or as it was, where it is refused.
    pub fn with_query(
        self,
        alloc: Global,
        query: Query,
        plan: BoundedPlan,
        wanted: Option<NewIndex>,
    ) -> Result<(PlannedCatalog, Defined), NoMem>
        requires name { IsName query.name }
        requires resolved { IsResolved self.tables query }
        requires chosen { IsWanted self.tables query wanted }
        requires compiled { IsPlanWanting self.tables query plan wanted }
        ensures { IfOk result (λ made. ExtendsBy self query wanted made.0 made.1) }
    {
        let PlannedCatalog { catalog, plans } = self;
        let mut catalog = catalog;
        let mut plans = plans;
        let added = add_query(alloc, &mut catalog, query, wanted);
        let made = keep_plan(alloc, &mut plans, Some(plan), added)?;
        Ok((PlannedCatalog { catalog, plans }, made))
    }

    /// The catalog with a query that may be defined, with its plan and with the index that it wants.
    pub fn with_defined(
        self,
        alloc: Global,
        query: Query,
        plan: BoundedPlan,
        wanted: Option<NewIndex>,
    ) -> Result<PlannedCatalog, NoMem>
        requires defined { IsDefined self query wanted }
        requires compiled { IsPlanWanting self.tables query plan wanted }
        ensures { IfOk result (λ next. next ≡ with_query self query wanted) }
    {
        match self.with_query(alloc, query, plan, wanted)? {
            (planned, Ok(_)) => Ok(planned),
            (_, Err(_)) => unreachable!(),
        }
    }
}
