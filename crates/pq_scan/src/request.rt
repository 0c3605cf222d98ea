//! What is asked of a plan while it is run.

use pq_base::Row;
use pq_schema::{Catalog, Query};

/// A query of a catalog with its parameters, and the position behind which its answer starts.
#[derive(Clone, Copy)]
pub struct Request<'a> {
    pub catalog: &'a Catalog,
    pub query: &'a Query,
    pub params: &'a Row,
    pub after: Option<&'a Row>,
}
