//! A write in flight, and by whom its pair is held.
use pq_base::Bytes;
use pq_index_keep::Write;
use pq_schema::Catalog;

/// A write in flight: the catalog over which it is made, and what its read answered, the code of the row that was
/// present or none.
#[derive(Clone, Copy)]
pub(crate) struct InFlight<'a> {
    pub catalog: &'a Catalog,
    pub write: &'a Write,
    pub read: &'a Option<Bytes>,
}

/// By whom a pair is held: a client, and the number of its write.
#[derive(Clone, Copy)]
pub(crate) struct Holder {
    pub client: u32,
    pub number: u32,
}
