//! Whole runs over three parts: their text but for the used numbers, and what the nodes were asked.
ghost use Rattle.std.specs.Prelude.{◌≡◌};

use pq_base::{Bytes, List, NoMem};
use pq_mem_store::MemStore;
use pq_parts::{Part, PartStore};
use pq_store::{Meter, Opening};
use pq_test_tools::{RUNS, writes};
use std::alloc::Global;
use std::marker::Brand;
use std::sync::ledger::{Blank, Ledger};
use std::test;

fn empty_part(alloc: Global, from: &[u8]) -> Result<Part<MemStore>, NoMem> {
    Ok(Part {
        from: Bytes::of_bytes(alloc, from)?,
        store: MemStore::new(alloc),
    })
}

// Three empty parts in memory.
fn empty_parts(alloc: Global) -> Result<List<Part<MemStore>>, NoMem> {
    let mut parts = List::new(alloc);
    parts.push(alloc, empty_part(alloc, b"")?)?;
    parts.push(alloc, empty_part(alloc, b"\x02\x02")?)?;
    parts.push(alloc, empty_part(alloc, b"\x03")?)?;
    Ok(parts)
}

// The first of the runs that writes another text, and the calls of nodes of the opening alone. The
// caller's proof picks the ledgers.
fn first_unlike<N: Ledger + Drop, L: Ledger>(
    alloc: Global,
    nodes: Blank,
    blank: Blank,
) -> Result<(Option<usize>, u64), NoMem>
    requires nodes_name { nodes.name ≡ N.name }
    requires nodes_parts { nodes.parts ≡ N.parts }
    requires nodes_two { nodes.parts ≡ 2 }
    requires name { blank.name ≡ L.name }
    requires parts { blank.parts ≡ L.parts }
    requires two { blank.parts ≡ 2 }
{
    let parts = empty_parts(alloc)?;
    let Ok(mut store) = PartStore::new(parts, Meter::<N>::start(Opening::of(nodes))) else {
        return Ok((Some(RUNS.len()), 0));
    };
    let mut meter = Meter::<L>::start(Opening::of(blank));
    let mut opening = 0;
    for (i, (script, text)) in RUNS.iter().enumerate() {
        if !writes(alloc, script, text, &mut store, &mut meter)? {
            return Ok((Some(i), opening));
        }
        if i == 0 {
            opening = store.node_ops();
        }
    }
    Ok((None, opening))
}

#[test]
fn scripts_run_over_parts(rt: HostRuntime) -> Result<(), test::Fail> {
    let found = first_unlike::<Brand, Brand>(rt.alloc(), Blank::new(2), Blank::new(2))?;
    assert_eq!(rt; found, (None, 2));
    Ok(())
}
