//! A script in one run over a store, and part by part over another one, which is opened again for each part.
use crate::parts::parts_of;
use crate::reports::{head, status_of};
use crate::texts::Texts;
use pq_base::{Bytes, NoMem};
use pq_mem_store::MemStore;
use pq_shell::Status;
use pq_store::{Meter, Pair};
use pq_test_tools::run_script;
use std::alloc::Global;
use std::sync::ledger::Ledger;

// The store that is opened again for each part, and what its runs wrote, as one run writes it.
#[derive(Drop)]
struct Parted {
    store: MemStore,
    text: Vec<u8>,
    statements: u32,
    definitions: u32,
}

fn is_definition(part: &[u8]) -> bool {
    part.starts_with(b"CREATE") || part.starts_with(b"ALTER") || part.starts_with(b"PREPARE")
}

impl Parted {
    fn new(alloc: Global) -> Result<Parted, NoMem> {
        Ok(Parted {
            store: MemStore::new(alloc),
            text: Vec::from_slice(alloc, b"open defs 0 bound 2 257\n")?,
            statements: 0,
            definitions: 0,
        })
    }

    // Puts a line of a part's reports, with the number that its statement has in the whole script. Whether it ends the
    // report with this number in the part.
    fn put_line(&mut self, alloc: Global, line: &[u8], number: u32) -> Result<bool, NoMem> {
        let own = head(alloc, number)?;
        match line.strip_prefix(own.as_bytes()) {
            Some(rest) => {
                self.statements = self.statements.saturating_add(1);
                let whole = head(alloc, self.statements)?;
                self.text.extend_from_slice(whole.as_bytes())?;
                self.text.extend_from_slice(rest)?;
                Ok(true)
            }
            None => {
                self.text.extend_from_slice(line)?;
                Ok(false)
            }
        }
    }

    // Puts the reports of a part, and says how many they are.
    fn put_reports(&mut self, alloc: Global, reports: &[u8]) -> Result<u32, NoMem> {
        let mut number = 1u32;
        for line in reports.split_inclusive(|byte| *byte == b'\n') {
            if self.put_line(alloc, line, number)? {
                number = number.saturating_add(1);
            }
        }
        Ok(number.saturating_sub(1))
    }

    // Puts what the run of a part has written. Whether it begins with the opening of so many definitions, and ends so.
    fn put(
        &mut self,
        alloc: Global,
        part: &[u8],
        ended: Status,
        text: &[u8],
    ) -> Result<bool, NoMem> {
        let definitions = self.definitions;
        let opening = format!(in alloc; "open defs {definitions} bound 2 257\n")?;
        match text.strip_prefix(opening.as_bytes()) {
            Some(reports) => {
                let count = self.put_reports(alloc, reports)?;
                if is_definition(part) && ended == Status::Good {
                    self.definitions = self.definitions.saturating_add(count);
                }
                Ok(ended == status_of(reports))
            }
            None => Ok(false),
        }
    }

    // Runs a part over the store, opened again. Whether it ends as it has to.
    fn run<L: Ledger>(
        &mut self,
        alloc: Global,
        part: &[u8],
        meter: &mut Meter<L>,
    ) -> Result<bool, NoMem> {
        let (ended, text) = run_script(alloc, part, &mut self.store, meter)?;
        self.put(alloc, part, ended, text.as_slice())
    }

    // Runs all parts. Whether their reports together are this text.
    fn run_all<L: Ledger>(
        &mut self,
        alloc: Global,
        parts: &[Bytes],
        out: &[u8],
        meter: &mut Meter<L>,
    ) -> Result<bool, NoMem> {
        for part in parts {
            if !self.run(alloc, part.items(), meter)? {
                return Ok(false);
            }
        }
        Ok(self.text.as_slice() == out)
    }
}

fn are_same(some: &[Pair], others: &[Pair]) -> bool {
    let same = |pair: (&Pair, &Pair)| {
        pair.0.key.items() == pair.1.key.items() && pair.0.value.items() == pair.1.value.items()
    };
    some.len() == others.len() && some.iter().zip(others).all(same)
}

// Whether both stores hold the same.
fn have_same(alloc: Global, one: &MemStore, other: &MemStore) -> Result<bool, NoMem> {
    let some = one.pairs(alloc)?;
    let others = other.pairs(alloc)?;
    Ok(are_same(some.items(), others.items()))
}

// Whether the script in one run over this store writes the text, and ends as one that writes it.
fn writes<L: Ledger>(
    alloc: Global,
    script: &[u8],
    out: &[u8],
    store: &mut MemStore,
    meter: &mut Meter<L>,
) -> Result<bool, NoMem> {
    let (ended, text) = run_script(alloc, script, store, meter)?;
    Ok(ended == status_of(out) && text.as_slice() == out)
}

/// Whether a script in one run writes its text but for the used numbers, each part over a store that is opened again
/// writes its reports, and both stores hold the same in the end.
pub fn is_as_written<L: Ledger>(
    alloc: Global,
    texts: &Texts,
    meter: &mut Meter<L>,
) -> Result<bool, NoMem> {
    let mut whole = MemStore::new(alloc);
    let out = texts.out.as_slice();
    if !writes(alloc, texts.script.as_slice(), out, &mut whole, meter)? {
        return Ok(false);
    }
    let parts = parts_of(alloc, texts.parts.as_slice())?;
    let mut parted = Parted::new(alloc)?;
    Ok(
        parted.run_all(alloc, parts.items(), out, meter)?
            && have_same(alloc, &whole, &parted.store)?,
    )
}
