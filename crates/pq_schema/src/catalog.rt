//! The definitions of a schema in order: tables by their numbers from 1, definitions likewise.
ghost use Rattle.std.specs.Prelude.{◌≡◌, ◌≤◌, ◌<◌, ◌++◌, ◌∷◌, [], length, option_map, position, false, string_bytes, vec_capacity, Some, None, IfOk, IfSome, OnOk, OnErr};
ghost use Rattle.pq_schema.specs.Counters.{IsCounterNumber};
ghost use Rattle.pq_schema.specs.Schema.{empty_schema, definition_at, def_of, find_table, find_query, find_counter, is_taken, IsQueryDefinition, query_at, query_of, IsCounterDefinition, counter_at, counter_of, is_counter, is_counter_of, counters_of, with_table, with_query, with_column, with_counter, with_wanted, with_new_column, with_added, made_of};
ghost use Rattle.std.specs.HashMap.{spare};
ghost use Rattle.pq_schema.specs.Numbered.{HasSameNumbers, PutsNumber};
ghost use Rattle.pq_schema.specs.Tables.{table_at, referring_limits, foreign_to};
ghost use Rattle.pq_schema.specs.Valid.{IsValid, IsDefined};
ghost use Rattle.pq_schema.specs.declared.made.Definition.TheVariants.{OfTable};

use crate::counter::Counter;
use crate::made::{Def, Definition, Made};
use crate::query::Query;
use crate::table::{Column, Foreign, NewIndex, Referring, Table};
use pq_base::{List, NoMem, PText, Value};
use std::alloc::Global;
use std::collections::HashMap;
use std::marker::Model;

/// The tables, queries, added columns and counters that are defined: at most 64 tables and 256 definitions.
pub struct Catalog {
    /// Behind a pointer, since a catalog is moved by value from step to step; None where nothing is defined.
    held: Option<Box<Held>>,
}

// Written out, so that whoever drops a catalog makes one call for it.
impl Drop for Catalog {
    fn drop(self) {
        let Catalog { held: _held } = self;
    }
}

impl Model for Catalog {
    ghost use Rattle.std.specs.Prelude.{option_map, unwrap_or};
    ghost use Rattle.pq_schema.specs.Schema.{Schema, empty_schema};

    ghost Value = { Schema };

    ghost view = { λ c. unwrap_or (option_map (λ held. held.value) c.held) empty_schema };
}

/// The definitions of a catalog, and their numbers by name.
struct Held {
    tables: Vec<Table>,
    definitions: Vec<Definition>,
    /// The numbers of the tables by their names.
    table_numbers: HashMap<String, u8>,
    /// The numbers of the queries among the definitions, by their names.
    query_numbers: HashMap<String, u16>,
}

// Written out, so that a box of it is dropped by one call.
impl Drop for Held {
    fn drop(self) {
        let Held {
            tables: _tables,
            definitions: _definitions,
            table_numbers: _table_numbers,
            query_numbers: _query_numbers,
        } = self;
    }
}

impl Model for Held {
    ghost use Rattle.pq_schema.specs.Numbered.{AreNumbered};
    ghost use Rattle.pq_schema.specs.Schema.{Schema};
    ghost use Rattle.pq_schema.specs.Valid.{IsSound};

    ghost Value = { Schema };

    ghost view = { λ h. record { tables = h.tables.items; definitions = h.definitions.items } };

    ghost invariant = { λ h.
        let schema : Schema = record { tables = h.tables.items; definitions = h.definitions.items } in
        IsSound schema × AreNumbered schema h.table_numbers.entries h.query_numbers.entries };
}

impl Definition {
    fn as_query(&self) -> &Query
        requires { IsQueryDefinition self.now }
        ensures { result.now ≡ query_of self.now }
    {
        match self {
            Definition::OfTable { .. }
            | Definition::OfColumn { .. }
            | Definition::OfCounter { .. } => unreachable!(),
            Definition::OfQuery { query, .. } => query,
        }
    }

    fn as_counter(&self) -> &Counter
        requires { IsCounterDefinition self.now }
        ensures { result.now ≡ counter_of self.now }
    {
        match self {
            Definition::OfTable { .. } | Definition::OfQuery { .. } | Definition::OfColumn { .. } =>
                { unreachable!() }
            Definition::OfCounter { counter } => counter,
        }
    }

    /// Whether it is a counter of this name.
    fn is_counter(&self, name: &PText) -> bool
        ensures { result ≡ is_counter name.now self.now }
    {
        match self {
            Definition::OfTable { .. } | Definition::OfQuery { .. } | Definition::OfColumn { .. } =>
                { false }
            Definition::OfCounter { counter } => counter.name.bytes() == name.bytes(),
        }
    }

    /// Whether it is a counter of the table of this number.
    fn is_counter_of(&self, table: u8) -> bool
        ensures { result ≡ is_counter_of table self.now }
    {
        match self {
            Definition::OfTable { .. } | Definition::OfQuery { .. } | Definition::OfColumn { .. } =>
                { false }
            Definition::OfCounter { counter } => counter.table == table,
        }
    }

    /// The kind of the definition, and what it made.
    pub fn kind(&self) -> Def
        ensures { result ≡ def_of self.now }
    {
        match self {
            Definition::OfTable { table, made, .. } => Def::Table {
                table: *table,
                made: *made,
            },
            Definition::OfQuery { made, .. } => Def::Query { made: *made },
            Definition::OfColumn { table, col } => Def::Added {
                table: *table,
                col: *col,
            },
            Definition::OfCounter { .. } => Def::Counter,
        }
    }
}

fn made_by(wanted: &Option<NewIndex>) -> Option<Made>
    ensures { result ≡ option_map made_of wanted.now }
{
    match wanted {
        None => None,
        Some(new) => Some(Made {
            table: new.table,
            index: new.number,
        }),
    }
}

/// The definition of the table of this number.
fn made_table(number: u8, table: &Table) -> Definition
    requires columns { length table.now.columns ≤ 32 }
    requires indexes { length table.now.indexes ≤ 16 }
    ensures { result ≡ OfTable number (length table.now.columns) (length table.now.indexes) }
{
    Definition::OfTable {
        table: number,
        columns: table.columns.items().len() as u8,
        made: table.indexes.items().len() as u8,
    }
}

/// Puts an item behind the others, where there is room for it.
fn put_last<T: Drop>(items: &mut Vec<T>, item: T)
    requires { length items.old.items < vec_capacity items.old }
    ensures { items.new.items ≡ items.old.items ++ item ∷ [] }
{
    match items.push(item) {
        Ok(()) => {}
        Err(_) => unreachable!(),
    }
}

/// Makes room for an item more and for the number of a name more.
fn make_room<T: Drop, N: Drop>(
    items: &mut Vec<T>,
    numbers: &mut HashMap<String, N>,
) -> Result<(), NoMem>
    ensures items { items.new.items ≡ items.old.items }
    ensures numbers { HasSameNumbers numbers.old.entries numbers.new.entries }
    ensures item { OnOk result (length items.new.items < vec_capacity items.new) }
    ensures number { OnOk result (0 < spare numbers.new) }
{
    items.reserve(1)?;
    numbers.reserve(1)?;
    Ok(())
}

/// Puts a number under a name, where there is room for it.
fn put_number<N: Drop>(numbers: &mut HashMap<String, N>, name: String, number: N)
    requires { 0 < spare numbers.old }
    ensures { PutsNumber (string_bytes name) number numbers.old.entries numbers.new.entries }
{
    match numbers.insert(name, number) {
        Ok(_) => {}
        Err(_) => unreachable!(),
    }
}

/// Puts the index behind those of its table. After `NoMem` nothing is changed.
fn put_index(alloc: Global, tables: &mut Vec<Table>, new: NewIndex) -> Result<(), NoMem>
    requires from_one { 1 ≤ new.table }
    requires there { new.table ≤ length tables.old.items }
    ensures ok { OnOk result (tables.new.items ≡ with_wanted tables.old.items (Some new)) }
    ensures err { OnErr result (tables.new.items ≡ tables.old.items) }
{
    let table = &mut tables[new.table as usize - 1];
    table.indexes.push(alloc, new.index)
}

/// Puts the wanted index, where there is one, behind those of its table. After `NoMem` nothing is changed.
fn put_wanted(alloc: Global, tables: &mut Vec<Table>, wanted: Option<NewIndex>) -> Result<(), NoMem>
    requires { IfSome wanted (λ new. (1 ≤ new.table) × (new.table ≤ length tables.old.items)) }
    ensures ok { OnOk result (tables.new.items ≡ with_wanted tables.old.items wanted) }
    ensures err { OnErr result (tables.new.items ≡ tables.old.items) }
{
    match wanted {
        None => Ok(()),
        Some(new) => put_index(alloc, tables, new),
    }
}

/// Puts a column with its default behind the others. After `NoMem` nothing is changed.
fn put_last_column(
    alloc: Global,
    table: &mut Table,
    column: Column,
    filler: Value,
) -> Result<(), NoMem>
    ensures ok { OnOk result (table.new ≡ with_new_column table.old column filler) }
    ensures err { OnErr result (table.new ≡ table.old) }
{
    let width = table.columns.items().len();
    table.columns.push(alloc, column)?;
    let put = table.fillers.push(alloc, Some(filler));
    if put.is_err() {
        table.columns.truncate(width);
    }
    put
}

/// Puts a column behind the others of its table. After `NoMem` nothing is changed.
fn put_column(
    alloc: Global,
    tables: &mut Vec<Table>,
    number: u8,
    column: Column,
    filler: Value,
) -> Result<(), NoMem>
    requires from_one { 1 ≤ number }
    requires there { number ≤ length tables.old.items }
    ensures ok { OnOk result (tables.new.items ≡ with_added tables.old.items number column filler) }
    ensures err { OnErr result (tables.new.items ≡ tables.old.items) }
{
    let table = &mut tables[number as usize - 1];
    put_last_column(alloc, table, column, filler)
}

/// Puts those of a table's foreign keys behind the others that name the parent.
fn push_foreign(
    alloc: Global,
    found: &mut List<Referring>,
    foreign: &[Foreign],
    table: u8,
    parent: u8,
) -> Result<(), NoMem>
    requires { length foreign.now ≤ 4 }
    ensures { IfOk result (λ _. found.new ≡ found.old ++ foreign_to parent table 1 foreign.now) }
{
    for (place, item) in foreign.iter().enumerate() {
        if item.table == parent {
            let number = place as u8 + 1;
            found.push(
                alloc,
                Referring {
                    table,
                    foreign: number,
                },
            )?;
        }
    }
    Ok(())
}

/// The place of the counter of this name among the definitions, from 0; None exactly where there is none.
fn counter_place(definitions: &[Definition], name: &PText) -> Option<usize>
    ensures { result ≡ position (is_counter name.now) definitions.now }
{
    definitions
        .iter()
        .position(|definition| definition.is_counter(name))
}

impl Held {
    fn new(alloc: Global) -> Held
        ensures { result ≡ empty_schema }
    {
        Held {
            tables: Vec::new(alloc),
            definitions: Vec::new(alloc),
            table_numbers: HashMap::new(alloc),
            query_numbers: HashMap::new(alloc),
        }
    }

    fn known(&self)
        ensures { IsValid self.now }
    {
        let _tables = &self.tables;
    }

    fn tables(&self) -> &[Table]
        ensures tables { result.now ≡ self.now.tables }
        ensures few { length self.now.tables ≤ 64 }
    {
        let _definitions = &self.definitions;
        self.tables.as_slice()
    }

    fn definitions(&self) -> &[Definition]
        ensures definitions { result.now ≡ self.now.definitions }
        ensures few { length self.now.definitions ≤ 256 }
    {
        let _tables = &self.tables;
        self.definitions.as_slice()
    }

    fn table(&self, number: u8) -> &Table
        requires from_one { 1 ≤ number }
        requires there { number ≤ length self.now.tables }
        ensures { result.now ≡ table_at self.now.tables number }
    {
        &self.tables.as_slice()[number as usize - 1]
    }

    fn definition_at(&self, number: u16) -> &Definition
        requires from_one { 1 ≤ number }
        requires there { number ≤ length self.now.definitions }
        ensures { result.now ≡ definition_at self.now number }
    {
        &self.definitions.as_slice()[number as usize - 1]
    }

    /// The number of the table of this name, None exactly where there is none.
    fn find_table(&self, name: &PText) -> Option<u8>
        ensures found { result ≡ find_table self.now name.now }
        ensures there { IfSome result (λ number. (1 ≤ number) × (number ≤ length self.now.tables)) }
    {
        match self.table_numbers.get(name.as_str()) {
            None => None,
            Some(number) => Some(*number),
        }
    }

    /// The number of the query of this name, None exactly where there is none.
    fn find_query(&self, name: &PText) -> Option<u16>
        ensures { result ≡ find_query self.now name.now }
    {
        match self.query_numbers.get(name.as_str()) {
            None => None,
            Some(number) => Some(*number),
        }
    }

    /// Puts a table behind the others, and its definition last. After `NoMem` nothing is changed.
    fn push_table(&mut self, alloc: Global, table: Table) -> Result<(), NoMem>
        requires next { IsValid (with_table self.old table) }
        requires free { is_taken self.old table.name ≡ false }
        requires columns { length table.columns ≤ 32 }
        requires indexes { length table.indexes ≤ 16 }
        ensures ok { OnOk result (self.new ≡ with_table self.old table) }
        ensures err { OnErr result (self.new ≡ self.old) }
    {
        let name = String::from_str(alloc, table.name.as_str())?;
        let number = self.tables.len() as u8 + 1;
        self.tables.reserve(1)?;
        make_room(&mut self.definitions, &mut self.table_numbers)?;
        put_last(&mut self.definitions, made_table(number, &table));
        put_last(&mut self.tables, table);
        put_number(&mut self.table_numbers, name, number);
        Ok(())
    }

    /// Puts a query's definition last, and the index that it wants behind those of its table. After
    /// `NoMem` nothing is changed.
    fn push_query(
        &mut self,
        alloc: Global,
        query: Query,
        wanted: Option<NewIndex>,
    ) -> Result<(), NoMem>
        requires defined { IsDefined self.old query wanted }
        requires free { is_taken self.old query.name ≡ false }
        ensures ok { OnOk result (self.new ≡ with_query self.old query wanted) }
        ensures err { OnErr result (self.new ≡ self.old) }
    {
        let name = String::from_str(alloc, query.name.as_str())?;
        let number = self.definitions.len() as u16 + 1;
        let made = made_by(&wanted);
        make_room(&mut self.definitions, &mut self.query_numbers)?;
        put_wanted(alloc, &mut self.tables, wanted)?;
        put_last(&mut self.definitions, Definition::OfQuery { query, made });
        put_number(&mut self.query_numbers, name, number);
        Ok(())
    }

    /// Puts a column behind the others of its table, and its definition last. After `NoMem` nothing is
    /// changed.
    fn push_column(
        &mut self,
        alloc: Global,
        number: u8,
        column: Column,
        filler: Value,
    ) -> Result<(), NoMem>
        requires next { IsValid (with_column self.old number column filler) }
        requires from_one { 1 ≤ number }
        requires there { number ≤ length self.old.tables }
        requires few { length (table_at self.old.tables number).columns ≤ 31 }
        ensures ok { OnOk result (self.new ≡ with_column self.old number column filler) }
        ensures err { OnErr result (self.new ≡ self.old) }
    {
        let col = self.table(number).columns.items().len() as u8;
        self.definitions.reserve(1)?;
        put_column(alloc, &mut self.tables, number, column, filler)?;
        put_last(
            &mut self.definitions,
            Definition::OfColumn { table: number, col },
        );
        Ok(())
    }

    /// Puts a counter's definition last. After `NoMem` nothing is changed.
    fn push_counter(&mut self, counter: Counter) -> Result<(), NoMem>
        requires { IsValid (with_counter self.old counter) }
        ensures ok { OnOk result (self.new ≡ with_counter self.old counter) }
        ensures err { OnErr result (self.new ≡ self.old) }
    {
        self.definitions.reserve(1)?;
        put_last(&mut self.definitions, Definition::OfCounter { counter });
        Ok(())
    }
}

impl Catalog {
    /// No definitions.
    pub fn new(_alloc: Global) -> Catalog
        ensures { result ≡ empty_schema }
    {
        Catalog { held: None }
    }

    /// Tells a proof that the schema is valid.
    pub fn known(&self)
        ensures { IsValid self.now }
    {
        match &self.held {
            None => {}
            Some(held) => held.known(),
        }
    }

    /// The number of the table of this name, None exactly where there is none.
    pub fn find_table(&self, name: &PText) -> Option<u8>
        ensures found { result ≡ find_table self.now name.now }
        ensures there { IfSome result (λ number. (1 ≤ number) × (number ≤ length self.now.tables)) }
    {
        match &self.held {
            None => None,
            Some(held) => held.find_table(name),
        }
    }

    /// The number of the query of this name, None exactly where there is none.
    pub fn find_query(&self, name: &PText) -> Option<u16>
        ensures { result ≡ find_query self.now name.now }
    {
        match &self.held {
            None => None,
            Some(held) => held.find_query(name),
        }
    }

    /// The number of the counter of this name among the definitions, None exactly where there is none.
    pub fn find_counter(&self, name: &PText) -> Option<u16>
        ensures found { result ≡ find_counter self.now name.now }
        ensures there { IfSome result (IsCounterNumber self.now) }
    {
        match counter_place(self.definitions(), name) {
            None => None,
            Some(place) => Some(place as u16 + 1),
        }
    }

    /// Whether a table, a query or a counter has the name.
    pub fn is_taken(&self, name: &PText) -> bool
        ensures { result ≡ is_taken self.now name.now }
    {
        self.find_table(name).is_some()
            || (self.find_query(name).is_some() || self.find_counter(name).is_some())
    }

    /// The table of this number, from 1.
    pub fn table(&self, number: u8) -> &Table
        requires from_one { 1 ≤ number }
        requires there { number ≤ length self.now.tables }
        ensures { result.now ≡ table_at self.now.tables number }
    {
        match &self.held {
            None => unreachable!(),
            Some(held) => held.table(number),
        }
    }

    /// The tables in order.
    pub fn tables(&self) -> &[Table]
        ensures tables { result.now ≡ self.now.tables }
        ensures few { length self.now.tables ≤ 64 }
    {
        match &self.held {
            None => &[],
            Some(held) => held.tables(),
        }
    }

    /// The definitions in order.
    fn definitions(&self) -> &[Definition]
        ensures definitions { result.now ≡ self.now.definitions }
        ensures few { length self.now.definitions ≤ 256 }
    {
        match &self.held {
            None => &[],
            Some(held) => held.definitions(),
        }
    }

    /// The definition of this number, from 1.
    pub fn definition_at(&self, number: u16) -> &Definition
        requires from_one { 1 ≤ number }
        requires there { number ≤ length self.now.definitions }
        ensures { result.now ≡ definition_at self.now number }
    {
        match &self.held {
            None => unreachable!(),
            Some(held) => held.definition_at(number),
        }
    }

    /// The query of this definition's number, from 1.
    pub fn query(&self, number: u16) -> &Query
        requires from_one { 1 ≤ number }
        requires there { number ≤ length self.now.definitions }
        requires query { IsQueryDefinition (definition_at self.now number) }
        ensures { result.now ≡ query_at self.now number }
    {
        self.definition_at(number).as_query()
    }

    /// The counter of this definition's number, from 1.
    pub fn counter(&self, number: u16) -> &Counter
        requires from_one { 1 ≤ number }
        requires there { number ≤ length self.now.definitions }
        requires counter { IsCounterDefinition (definition_at self.now number) }
        ensures { result.now ≡ counter_at self.now number }
    {
        self.definition_at(number).as_counter()
    }

    /// The numbers of the counters of this table, in the order of their definitions.
    pub fn counters_of(&self, alloc: Global, table: u8) -> Result<List<u16>, NoMem>
        ensures { IfOk result (λ found. found ≡ counters_of self.now table) }
    {
        let mut found = List::new(alloc);
        for (place, definition) in self.definitions().iter().enumerate() {
            if definition.is_counter_of(table) {
                found.push(alloc, place as u16 + 1)?;
            }
        }
        Ok(found)
    }

    /// Puts a table behind the others, and its definition last. After `NoMem` nothing is changed.
    pub fn push_table(&mut self, alloc: Global, table: Table) -> Result<(), NoMem>
        requires next { IsValid (with_table self.old table) }
        requires free { is_taken self.old table.name ≡ false }
        requires columns { length table.columns ≤ 32 }
        requires indexes { length table.indexes ≤ 16 }
        ensures ok { OnOk result (self.new ≡ with_table self.old table) }
        ensures err { OnErr result (self.new ≡ self.old) }
    {
        match &mut self.held {
            None => {
                let mut held = Box::new(alloc, Held::new(alloc))?;
                held.push_table(alloc, table)?;
                self.held = Some(held);
                Ok(())
            }
            Some(held) => held.push_table(alloc, table),
        }
    }

    /// Puts a query's definition last, and the index that it wants behind those of its table. After
    /// `NoMem` nothing is changed.
    pub fn push_query(
        &mut self,
        alloc: Global,
        query: Query,
        wanted: Option<NewIndex>,
    ) -> Result<(), NoMem>
        requires defined { IsDefined self.old query wanted }
        requires free { is_taken self.old query.name ≡ false }
        ensures ok { OnOk result (self.new ≡ with_query self.old query wanted) }
        ensures err { OnErr result (self.new ≡ self.old) }
    {
        match &mut self.held {
            None => unreachable!(),
            Some(held) => held.push_query(alloc, query, wanted),
        }
    }

    /// Puts a column behind the others of its table, and its definition last. After `NoMem` nothing is
    /// changed.
    pub fn push_column(
        &mut self,
        alloc: Global,
        number: u8,
        column: Column,
        filler: Value,
    ) -> Result<(), NoMem>
        requires next { IsValid (with_column self.old number column filler) }
        requires from_one { 1 ≤ number }
        requires there { number ≤ length self.old.tables }
        requires few { length (table_at self.old.tables number).columns ≤ 31 }
        ensures ok { OnOk result (self.new ≡ with_column self.old number column filler) }
        ensures err { OnErr result (self.new ≡ self.old) }
    {
        match &mut self.held {
            None => unreachable!(),
            Some(held) => held.push_column(alloc, number, column, filler),
        }
    }

    /// Puts a counter's definition last. After `NoMem` nothing is changed.
    #[tactic(auto, using(crate::proofs::Counters::counter_over_table))]
    pub fn push_counter(&mut self, counter: Counter) -> Result<(), NoMem>
        requires { IsValid (with_counter self.old counter) }
        ensures ok { OnOk result (self.new ≡ with_counter self.old counter) }
        ensures err { OnErr result (self.new ≡ self.old) }
    {
        match &mut self.held {
            None => unreachable!(),
            Some(held) => held.push_counter(counter),
        }
    }

    /// The foreign keys to the table of this number, in order of tables, then of declaration, each by its
    /// number from 1 among its table's foreign keys.
    pub fn referring(&self, alloc: Global, table: u8) -> Result<List<Referring>, NoMem>
        ensures { IfOk result (λ found. found ≡ referring_limits self.now.tables table) }
    {
        self.known();
        let mut found = List::new(alloc);
        for (place, child) in self.tables().iter().enumerate() {
            push_foreign(
                alloc,
                &mut found,
                child.foreign.items(),
                place as u8 + 1,
                table,
            )?;
        }
        Ok(found)
    }

    /// How many definitions there are.
    pub fn defs(&self) -> u16
        ensures defs { result ≡ length self.now.definitions }
        ensures few { length self.now.definitions ≤ 256 }
    {
        self.definitions().len() as u16
    }

    /// The kind of a definition, by its number from 1.
    pub fn definition(&self, number: u16) -> Def
        requires from_one { 1 ≤ number }
        requires there { number ≤ length self.now.definitions }
        ensures { result ≡ def_of (definition_at self.now number) }
    {
        self.definition_at(number).kind()
    }
}
