//! Queries as their text has them, with names in place of numbers. Names are in small letters.
use pq_base::{Dir, List, Op, PText, Value};

/// A column by its name, with the relation's alias where it stands before a point.
#[derive(Drop)]
pub struct RefDef {
    /// The name, or where a point follows it the alias.
    pub first: PText,
    /// The name behind the point.
    pub second: Option<PText>,
}

/// A relation of FROM.
#[derive(Drop)]
pub struct RelationDef {
    pub table: PText,
    /// The alias, where one is given.
    pub alias: Option<PText>,
}

/// What a column is compared with.
#[derive(Drop)]
pub enum OperandDef {
    Const(Value),
    /// The parameter of this number.
    Param(i64),
    Ref(RefDef),
}

/// A comparison of WHERE.
#[derive(Drop)]
pub struct PredDef {
    pub left: RefDef,
    pub op: Op,
    pub right: OperandDef,
}

/// A column of ORDER BY.
#[derive(Drop)]
pub struct ItemDef {
    pub col: RefDef,
    pub dir: Dir,
}

/// How many rows are wanted.
#[derive(Drop)]
pub enum StopDef {
    All,
    Limit(i64),
    Paginate(i64),
}

/// What is selected.
#[derive(Drop)]
pub enum Selected {
    /// All columns of all relations.
    Star,
    Refs(List<RefDef>),
}

/// A query.
pub struct SelectDef {
    pub selected: Selected,
    pub relations: List<RelationDef>,
    pub preds: List<PredDef>,
    pub order: List<ItemDef>,
    pub stop: StopDef,
}

// Written out, so that whoever drops a query makes one call for it.
impl Drop for SelectDef {
    fn drop(self) {
        let SelectDef {
            selected: _selected,
            relations: _relations,
            preds: _preds,
            order: _order,
            stop: _stop,
        } = self;
    }
}
