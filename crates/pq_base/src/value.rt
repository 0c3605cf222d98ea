//! Values, rows and their order.
ghost use Rattle.std.specs.Prelude.{◌≡◌, ◌↔◌, IfOk, IsTrue, All};
ghost use Rattle.pq_base.specs.Values.{IsValue, IsType, is_null, has_null, kind_of, kind_of_type, is_nullable, room_of, is_kind, AreAlike, FitsType, AllFit, fits_type, all_fit};
ghost use Rattle.pq_base.specs.Order.{value_cmp, position_cmp};

use crate::list::{List, NoMem};
use crate::text::PText;
use std::alloc::Global;
use std::cmp::Ordering;

/// A value of a column.
pub enum Value {
    Null,
    Int(i64),
    Bool(bool),
    Text(PText),
}

// Written out, so that whoever drops a value makes one call for it.
impl Drop for Value {
    fn drop(self) {
        match self {
            Value::Null => {}
            Value::Int(_number) => {}
            Value::Bool(_truth) => {}
            Value::Text(_text) => {}
        }
    }
}

/// The values of a row, or of the columns that something names.
pub type Row = List<Value>;

/// The type of a column or of a parameter.
#[derive(Clone, Copy, PartialEq, Eq)]
pub enum ColType {
    Int,
    Bool,
    /// Text of at most so many bytes.
    Text(u16),
    NullInt,
    NullBool,
    /// NULL, or text of at most so many bytes.
    NullText(u16),
}

/// The kind of a value, or of the values of a type. NULL has none.
#[derive(Clone, Copy, PartialEq, Eq)]
pub enum DataKind {
    Int,
    Bool,
    Text,
}

/// The direction of an order by one column.
#[derive(Clone, Copy, PartialEq, Eq)]
pub enum Dir {
    Asc,
    Desc,
}

impl DataKind {
    /// Whether both are one kind.
    pub fn is(self, other: DataKind) -> bool
        ensures { result ≡ is_kind self other }
    {
        match self {
            DataKind::Int => matches!(other, DataKind::Int),
            DataKind::Bool => matches!(other, DataKind::Bool),
            DataKind::Text => matches!(other, DataKind::Text),
        }
    }
}

impl ColType {
    /// The kind of its values but NULL.
    pub fn kind(self) -> DataKind
        ensures { result ≡ kind_of_type self }
    {
        match self {
            ColType::Int | ColType::NullInt => DataKind::Int,
            ColType::Bool | ColType::NullBool => DataKind::Bool,
            ColType::Text(_) | ColType::NullText(_) => DataKind::Text,
        }
    }

    /// Whether NULL is of the type.
    pub fn is_nullable(self) -> bool
        ensures { result ≡ is_nullable self }
    {
        match self {
            ColType::NullInt | ColType::NullBool | ColType::NullText(_) => true,
            ColType::Int | ColType::Bool | ColType::Text(_) => false,
        }
    }

    /// The most bytes of a text of the type. 0 where it has no texts.
    pub fn room(self) -> u16
        ensures { result ≡ room_of self }
    {
        match self {
            ColType::Int | ColType::Bool | ColType::NullInt | ColType::NullBool => 0,
            ColType::Text(most) | ColType::NullText(most) => most,
        }
    }
}

impl Value {
    /// The kind of the value. None exactly at NULL.
    pub fn kind(&self) -> Option<DataKind>
        ensures { result ≡ kind_of self.now }
    {
        match self {
            Value::Null => None,
            Value::Int(_) => Some(DataKind::Int),
            Value::Bool(_) => Some(DataKind::Bool),
            Value::Text(_) => Some(DataKind::Text),
        }
    }

    /// Whether it is NULL.
    pub fn is_null(&self) -> bool
        ensures { result ≡ is_null self.now }
    {
        matches!(self, Value::Null)
    }

    /// Another value equal to this one.
    pub fn copy(&self, alloc: Global) -> Result<Value, NoMem>
        ensures { IfOk result (λ copy. copy ≡ self.now) }
    {
        match self {
            Value::Null => Ok(Value::Null),
            Value::Int(number) => Ok(Value::Int(*number)),
            Value::Bool(truth) => Ok(Value::Bool(*truth)),
            Value::Text(text) => Ok(Value::Text(text.copy(alloc)?)),
        }
    }
}

impl List<Value> {
    /// Another row of equal values.
    pub fn copy(&self, alloc: Global) -> Result<Row, NoMem>
        ensures { IfOk result (λ copy. copy ≡ self.now) }
    {
        let mut copy = List::with_room(alloc, self.items().len())?;
        for value in self.items() {
            copy.push(alloc, value.copy(alloc)?)?;
        }
        Ok(copy)
    }
}

/// Whether the value fits the type.
pub fn fits(value: &Value, ty: ColType) -> bool
    ensures exact { IsTrue result ↔ FitsType ty value.now }
    ensures test { result ≡ fits_type ty value.now }
{
    match value {
        Value::Null => ty.is_nullable(),
        Value::Int(number) => {
            let _number = *number;
            ty.kind().is(DataKind::Int)
        }
        Value::Bool(_) => ty.kind().is(DataKind::Bool),
        Value::Text(text) => {
            ty.kind().is(DataKind::Text) && text.bytes().len() <= ty.room() as usize
        }
    }
}

/// Whether one of the values is NULL.
pub fn has_null(values: &[Value]) -> bool
    ensures { result ≡ has_null values.now }
{
    match values {
        [] => false,
        [first, rest @ ..] => first.is_null() || has_null(rest),
    }
}

/// Whether there are as many values as types, and each fits.
pub fn all_fit(values: &[Value], types: &[ColType]) -> bool
    ensures exact { IsTrue result ↔ AllFit types.now values.now }
    ensures test { result ≡ all_fit types.now values.now }
{
    match (types.split_first(), values.split_first()) {
        (None, None) => true,
        (Some((ty, types)), Some((value, values))) => fits(value, *ty) && all_fit(values, types),
        _ => false,
    }
}

/// The order of two values: NULL first, then numbers by size, before false and then true, before
/// texts by their bytes.
pub fn cmp_values(a: &Value, b: &Value) -> Ordering
    ensures { result ≡ value_cmp a.now b.now }
{
    match (a, b) {
        (Value::Null, Value::Null) => Ordering::Equal,
        (Value::Null, Value::Int(_) | Value::Bool(_) | Value::Text(_)) => Ordering::Less,
        (Value::Int(_) | Value::Bool(_) | Value::Text(_), Value::Null) => Ordering::Greater,
        (Value::Int(a), Value::Int(b)) => a.cmp(b),
        (Value::Int(_), Value::Bool(_) | Value::Text(_)) => Ordering::Less,
        (Value::Bool(_), Value::Int(_)) => Ordering::Greater,
        (Value::Bool(a), Value::Bool(b)) => a.cmp(b),
        (Value::Bool(_), Value::Text(_)) => Ordering::Less,
        (Value::Text(_), Value::Int(_) | Value::Bool(_)) => Ordering::Greater,
        (Value::Text(a), Value::Text(b)) => a.bytes().cmp(b.bytes()),
    }
}

/// The order of two rows: by the first place that differs, turned round where it descends.
pub fn cmp_positions(a: &Row, b: &Row, dirs: &[Dir]) -> Ordering
    requires { AreAlike a.now b.now dirs.now }
    ensures { result ≡ position_cmp dirs.now a.now b.now }
{
    cmp_places(a.items(), b.items(), dirs)
}

fn cmp_places(a: &[Value], b: &[Value], dirs: &[Dir]) -> Ordering
    requires { AreAlike a.now b.now dirs.now }
    ensures { result ≡ position_cmp dirs.now a.now b.now }
{
    let (Some((first, left)), Some((second, right)), Some((dir, rest))) = (
        a.split_first(),
        b.split_first(),
        dirs.split_first(),
    ) else {
        return Ordering::Equal;
    };
    let order = match dir {
        Dir::Asc => cmp_values(first, second),
        Dir::Desc => cmp_values(first, second).reverse(),
    };
    match order {
        Ordering::Equal => cmp_places(left, right, rest),
        order => order,
    }
}

/// Tells a proof that a value is in its kind's range.
pub fn known_value(value: &Value)
    ensures { IsValue value.now }
{
    match value {
        Value::Int(number) => {
            let _number = *number;
        }
        Value::Null | Value::Bool(_) => {}
        Value::Text(text) => {
            let _bytes = text.bytes();
        }
    }
}

/// Tells a proof that values are in their kinds' ranges.
pub fn known_values(values: &[Value])
    ensures { All IsValue values.now }
{
    for value in values {
        known_value(value);
    }
}

fn known_type(ty: &ColType)
    ensures { IsType ty.now }
{
    match ty {
        ColType::Int | ColType::Bool | ColType::NullInt | ColType::NullBool => {}
        ColType::Text(most) | ColType::NullText(most) => {
            let _most = *most;
        }
    }
}

/// Tells a proof that the lengths of types are of 16 bits.
pub fn known_types(types: &[ColType])
    ensures { All IsType types.now }
{
    for ty in types {
        known_type(ty);
    }
}
