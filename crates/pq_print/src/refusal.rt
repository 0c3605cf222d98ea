//! Refusals as text: the number, and then the fields.
ghost use Rattle.std.specs.Prelude.{◌≡◌, ◌<◌, ◌++◌, [], length, OnOk, string_bytes, slice_index_or};
ghost use Rattle.pq_base.specs.Words.{refusals, counts};
ghost use Rattle.pq_print.specs.Refusals.{refusal_field, refusal_number, refusal_fields, refusal_text, in_batch_text};

use crate::number::put_number;
use itoa::Integer;
use pq_base::{PText, Refusal, count_word, count_words, refusal_numbers, refusal_place};
use std::alloc::AllocError;

/// The refusal's number, by its place from 0.
fn number_at(place: usize) -> &'static str
    requires { place < length refusals }
    ensures { result.now ≡ slice_index_or refusals place [] }
{
    refusal_numbers().word(place)
}

/// The count's word by its place from 0; nothing at a place that no word has.
fn count_word(place: u8) -> &'static str
    ensures { result.now ≡ slice_index_or counts place [] }
{
    if (place as usize) < count_word::WORDS {
        return count_words().word(place as usize);
    }
    ""
}

fn number_of(refusal: &Refusal) -> &'static str
    ensures { result.now ≡ refusal_number refusal.now }
{
    match refusal {
        Refusal::NotUtf8 => number_at(refusal_place::NOT_UTF8),
        Refusal::Unfinished => number_at(refusal_place::UNFINISHED),
        Refusal::StatementLong => number_at(refusal_place::STATEMENT_LONG),
        Refusal::Syntax { .. } => number_at(refusal_place::SYNTAX),
        Refusal::NameTaken { .. } => number_at(refusal_place::NAME_TAKEN),
        Refusal::NoTable { .. } => number_at(refusal_place::NO_TABLE),
        Refusal::NoColumn { .. } => number_at(refusal_place::NO_COLUMN),
        Refusal::Repeated { .. } => number_at(refusal_place::REPEATED),
        Refusal::ForeignShape { .. } => number_at(refusal_place::FOREIGN_SHAPE),
        Refusal::Count { .. } => number_at(refusal_place::COUNT),
        Refusal::TooManyRows { .. } => number_at(refusal_place::TOO_MANY_ROWS),
        Refusal::NullableKey { .. } => number_at(refusal_place::NULLABLE_KEY),
        Refusal::NotEmpty { .. } => number_at(refusal_place::NOT_EMPTY),
        Refusal::Alias { .. } => number_at(refusal_place::ALIAS),
        Refusal::OperandKind { .. } => number_at(refusal_place::OPERAND_KIND),
        Refusal::Params => number_at(refusal_place::PARAMS),
        Refusal::NoBound { .. } => number_at(refusal_place::NO_BOUND),
        Refusal::BoundLarge { .. } => number_at(refusal_place::BOUND_LARGE),
        Refusal::NoQuery { .. } => number_at(refusal_place::NO_QUERY),
        Refusal::ParamValue { .. } => number_at(refusal_place::PARAM_VALUE),
        Refusal::Cursor => number_at(refusal_place::CURSOR),
        Refusal::NotPaged => number_at(refusal_place::NOT_PAGED),
        Refusal::NoCounter { .. } => number_at(refusal_place::NO_COUNTER),
        Refusal::IndexWanted { .. } => number_at(refusal_place::INDEX_WANTED),
        Refusal::ValueKind { .. } => number_at(refusal_place::VALUE_KIND),
        Refusal::WrongColumns { .. } => number_at(refusal_place::WRONG_COLUMNS),
        Refusal::DuplicateKey { .. } => number_at(refusal_place::DUPLICATE_KEY),
        Refusal::NoRow { .. } => number_at(refusal_place::NO_ROW),
        Refusal::NoParent { .. } => number_at(refusal_place::NO_PARENT),
        Refusal::Referenced { .. } => number_at(refusal_place::REFERENCED),
        Refusal::Cardinality { .. } => number_at(refusal_place::CARDINALITY),
        Refusal::RowLong { .. } => number_at(refusal_place::ROW_LONG),
        Refusal::CounterFull { .. } => number_at(refusal_place::COUNTER_FULL),
        Refusal::Condition { .. } => number_at(refusal_place::CONDITION),
        Refusal::BatchLong { .. } => number_at(refusal_place::BATCH_LONG),
        Refusal::Sum { .. } => number_at(refusal_place::SUM),
    }
}

fn put_field(text: &str, out: &mut String) -> Result<(), AllocError>
    ensures { OnOk result (string_bytes out.new ≡ string_bytes out.old ++ refusal_field text.now) }
{
    out.push_str(" ")?;
    out.push_str(text)
}

fn put_name(name: &PText, out: &mut String) -> Result<(), AllocError>
    ensures { OnOk result (string_bytes out.new ≡ string_bytes out.old ++ refusal_field name.now) }
{
    put_field(name.as_str(), out)
}

fn put_count<I: Integer>(number: I, out: &mut String) -> Result<(), AllocError>
    ensures { OnOk result (string_bytes out.new ≡ string_bytes out.old ++ refusal_field (I.text number)) }
{
    out.push_str(" ")?;
    put_number(out, number)
}

fn put_fields(refusal: &Refusal, out: &mut String) -> Result<(), AllocError>
    ensures { OnOk result (string_bytes out.new ≡ string_bytes out.old ++ refusal_fields refusal.now) }
{
    match refusal {
        Refusal::NotUtf8
        | Refusal::Unfinished
        | Refusal::StatementLong
        | Refusal::Params
        | Refusal::Cursor
        | Refusal::NotPaged => Ok(()),
        Refusal::Syntax { at } => put_count(*at, out),
        Refusal::NameTaken { name }
        | Refusal::NoTable { name }
        | Refusal::NoColumn { name }
        | Refusal::Repeated { name }
        | Refusal::Alias { name }
        | Refusal::NullableKey { name }
        | Refusal::NoQuery { name }
        | Refusal::NoCounter { name }
        | Refusal::CounterFull { name } => put_name(name, out),
        Refusal::NoBound { alias } => put_name(alias, out),
        Refusal::TooManyRows { table }
        | Refusal::NotEmpty { table }
        | Refusal::IndexWanted { table }
        | Refusal::WrongColumns { table }
        | Refusal::DuplicateKey { table }
        | Refusal::NoRow { table } => put_name(table, out),
        Refusal::ForeignShape { number } | Refusal::ParamValue { number } => {
            put_count(*number, out)
        }
        Refusal::OperandKind { pred } => put_count(*pred, out),
        Refusal::BatchLong { length } => put_count(*length, out),
        Refusal::Count { word } => put_field(count_word(*word), out),
        Refusal::BoundLarge { ops, entries } => {
            put_count(*ops, out)?;
            put_count(*entries, out)
        }
        Refusal::ValueKind { table, column } | Refusal::Sum { table, column } => {
            put_name(table, out)?;
            put_name(column, out)
        }
        Refusal::NoParent { table, number }
        | Refusal::Referenced { table, number }
        | Refusal::Condition { table, number } => {
            put_name(table, out)?;
            put_count(*number, out)
        }
        Refusal::Cardinality { table, number, n } => {
            put_name(table, out)?;
            put_count(*number, out)?;
            put_count(*n, out)
        }
        Refusal::RowLong { table, length } => {
            put_name(table, out)?;
            put_count(*length, out)
        }
    }
}

/// Puts the text of the refusal of a batch behind what is there: the place of the write from 1, and then its cause.
pub fn put_in_batch(place: u16, cause: &Refusal, out: &mut String) -> Result<(), AllocError>
    ensures { OnOk result (string_bytes out.new ≡ string_bytes out.old ++ in_batch_text place cause.now) }
{
    out.push_str(number_at(refusal_place::IN_BATCH))?;
    put_count(place, out)?;
    out.push_str(" ")?;
    put_refusal(cause, out)
}

/// Puts the refusal's text behind what is there.
pub fn put_refusal(refusal: &Refusal, out: &mut String) -> Result<(), AllocError>
    ensures { OnOk result (string_bytes out.new ≡ string_bytes out.old ++ refusal_text refusal.now) }
{
    out.push_str(number_of(refusal))?;
    put_fields(refusal, out)
}
