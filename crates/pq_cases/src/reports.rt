//! Reports line by line, and refusals one by one.
use crate::cells::{Cells, number_at, words_of};
use crate::put::{named, put_printed, put_report, put_word};
use pq_base::{Bound, Bytes, Choice, Dir, List, NoMem, PText, Refusal, Row, Used};
use pq_print::{End, IndexCol, Line, Opened, Report, print_damage, print_opening, print_row};
use std::alloc::Global;

/// The row as it is printed.
pub fn row(alloc: Global, cells: &Cells, out: &mut Bytes) -> Result<(), NoMem> {
    let mut printed = Bytes::new(alloc);
    print_row(alloc, &cells.row, &mut printed)?;
    put_printed(alloc, printed.items(), out)
}

// The refusals that name nothing, by the word for each.
fn plain_refusal(what: &str) -> Option<Refusal> {
    match what {
        "not_utf8" => Some(Refusal::NotUtf8),
        "unfinished" => Some(Refusal::Unfinished),
        "statement_long" => Some(Refusal::StatementLong),
        "syntax" => Some(Refusal::Syntax { at: 30 }),
        "foreign_shape" => Some(Refusal::ForeignShape { number: 2 }),
        "first_count" => Some(Refusal::Count { word: 0 }),
        "third_count" => Some(Refusal::Count { word: 2 }),
        "eighth_count" => Some(Refusal::Count { word: 7 }),
        "last_count" => Some(Refusal::Count { word: 16 }),
        "operand_kind" => Some(Refusal::OperandKind { pred: 16 }),
        "params" => Some(Refusal::Params),
        "bound_large" => Some(Refusal::BoundLarge {
            ops: 10101,
            entries: 340282366920938463463374607431768211455,
        }),
        "param_value" => Some(Refusal::ParamValue { number: 0 }),
        "cursor" => Some(Refusal::Cursor),
        "not_paged" => Some(Refusal::NotPaged),
        "batch_long" => Some(Refusal::BatchLong { length: 1048577 }),
        _ => None,
    }
}

// Those of definitions, queries and runs that name a table, a query, a column or an alias.
fn naming_refusal(what: &str, name: PText) -> Refusal {
    match what {
        "name_taken" => Refusal::NameTaken { name },
        "no_table" => Refusal::NoTable { name },
        "no_column" => Refusal::NoColumn { name },
        "repeated" => Refusal::Repeated { name },
        "too_many_rows" => Refusal::TooManyRows { table: name },
        "nullable_key" => Refusal::NullableKey { name },
        "not_empty" => Refusal::NotEmpty { table: name },
        "alias" => Refusal::Alias { name },
        "no_bound" => Refusal::NoBound { alias: name },
        "no_query" => Refusal::NoQuery { name },
        "no_counter" => Refusal::NoCounter { name },
        _ => write_refusal(what, name),
    }
}

// Those of writes that name a table.
fn write_refusal(what: &str, table: PText) -> Refusal {
    match what {
        "wrong_columns" => Refusal::WrongColumns { table },
        "duplicate_key" => Refusal::DuplicateKey { table },
        "no_row" => Refusal::NoRow { table },
        "no_parent" => Refusal::NoParent { table, number: 1 },
        "referenced" => Refusal::Referenced { table, number: 2 },
        "cardinality" => Refusal::Cardinality {
            table,
            number: 1,
            n: 100,
        },
        "counter_full" => Refusal::CounterFull { name: table },
        _ => Refusal::RowLong {
            table,
            length: 4097,
        },
    }
}

fn report_of(lines: List<Line>, end: End) -> Report {
    Report {
        number: 12,
        lines,
        end,
        bound: Bound {
            ops: 8,
            entries: 103,
        },
        used: Used { ops: 4, entries: 3 },
    }
}

// The report, and whether it tells a refusal.
fn put_told(alloc: Global, report: &Report, out: &mut Bytes) -> Result<(), NoMem> {
    let word = if report.is_refusal() {
        "refusal:"
    } else {
        "answer:"
    };
    put_word(alloc, word, out)?;
    put_report(alloc, report, out)
}

// The report with these lines and this end.
fn put_made(alloc: Global, lines: List<Line>, end: End, out: &mut Bytes) -> Result<(), NoMem> {
    let report = report_of(lines, end);
    put_told(alloc, &report, out)
}

fn put_refusal(alloc: Global, refusal: Refusal, out: &mut Bytes) -> Result<(), NoMem> {
    put_made(alloc, List::new(alloc), End::Refused(refusal), out)
}

fn refusal_of(alloc: Global, what: &str, name: &[u8]) -> Result<Refusal, NoMem> {
    match plain_refusal(what) {
        Some(refusal) => Ok(refusal),
        None => Ok(naming_refusal(what, named(alloc, name)?)),
    }
}

/// The report of a refusal, which names the first text.
pub fn refusal(alloc: Global, cells: &Cells, out: &mut Bytes) -> Result<(), NoMem> {
    let refusal = refusal_of(alloc, cells.what, cells.text(0))?;
    put_refusal(alloc, refusal, out)
}

/// The report of a batch whose write of this number is refused; the refusal names the first text.
pub fn in_batch(alloc: Global, cells: &Cells, out: &mut Bytes) -> Result<(), NoMem> {
    let cause = refusal_of(alloc, cells.what, cells.text(0))?;
    let place = cells.number(0).min(65535) as u16;
    put_made(alloc, List::new(alloc), End::InBatch { place, cause }, out)
}

/// The report of the refusal that names a table and a column.
pub fn value_kind(alloc: Global, cells: &Cells, out: &mut Bytes) -> Result<(), NoMem> {
    let table = named(alloc, cells.text(0))?;
    let column = named(alloc, cells.text(1))?;
    put_refusal(alloc, Refusal::ValueKind { table, column }, out)
}

fn name_at(alloc: Global, words: &[&str], place: usize) -> Result<PText, NoMem> {
    match words.get(place) {
        Some(word) => named(alloc, word.as_bytes()),
        None => named(alloc, &[]),
    }
}

fn choice_of(stop: Option<u32>) -> Choice {
    match stop {
        Some(relation) => Choice::Stop((relation % 256) as u8),
        None => Choice::Whole,
    }
}

// `home 111 1110 2`: a query with its bound, and the relation of its stop where it has one.
fn query_line(alloc: Global, text: &str) -> Result<Line, NoMem> {
    let words = words_of(alloc, text)?;
    Ok(Line::Query {
        name: name_at(alloc, &words, 0)?,
        choice: choice_of(number_at(&words, 3)),
        bound: Bound {
            ops: number_at(&words, 1).unwrap_or(0) as u128,
            entries: number_at(&words, 2).unwrap_or(0) as u128,
        },
    })
}

fn col_of(alloc: Global, word: &str) -> Result<IndexCol, NoMem> {
    let (name, dir) = match word.strip_suffix("-") {
        Some(name) => (name, Dir::Desc),
        None => (word, Dir::Asc),
    };
    let name = named(alloc, name.as_bytes())?;
    Ok(IndexCol { name, dir })
}

// `owner ts-`: columns, one of them descending.
fn cols_of(alloc: Global, words: &[&str]) -> Result<List<IndexCol>, NoMem> {
    let mut cols = List::new(alloc);
    for word in words {
        cols.push(alloc, col_of(alloc, word)?)?;
    }
    Ok(cols)
}

// `thoughts 16 owner ts-`: an index by its table, its number and its columns.
fn index_line(alloc: Global, text: &str) -> Result<Line, NoMem> {
    let words = words_of(alloc, text)?;
    let cols = cols_of(alloc, words.get(2..).unwrap_or(&[]))?;
    Ok(Line::Index {
        table: name_at(alloc, &words, 0)?,
        number: (number_at(&words, 1).unwrap_or(0) % 256) as u8,
        cols,
    })
}

// The definition 256 with this text.
fn def_line(alloc: Global, text: &str) -> Result<Line, NoMem> {
    let text = named(alloc, text.as_bytes())?;
    Ok(Line::Def { number: 256, text })
}

fn row_line(alloc: Global, row: &Row) -> Result<Line, NoMem> {
    Ok(Line::Row(row.copy(alloc)?))
}

// The line of this kind, one of a query, an index or a definition, or else that of the row.
fn line_of_kind(alloc: Global, row: &Row, kind: &str, text: &str) -> Result<Line, NoMem> {
    match kind {
        "query" => query_line(alloc, text),
        "index" => index_line(alloc, text),
        "def" => def_line(alloc, text),
        _ => row_line(alloc, row),
    }
}

// The line that a text describes.
fn line_of(alloc: Global, row: &Row, text: &str) -> Result<Line, NoMem> {
    match text.split_once(" ") {
        Some((kind, text)) => line_of_kind(alloc, row, kind, text),
        None => row_line(alloc, row),
    }
}

fn line_in(alloc: Global, row: &Row, text: &[u8]) -> Result<Line, NoMem> {
    let text = named(alloc, text)?;
    line_of(alloc, row, text.as_str())
}

fn push_lines(
    alloc: Global,
    row: &Row,
    texts: &[Bytes],
    lines: &mut List<Line>,
) -> Result<(), NoMem> {
    for text in texts {
        let line = line_in(alloc, row, text.items())?;
        lines.push(alloc, line)?;
    }
    Ok(())
}

/// The report with the lines that the texts describe.
pub fn lines(alloc: Global, cells: &Cells, out: &mut Bytes) -> Result<(), NoMem> {
    let mut lines = List::new(alloc);
    push_lines(alloc, &cells.row, cells.texts.items(), &mut lines)?;
    put_made(alloc, lines, End::Done, out)
}

fn next_of(alloc: Global, cells: &Cells) -> Result<Option<PText>, NoMem> {
    match cells.texts.items().first() {
        Some(cursor) => PText::from_bytes(alloc, cursor.items()),
        None => Ok(None),
    }
}

/// The report of a page, with its cursor where it is full.
pub fn page(alloc: Global, cells: &Cells, out: &mut Bytes) -> Result<(), NoMem> {
    let next = next_of(alloc, cells)?;
    put_made(alloc, List::new(alloc), End::Rows { count: 2, next }, out)
}

/// The opening of an empty store.
pub fn opening(alloc: Global, out: &mut Bytes) -> Result<(), NoMem> {
    let opened = Opened {
        defs: 0,
        bound: Bound {
            ops: 2,
            entries: 257,
        },
        used: Used { ops: 2, entries: 0 },
    };
    let mut printed = Bytes::new(alloc);
    print_opening(alloc, &opened, &mut printed)?;
    put_printed(alloc, printed.items(), out)
}

/// The line of a damaged key.
pub fn damage(alloc: Global, cells: &Cells, out: &mut Bytes) -> Result<(), NoMem> {
    let mut printed = Bytes::new(alloc);
    print_damage(alloc, cells.code.items(), &mut printed)?;
    put_printed(alloc, printed.items(), out)
}
