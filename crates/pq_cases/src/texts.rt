//! Tokens and pieces of texts.
use crate::cells::Cells;
use crate::put::{put_number, put_text, put_word};
use pq_base::{Bytes, NoMem, PText};
use pq_text::{CutScript, Kind, Piece, Splitter, Token, cut_script, tokens};
use std::alloc::Global;

fn kind_word(kind: Kind) -> &'static str {
    match kind {
        Kind::Word => "word",
        Kind::Number => "number",
        Kind::Text => "text",
        Kind::Mark => "mark",
        Kind::Other => "other",
    }
}

fn put_token(alloc: Global, token: &Token, out: &mut Bytes) -> Result<(), NoMem> {
    put_word(alloc, kind_word(token.kind), out)?;
    put_number(alloc, token.from as i64, out)?;
    put_number(alloc, token.to as i64, out)
}

fn put_each(alloc: Global, tokens: &[Token], out: &mut Bytes) -> Result<(), NoMem> {
    for token in tokens {
        put_token(alloc, token, out)?;
    }
    Ok(())
}

fn put_tokens_of(alloc: Global, text: &PText, out: &mut Bytes) -> Result<(), NoMem> {
    if text.bytes().len() > 1_048_576 {
        return Ok(());
    }
    let found = tokens(alloc, text)?;
    put_each(alloc, found.items(), out)
}

/// The kind, the beginning and the end of each token of the text.
pub fn put_tokens(alloc: Global, cells: &Cells, out: &mut Bytes) -> Result<(), NoMem> {
    match PText::from_bytes(alloc, cells.text(0))? {
        Some(text) => put_tokens_of(alloc, &text, out),
        None => Ok(()),
    }
}

fn put_piece(alloc: Global, piece: &Piece, out: &mut Bytes) -> Result<(), NoMem> {
    match piece {
        Piece::Statement(text) => {
            put_word(alloc, "\"", out)?;
            put_text(alloc, text.bytes(), out)
        }
        Piece::NotUtf8 => put_word(alloc, "not_utf8", out),
        Piece::TooLong => put_word(alloc, "too_long", out),
    }
}

fn put_end(alloc: Global, unfinished: bool, out: &mut Bytes) -> Result<(), NoMem> {
    put_word(alloc, if unfinished { "unfinished" } else { "end" }, out)
}

fn put_pieces_of(alloc: Global, cut: &CutScript, out: &mut Bytes) -> Result<(), NoMem> {
    for piece in cut.pieces.items() {
        put_piece(alloc, piece, out)?;
    }
    put_end(alloc, cut.unfinished, out)
}

/// The pieces of the text.
pub fn put_pieces(alloc: Global, cells: &Cells, out: &mut Bytes) -> Result<(), NoMem> {
    let cut = cut_script(alloc, &[cells.text(0)])?;
    put_pieces_of(alloc, &cut, out)
}

fn put_kind(alloc: Global, piece: &Piece, out: &mut Bytes) -> Result<(), NoMem> {
    match piece {
        Piece::Statement(_) => put_word(alloc, "statement", out),
        Piece::NotUtf8 => put_word(alloc, "not_utf8", out),
        Piece::TooLong => put_word(alloc, "too_long", out),
    }
}

fn put_kinds_of(alloc: Global, cut: &CutScript, out: &mut Bytes) -> Result<(), NoMem> {
    for piece in cut.pieces.items() {
        put_kind(alloc, piece, out)?;
    }
    put_end(alloc, cut.unfinished, out)
}

/// The kinds of the pieces of a script in two parts.
pub fn put_kinds(alloc: Global, cells: &Cells, out: &mut Bytes) -> Result<(), NoMem> {
    let cut = cut_script(alloc, &[cells.text(0), cells.text(1)])?;
    put_kinds_of(alloc, &cut, out)
}

fn put_taken(
    alloc: Global,
    taken: i64,
    piece: &Option<Piece>,
    out: &mut Bytes,
) -> Result<(), NoMem> {
    put_number(alloc, taken, out)?;
    match piece {
        Some(piece) => put_piece(alloc, piece, out),
        None => put_word(alloc, "none", out),
    }
}

fn put_fed(
    alloc: Global,
    splitter: &mut Splitter,
    bytes: &[u8],
    out: &mut Bytes,
) -> Result<(), NoMem> {
    if bytes.is_empty() {
        return Ok(());
    }
    let (taken, piece) = splitter.feed(alloc, bytes)?;
    put_taken(alloc, taken as i64, &piece, out)?;
    put_number(alloc, splitter.held() as i64, out)
}

fn put_each_fed(
    alloc: Global,
    splitter: &mut Splitter,
    texts: &[Bytes],
    out: &mut Bytes,
) -> Result<(), NoMem> {
    for text in texts {
        put_fed(alloc, splitter, text.items(), out)?;
    }
    Ok(())
}

/// What each text gives in turn, fed to one splitter: the bytes that are taken, the piece, and how many bytes are held.
pub fn put_feed(alloc: Global, cells: &Cells, out: &mut Bytes) -> Result<(), NoMem> {
    let mut splitter = Splitter::new(alloc);
    put_each_fed(alloc, &mut splitter, cells.texts.items(), out)?;
    put_end(alloc, splitter.end(), out)
}
