//! The tokens that are left.
ghost use Rattle.std.specs.Prelude.{◌≡◌, ◌+◌, ◌<◌, ◌≤◌, ◌^◌, [], drop, length};
ghost use Rattle.pq_grammar.specs.Reader.{begins, rest_at};
ghost use Rattle.pq_grammar.specs.Answers.{Gives};
ghost use Rattle.pq_text.specs.Tokens.{text_limit, tokens_from, tokens_of};
ghost use Rattle.pq_shape.specs.Cursors.{IsWithin, shapes_left, tokens_behind};
ghost use Rattle.pq_shape.specs.Front.{is_word_shape, is_mark_shape, is_name_shape, is_soft_shape, is_between, word_at, soft_at, constant_shape_at, mark_at, name_at, number_at, text_at, value_shape_at, between_at};
ghost use Rattle.pq_shape.specs.Shapes.{shapes_of};

use crate::behind::Behind;
use crate::between::Between;
use crate::keyword::{AND, JOIN};
use crate::mark::COMMA;
use crate::next::Next;
use crate::soft::Soft;
use pq_base::{PText, Value};
use pq_grammar::ReadError;
use pq_text::{Token, next_token};
use std::alloc::Global;
use std::marker::Model;

/// The tokens that are left, seen as what they stand for. Each is found, and seen as what it stands for, where the
/// cursor comes to it.
#[derive(Drop)]
pub struct Cursor<'a> {
    text: &'a [u8],
    next: Option<Next<'a>>,
    behind: Behind<'a>,
}

impl<'a> Model for Cursor<'a> {
    ghost use Rattle.std.specs.Prelude.{List};
    ghost use Rattle.pq_shape.specs.Cursors.{IsWithin, shapes_left};
    ghost use Rattle.pq_shape.specs.Shape.{Shape};

    ghost Value = { List Shape };

    ghost view = { λ s. shapes_left s.text.now s.next s.behind };

    ghost invariant = { λ s. IsWithin s.text.now s.behind };
}

/// The first of these tokens, and those behind it.
#[inline(always)]
fn following<'a>(text: &'a [u8], tokens: Behind<'a>) -> (Option<Next<'a>>, Behind<'a>)
    requires { IsWithin text.now tokens }
    ensures shapes { shapes_left text.now result.0 result.1 ≡ shapes_of text.now (tokens_behind text.now tokens.entry) }
    ensures within { IsWithin text.now result.1 }
{
    match tokens {
        Behind::Text(at) => match next_token(text, at) {
            Some(token) => (
                Some(Next::new(text, token)),
                Behind::Text(token.to as usize),
            ),
            None => (None, tokens),
        },
        Behind::Tokens(listed) => match listed {
            [token, rest @ ..] => (Some(Next::new(text, *token)), Behind::Tokens(rest)),
            [] => (None, tokens),
        },
    }
}

/// How many tokens a text has from a place on.
fn text_count(text: &[u8], from: usize) -> usize
    requires limit { length text.now ≤ text_limit }
    requires within { from ≤ length text.now }
    ensures count { result ≡ length (tokens_from 0 from (drop from text.now)) }
    ensures within { result ≤ text_limit }
{
    let mut at = from;
    let mut count = 0;
    'tokens: while let Some(token) = next_token(text, at) {
        at = token.to as usize;
        count += 1;
    }
    count
}

/// How many tokens these are.
fn count(text: &[u8], tokens: Behind) -> usize
    requires { IsWithin text.now tokens }
    ensures count { result ≡ length (tokens_behind text.now tokens.entry) }
    ensures within { result + 1 < 2 ^ 64 }
{
    match tokens {
        Behind::Text(from) => text_count(text, from),
        Behind::Tokens(listed) => listed.len(),
    }
}

impl<'a> Cursor<'a> {
    /// Before all tokens of a text.
    pub fn new(text: &'a [u8]) -> Cursor<'a>
        requires { length text.now ≤ text_limit }
        ensures { result ≡ shapes_of text.now (tokens_of text.now) }
    {
        let (next, behind) = following(text, Behind::Text(0));
        Cursor { text, next, behind }
    }

    /// Before these tokens of a text.
    pub fn over(text: &'a [u8], tokens: &'a [Token]) -> Cursor<'a>
        ensures { result ≡ shapes_of text.now tokens.now }
    {
        match tokens {
            [token, rest @ ..] => Cursor {
                text,
                next: Some(Next::new(text, *token)),
                behind: Behind::Tokens(rest),
            },
            [] => Cursor {
                text,
                next: None,
                behind: Behind::Tokens(&[]),
            },
        }
    }

    /// How many tokens are left. It goes over them.
    pub fn left(&self) -> usize
        ensures { result ≡ length self.now }
    {
        match self.next {
            Some(_) => count(self.text, self.behind) + 1,
            None => 0,
        }
    }

    /// Goes over the next token, if there is one.
    #[inline(always)]
    fn pass(&mut self)
        ensures { self.new ≡ drop 1 self.old }
    {
        if self.next.is_some() {
            let (next, behind) = following(self.text, self.behind);
            self.next = next;
            self.behind = behind;
        }
    }

    /// Whether the next token is this keyword.
    pub fn is_word(&self, place: u8) -> bool
        ensures { result ≡ begins (is_word_shape place) self.now }
    {
        match &self.next {
            Some(next) => next.is_word(place),
            None => false,
        }
    }

    /// Whether the next token is this mark.
    pub fn is_mark(&self, mark: u16) -> bool
        ensures { result ≡ begins (is_mark_shape mark) self.now }
    {
        match &self.next {
            Some(next) => next.is_mark(mark),
            None => false,
        }
    }

    /// Whether the next token is a name.
    pub fn is_name(&self) -> bool
        ensures { result ≡ begins is_name_shape self.now }
    {
        match &self.next {
            Some(next) => next.is_name(),
            None => false,
        }
    }

    /// Whether the next token is this soft word.
    pub fn is_soft(&self, soft: Soft) -> bool
        ensures { result ≡ begins (is_soft_shape soft) self.now }
    {
        match &self.next {
            Some(next) => next.is_soft(soft),
            None => false,
        }
    }

    /// Whether the next token stands between the parts of such a list.
    pub fn is_between(&self, between: Between) -> bool
        ensures { result ≡ begins (is_between between) self.now }
    {
        match between {
            Between::Comma => self.is_mark(COMMA),
            Between::And => self.is_word(AND),
            Between::CommaOrJoin => self.is_mark(COMMA) || self.is_word(JOIN),
        }
    }

    /// Reads this keyword.
    #[tactic(auto, using(crate::proofs::Passing::test_passes, crate::proofs::Passing::test_stops))]
    pub fn word(&mut self, place: u8) -> Result<(), ReadError>
        ensures { Gives (λ x. (x, self.new)) result (word_at place self.old) }
    {
        if !self.is_word(place) {
            return Err(ReadError::Stuck(self.left()));
        }
        self.pass();
        Ok(())
    }

    /// Reads this soft word.
    #[tactic(auto, using(crate::proofs::Passing::test_passes, crate::proofs::Passing::test_stops))]
    pub fn soft(&mut self, soft: Soft) -> Result<(), ReadError>
        ensures { Gives (λ x. (x, self.new)) result (soft_at soft self.old) }
    {
        if !self.is_soft(soft) {
            return Err(ReadError::Stuck(self.left()));
        }
        self.pass();
        Ok(())
    }

    /// Reads this mark.
    #[tactic(auto, using(crate::proofs::Passing::test_passes, crate::proofs::Passing::test_stops))]
    pub fn mark(&mut self, mark: u16) -> Result<(), ReadError>
        ensures { Gives (λ x. (x, self.new)) result (mark_at mark self.old) }
    {
        if !self.is_mark(mark) {
            return Err(ReadError::Stuck(self.left()));
        }
        self.pass();
        Ok(())
    }

    /// Reads a name.
    pub fn name(&mut self, alloc: Global) -> Result<PText, ReadError>
        ensures { Gives (λ x. (x, self.new)) result (name_at self.old) }
    {
        let Some(next) = &self.next else {
            return Err(ReadError::Stuck(0));
        };
        match next.name(alloc)? {
            Some(name) => {
                self.pass();
                Ok(name)
            }
            None => Err(ReadError::Stuck(self.left())),
        }
    }

    /// Reads a number.
    pub fn number(&mut self) -> Result<i64, ReadError>
        ensures { Gives (λ x. (x, self.new)) result (number_at self.old) }
    {
        let Some(next) = &self.next else {
            return Err(ReadError::Stuck(0));
        };
        match next.number() {
            Some(number) => {
                self.pass();
                Ok(number)
            }
            None => Err(ReadError::Stuck(self.left())),
        }
    }

    /// Reads a text.
    pub fn text(&mut self, alloc: Global) -> Result<PText, ReadError>
        ensures { Gives (λ x. (x, self.new)) result (text_at self.old) }
    {
        let Some(next) = &self.next else {
            return Err(ReadError::Stuck(0));
        };
        match next.text(alloc)? {
            Some(text) => {
                self.pass();
                Ok(text)
            }
            None => Err(ReadError::Stuck(self.left())),
        }
    }

    /// Reads a constant.
    pub fn constant(&mut self, alloc: Global) -> Result<Value, ReadError>
        ensures { Gives (λ x. (x, self.new)) result (constant_shape_at self.old) }
    {
        let Some(next) = &self.next else {
            return Err(ReadError::Stuck(0));
        };
        match next.constant(alloc)? {
            Some(value) => {
                self.pass();
                Ok(value)
            }
            None => Err(ReadError::Stuck(self.left())),
        }
    }

    /// Reads a value: a constant, or NULL.
    #[tactic(auto, using(crate::proofs::Tokens::value_chosen))]
    pub fn value(&mut self, alloc: Global) -> Result<Value, ReadError>
        ensures { Gives (λ x. (x, self.new)) result (value_shape_at self.old) }
    {
        if self.is_soft(Soft::Null) {
            self.soft(Soft::Null)?;
            return Ok(Value::Null);
        }
        self.constant(alloc)
    }

    /// Reads what stands between the parts of such a list.
    #[tactic(auto, using(crate::proofs::Passing::test_passes, crate::proofs::Passing::test_stops))]
    pub fn between(&mut self, between: Between) -> Result<(), ReadError>
        ensures { Gives (λ x. (x, self.new)) result (between_at between self.old) }
    {
        if !self.is_between(between) {
            return Err(ReadError::Stuck(self.left()));
        }
        self.pass();
        Ok(())
    }

    /// Passes over whatever is left.
    pub fn pass_rest(&mut self)
        ensures { self.new ≡ [] }
    {
        self.next = None;
    }
}
