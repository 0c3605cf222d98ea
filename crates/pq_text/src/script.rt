//! Cutting a script whose parts are at hand.
ghost use Rattle.std.specs.Prelude.{◌≡◌, ◌++◌, List as Items, ℕ, drop, length, ◌≤◌, IfOk, OnOk};
ghost use Rattle.pq_text.specs.Pieces.{piece_list, pieces_of, rest_of, is_unfinished};
ghost use Rattle.pq_text.specs.Parts.{joined_parts};
ghost use Rattle.pq_text.specs.Summaries.{pieces_from, unfinished_from};

use crate::piece::Piece;
use crate::splitter::Splitter;
use pq_base::{List, NoMem};
use std::alloc::Global;

/// A script that is cut.
#[derive(Drop)]
pub struct CutScript {
    /// The pieces that aren't blank, in order.
    pub pieces: List<Piece>,
    /// Whether the rest behind the last cut has a byte outside comments that isn't white.
    pub unfinished: bool,
}

fn put(alloc: Global, pieces: &mut List<Piece>, piece: Option<Piece>) -> Result<(), NoMem>
    ensures { OnOk result (pieces.new ≡ pieces.old ++ piece_list piece) }
{
    if let Some(piece) = piece {
        pieces.push(alloc, piece)?;
    }
    Ok(())
}

fn behind(part: &[u8], taken: usize) -> &[u8]
    requires { taken ≤ length part.now }
    ensures { result.now ≡ drop taken part.now }
{
    &part[taken..]
}

/// Feeds a whole part, and puts the pieces that end in it behind the others.
fn feed_part(
    alloc: Global,
    splitter: &mut Splitter,
    part: &[u8],
    pieces: &mut List<Piece>,
) -> Result<(), NoMem>
    ensures pieces { OnOk result ((more : Items ℕ)
        → pieces.new ++ pieces_from splitter.new more
        ≡ pieces.old ++ pieces_from splitter.old (part.now ++ more)) }
    ensures rest { OnOk result ((more : Items ℕ)
        → unfinished_from splitter.new more ≡ unfinished_from splitter.old (part.now ++ more)) }
{
    let mut taken = 0;
    'part: while taken < part.len() {
        let (count, piece) = splitter.feed(alloc, behind(part, taken))?;
        put(alloc, pieces, piece)?;
        taken += count;
    }
    Ok(())
}

/// The pieces of a script that comes in these parts. Where it is parted makes no difference.
pub fn cut_script(alloc: Global, parts: &[&[u8]]) -> Result<CutScript, NoMem>
    ensures pieces { IfOk result (λ cut. cut.pieces ≡ pieces_of (joined_parts parts.now)) }
    ensures unfinished { IfOk result (λ cut. cut.unfinished ≡ is_unfinished (rest_of (joined_parts parts.now))) }
{
    let mut splitter = Splitter::new(alloc);
    let mut pieces = List::new(alloc);
    for part in parts {
        feed_part(alloc, &mut splitter, part, &mut pieces)?;
    }
    Ok(CutScript {
        pieces,
        unfinished: splitter.end(),
    })
}
