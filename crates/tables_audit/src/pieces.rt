//! The pieces of the bodies, and which of the rows are those of one body.
//!
//! The rows of pieces stand in any order. Those of a body are put in the order of their numbers.

ghost use Rattle.std.specs.Prelude.{◌≡◌, ◌↔◌, filter, map, IfOk, IsTrue};
ghost use Rattle.tables.specs.Pieces.{is_of};
ghost use Rattle.tables.specs.Rows.{rows_of};
ghost use Rattle.tables_read.specs.All.{tables_with};
ghost use Rattle.tables_meaning.specs.Kept.{piece_order, pieces_of};
ghost use Rattle.tables_meaning.specs.Reads.{sorted_by};
ghost use Rattle.tables_audit.specs.Bodies.{AreByBody};

use crate::keyed;
use std::alloc::{AllocError, Global};
use tables::rows::Piece;
use tables_meaning::piece_order;
use tables_read::AllRows;

/// Whether the pieces stand by body, in rising order of the bodies' numbers.
fn are_by_body(pieces: &[(u64, Piece)]) -> bool
    ensures { IsTrue result ↔ AreByBody pieces.now }
{
    keyed::are_in_order(pieces)
}

/// The pieces of a body. All pieces stand by body.
fn part_of(pieces: &[(u64, Piece)], id: u64) -> &[(u64, Piece)]
    requires { AreByBody pieces.now }
    ensures { filter (is_of id) (rows_of result.now) ≡ filter (is_of id) (rows_of pieces.now) }
{
    keyed::part_of(pieces, id)
}

/// Pieces in their order.
fn in_order<'a>(mut pieces: Vec<&'a Piece>) -> Result<Vec<&'a Piece>, AllocError>
    ensures { IfOk result (λ sorted. map (λ p. p.now) sorted.items ≡ sorted_by piece_order (map (λ p. p.now) pieces.entry.items)) }
{
    pieces.sort_by(|a, b| piece_order(a, b))?;
    Ok(pieces)
}

/// The pieces of a body among these rows, in the order of the rows.
fn pieces_among<'a>(
    alloc: Global,
    rows: &'a [(u64, Piece)],
    id: u64,
) -> Result<Vec<&'a Piece>, AllocError>
    ensures { IfOk result (λ pieces. map (λ p. p.now) pieces.items ≡ filter (is_of id) (rows_of rows.now)) }
{
    let mut pieces = Vec::new(alloc);
    for row in rows {
        if row.1.body == id {
            pieces.push(&row.1)?;
        }
    }
    Ok(pieces)
}

/// The pieces of these rows, and whether they stand by body, in rising order of the bodies' numbers.
#[derive(Clone, Copy)]
pub struct Pieces<'a> {
    pub all: &'a AllRows,
    is_by_body: bool,
    ghost by_body: { IsTrue is_by_body → AreByBody all.now.pieces.items },
}

impl<'a> Pieces<'a> {
    /// The pieces of these rows.
    pub fn new(all: &'a AllRows) -> Pieces<'a>
        ensures { result.all.now ≡ all.now }
    {
        let is_by_body = are_by_body(&all.pieces);
        Pieces { all, is_by_body }
    }

    /// Pieces among which all those of a body are. If the pieces stand by body there are no others among them.
    pub fn about(&self, id: u64) -> &[(u64, Piece)]
        ensures { filter (is_of id) (rows_of result.now) ≡ filter (is_of id) (rows_of self.now.all.now.pieces.items) }
    {
        if self.is_by_body {
            part_of(&self.all.pieces, id)
        } else {
            &self.all.pieces
        }
    }

    /// The pieces of a body, in their order.
    pub fn pieces_of(&self, alloc: Global, id: u64) -> Result<Vec<&Piece>, AllocError>
        ensures { IfOk result (λ pieces. map (λ p. p.now) pieces.items ≡ pieces_of (tables_with self.now.all.now) id) }
    {
        in_order(pieces_among(alloc, self.about(id), id)?)
    }
}
