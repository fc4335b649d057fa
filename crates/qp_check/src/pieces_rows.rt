//! Lists of pieces by their objects.

ghost use Rattle.std.specs.Prelude.{◌≡◌, ◌==◌, ◌++◌, ◌∷◌, [], ℕ, map, if◌then◌else◌, OnOk};
ghost use Rattle.std.specs.Option.{option_map};
ghost use Rattle.qp_model.specs.Pieces.{Point};
ghost use Rattle.qp_check_calls.specs.AsPiece.{as_piece};
ghost use Rattle.qp_check.specs.ObjectPieces.{is_it, listed, pieces_of_object};

use qp_check_calls::Piece;
use std::alloc::{AllocError, Global};
use std::collections::BTreeMap;
use std::marker::Model;

/// The pieces of an object. Contracts see the list.
#[derive(Drop)]
pub struct Pieces {
    pub items: Vec<Piece>,
}

impl Model for Pieces {
    ghost use Rattle.std.specs.Prelude.{List, map};
    ghost use Rattle.qp_model.specs.Pieces as pieces;
    ghost use Rattle.qp_check_calls.specs.AsPiece.{as_piece};

    ghost Value = { List pieces.Piece };

    ghost view = { λ b. map as_piece b.items.items };
}

impl Pieces {
    fn none(alloc: Global) -> Self
        ensures { result ≡ [] }
    {
        Pieces {
            items: Vec::new(alloc),
        }
    }

    fn put(&mut self, piece: Piece) -> Result<(), AllocError>
        ensures { OnOk result (self.new ≡ self.old ++ as_piece piece ∷ []) }
    {
        self.items.push(piece)?;
        Ok(())
    }
}

/// The pieces of each object, by its number.
#[derive(Drop)]
pub struct ObjectPieces {
    pub rows: BTreeMap<u8, Pieces>,
}

impl ObjectPieces {
    pub(crate) fn none(alloc: Global) -> Self
        ensures { (q : ℕ) → pieces_of_object result q ≡ [] }
    {
        ObjectPieces {
            rows: BTreeMap::new(alloc),
        }
    }

    fn put(&mut self, alloc: Global, p: u8, piece: Piece) -> Result<(), AllocError>
        ensures { OnOk result ((q : ℕ) → pieces_of_object self.new q ≡ (if q == p then pieces_of_object self.old q ++ as_piece piece ∷ [] else pieces_of_object
            self.old q)) }
    {
        match self.rows.get_mut(&p) {
            Some(row) => row.put(piece),
            None => {
                let mut row = Pieces::none(alloc);
                row.put(piece)?;
                self.rows.insert(p, row)?;
                Ok(())
            }
        }
    }

    /// Puts a piece at the end of those of an object, if there is one.
    pub(crate) fn put_piece(
        &mut self,
        alloc: Global,
        p: u8,
        piece: Option<Piece>,
    ) -> Result<(), AllocError>
        ensures { OnOk result ((q : ℕ) → pieces_of_object self.new q ≡ pieces_of_object self.old q ++
            (if q == p then listed (option_map as_piece piece) else [])) }
    {
        match piece {
            Some(piece) => self.put(alloc, p, piece),
            None => Ok(()),
        }
    }

    /// Puts a point at the end of the pieces of an object, if there is one.
    pub(crate) fn put_point(&mut self, alloc: Global, p: Option<u8>) -> Result<(), AllocError>
        ensures { OnOk result ((q : ℕ) → pieces_of_object self.new q ≡ pieces_of_object self.old q ++ (if is_it q p then Point ∷ [] else [])) }
    {
        match p {
            Some(p) => self.put(alloc, p, Piece::Point),
            None => Ok(()),
        }
    }

    /// The pieces of an object.
    pub fn of(&self, p: u8) -> &[Piece]
        ensures { map as_piece result.now ≡ pieces_of_object self.now p }
    {
        match self.rows.get(&p) {
            Some(row) => &row.items,
            None => &[],
        }
    }
}
