//! Rows that were reached, and how.
ghost use Rattle.std.specs.Prelude.{◌≡◌, ◌<◌, ◌++◌, ◌∷◌, [], None, false, length, IfOk, OnOk};
ghost use Rattle.std.specs.List.{last_or, list_any};
ghost use Rattle.std.specs.Prelude.{slice_get, Some};
ghost use Rattle.ps_solve.specs.Reached.{places_of, rows_of};
ghost use Rattle.ps_solve.specs.Rows.{same_row};

use super::rows::Row;
use indexmap::IndexSet;
use ps_levels::Trail;
use std::alloc::{AllocError, Global};
use std::marker::Model;

/// Rows, each once, in the order in which they were reached. Contracts see each with the places of the ground actions that lead to it
/// from the first.
#[derive(Drop)]
pub struct Reached {
    rows: IndexSet<Row>,
    trail: Trail,
}

impl Model for Reached {
    ghost use Rattle.std.specs.Prelude.{◌≡◌, ℕ, List, length, suc};
    ghost use Rattle.std.specs.Coded.{coded_list, coded_ℕ, coded×};
    ghost use Rattle.std.specs.List.{zip};
    ghost use Rattle.ps_levels.specs.Paths.{paths};
    ghost use Rattle.ps_solve.specs.declared.rows.Row.{Row as RowView};
    ghost use Rattle.ps_solve.specs.contracts.rows.Row.{the_row};

    ghost Value = { List (RowView × List ℕ) };

    ghost coded = { coded_list (coded× the_row.coded (coded_list coded_ℕ)) };

    ghost view = { λ a. zip a.rows.keys (paths a.trail) };

    ghost invariant = { λ a. length a.rows.keys ≡ suc (length a.trail) };
}

impl Reached {
    /// This row alone.
    pub fn new(alloc: Global, first: Row) -> Result<Reached, AllocError>
        ensures { IfOk result (λ reached. reached ≡ (first, []) ∷ []) }
    {
        let mut rows = IndexSet::new(alloc);
        rows.insert(first)?;
        Ok(Reached {
            rows,
            trail: Trail::new(alloc),
        })
    }

    /// How many rows there are.
    pub fn len(&self) -> usize
        ensures { result ≡ length self.now }
    {
        self.rows.len()
    }

    /// The row at a place.
    pub fn row(&self, place: usize) -> &Row
        requires { place < length self.now }
        ensures { slice_get (rows_of self.now) place ≡ Some result.now }
    {
        match self.rows.get_index(place) {
            Some(row) => row,
            None => unreachable!(),
        }
    }

    /// Whether a row was reached.
    pub fn contains(&self, row: &Row) -> bool
        ensures { result ≡ list_any (same_row row.now) (rows_of self.now) }
    {
        self.rows.contains(row)
    }

    /// The place of the ground action that led to the row at a place. None at the first row, which none led to.
    pub fn last(&self, place: usize) -> Option<u32>
        requires { place < length self.now }
        ensures { result ≡ last_or None (places_of self.now place) }
    {
        self.trail.last(place)
    }

    /// The places of the ground actions that lead to the row at a place.
    pub fn path(&self, alloc: Global, place: usize) -> Result<Vec<u32>, AllocError>
        requires { place < length self.now }
        ensures { IfOk result (λ path. path.items ≡ places_of self.now place) }
    {
        self.trail.path(alloc, place)
    }

    /// Puts in a row that wasn't reached, to which the ground action at a place leads from an earlier row.
    pub fn push(&mut self, row: Row, from: u32, action: u32) -> Result<(), AllocError>
        requires new { list_any (same_row row) (rows_of self.old) ≡ false }
        requires from { from < length self.old }
        ensures { OnOk result (self.new ≡ self.old
            ++ (row, places_of self.old from ++ action ∷ []) ∷ []) }
    {
        self.trail.push(from, action)?;
        match self.rows.insert(row) {
            Ok(_) => Ok(()),
            Err(_) => {
                self.trail.pop();
                Err(AllocError)
            }
        }
    }
}
