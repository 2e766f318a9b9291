ghost use Rattle.std.specs.Prelude.{◌≡◌, ◌<◌, ◌++◌, ◌∷◌, [], length, slice_index_or, IfOk, OnOk, OnErr};
ghost use Rattle.wdf_residue.specs.Residue.{prime, AreResidues};
ghost use Rattle.wdf_residue.specs.Matrix.{IsRow, AreRows, entry_at, column_entries};

use std::alloc::{AllocError, AllocFailed, Global};
use std::marker::Model;

/// A matrix of residues modulo P. Contracts see the number of its columns and the list of its rows.
#[derive(Drop)]
pub struct Matrix {
    cols: usize,
    rows: Vec<Vec<u64>>,
}

impl Model for Matrix {
    ghost use Rattle.wdf_residue.specs.Matrix.{Entries, AreRows, lists};

    ghost Value = { Entries };

    ghost view = { λ m. record { columns = m.cols; rows = lists m.rows.items } };

    ghost invariant = { λ m. AreRows m.cols (lists m.rows.items) };
}

impl Matrix {
    /// A matrix of `cols` columns that has no row yet.
    pub fn new(alloc: Global, cols: usize) -> Matrix
        ensures columns { result.columns ≡ cols }
        ensures rows { result.rows ≡ [] }
    {
        Matrix {
            cols,
            rows: Vec::new(alloc),
        }
    }

    /// A row more, behind the others. On want of memory the matrix is unchanged.
    pub fn push(&mut self, row: Vec<u64>) -> Result<(), AllocFailed<Vec<u64>>>
        requires { IsRow self.old.columns row.items }
        ensures columns { self.new.columns ≡ self.old.columns }
        ensures ok { OnOk result (self.new.rows ≡ self.old.rows ++ row.items ∷ []) }
        ensures err { OnErr result (self.new.rows ≡ self.old.rows) }
    {
        self.rows.push(row)
    }

    /// How many rows it has.
    pub fn rows(&self) -> usize
        ensures { result ≡ length self.now.rows }
    {
        self.rows.len()
    }

    /// How many columns it has.
    pub fn cols(&self) -> usize
        ensures { result ≡ self.now.columns }
    {
        self.cols
    }

    /// A row: as many residues as there are columns.
    pub fn row(&self, row: usize) -> &[u64]
        requires { row < length self.now.rows }
        ensures value { result.now ≡ slice_index_or self.now.rows row [] }
        ensures row { IsRow self.now.columns result.now }
    {
        self.rules();
        &self.rows[row]
    }

    /// The entry of a row in a column, a residue.
    pub fn at(&self, row: usize, col: usize) -> u64
        requires row { row < length self.now.rows }
        requires column { col < self.now.columns }
        ensures value { result ≡ entry_at self.now.rows row col }
        ensures residue { result < prime }
    {
        self.row(row)[col]
    }

    /// The entries of a column, one of each row, each a residue.
    pub fn column(&self, alloc: Global, col: usize) -> Result<Vec<u64>, AllocError>
        requires { col < self.now.columns }
        ensures value { IfOk result (λ v. v.items ≡ column_entries self.now.rows col) }
        ensures residues { IfOk result (λ v. AreResidues v.items) }
    {
        self.rules();
        let mut entries = Vec::with_capacity(alloc, self.rows())?;
        for row in 0..self.rows() {
            entries.push(self.at(row, col))?;
        }
        Ok(entries)
    }

    /// What every matrix keeps: each row has as many entries as there are columns, and each entry is
    /// a residue.
    pub fn rules(&self)
        ensures { AreRows self.now.columns self.now.rows }
    {
        let _ = &self.cols;
    }
}
