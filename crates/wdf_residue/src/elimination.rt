ghost use Rattle.std.specs.Prelude.{◌≡◌, ◌≤◌, ◌^◌, ◌<◌, length, IfOk};
ghost use Rattle.wdf_residue.specs.Elimination.{Eliminates};

use crate::Matrix;
use crate::solver::Solver;
use std::alloc::{AllocError, Global};

/// What [`eliminate`] finds of a matrix of n columns.
#[derive(Drop)]
pub enum Elimination {
    /// The numbers of the first n rows that are independent, in rising order, and the inverse of the
    /// matrix that they make: n rows of n residues, one row behind the other.
    Inverse { rows: Vec<u32>, inverse: Vec<u64> },
    /// The first column that depends on the columns before it, and a vector of n residues whose
    /// product with every row is 0: it is 1 at that column and 0 behind it.
    Kernel { column: usize, vector: Vec<u64> },
}

/// The first rows that are independent, with their inverse, where there are as many of them as
/// columns; otherwise the first column that depends on those before it.
///
/// It is done by columns: each row that is taken clears its product with every other column. Rows
/// behind the last that is taken are not looked at. For want of memory it answers with `AllocError`.
pub fn eliminate(alloc: Global, matrix: &Matrix) -> Result<Elimination, AllocError>
    requires { length matrix.now.rows < 2 ^ 32 }
    ensures { IfOk result (Eliminates matrix.now) }
{
    matrix.rules();
    let mut solver = Solver::new(alloc, matrix.cols())?;
    solver.rules();
    for i in 0..matrix.rows() {
        solver = solver.advanced(alloc, matrix.row(i), i as u32)?;
        solver.rules();
    }
    match solver.first_open() {
        Some(column) => Ok(Elimination::Kernel {
            column,
            vector: solver.unseen_column(alloc, column)?,
        }),
        None => {
            let inverse = solver.written(alloc)?;
            Ok(Elimination::Inverse {
                rows: solver.into_taken(),
                inverse,
            })
        }
    }
}
