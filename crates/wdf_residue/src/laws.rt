//! Laws of the arithmetic modulo P: each function is a law, whose contract is proved and whose body
//! is empty.
ghost use Rattle.std.specs.Prelude.{◌<◌};
ghost use Rattle.wdf_residue.specs.Laws.{HasInverse, IsOneElimination, SeesEach};
ghost use Rattle.wdf_residue.specs.Residue.{prime};

/// Every residue but 0 has an inverse, since P is prime.
pub fn inverse(a: u64)
    requires some { 0 < a }
    requires residue { a < prime }
    ensures { HasInverse a }
{}

/// Where a matrix times some rows is the identity, no numbers but multiples of P have the product 0
/// with every row. It does not need that P is prime.
pub fn left_inverse()
    ensures { SeesEach }
{}

/// A matrix of residues has one elimination: its first independent rows, the inverse of the matrix
/// that they make, or else the first column that depends on those before it, and how.
pub fn one_elimination()
    ensures { IsOneElimination }
{}
