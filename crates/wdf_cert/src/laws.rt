//! Laws of certificates and their text: each function is a law, whose contract is proved and whose
//! body only calls laws of the crates below.
ghost use Rattle.wdf_cert.specs.Laws.{IsOneMaking, IsOneFile, IsAccepted, IsOneFault};

/// A network has one certificate of its first independent rows, or one first obstruction: what
/// [`make`](crate::make) answers is all that it could, want of memory aside.
pub fn one_making()
    ensures { IsOneMaking }
{
    wdf_check::laws::residues();
    wdf_residue::laws::one_elimination();
}

/// A file is the text of its certificates alone: so what `write` wrote is read as what was written,
/// and what `read` read writes the same bytes again.
pub fn round_trip()
    ensures one { IsOneFile }
    ensures accepted { IsAccepted }
{}

/// A text that is no file of certificates has one fault: what `read` answers of it is all that it
/// could.
pub fn one_fault()
    ensures { IsOneFault }
{}
