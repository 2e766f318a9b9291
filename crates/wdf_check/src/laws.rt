//! What a certificate implies: each function is a law, whose contract is proved and whose body only
//! calls laws of the crates below.
ghost use Rattle.std.specs.Prelude.{ℕ, List};
ghost use Rattle.wdf_check.specs.Certificate.{Certificate, Certifies, Obstructs};
ghost use Rattle.wdf_check.specs.Laws.{HasOneCheck, HasResidues};
ghost use Rattle.wdf_check.specs.Returning.{NeverReturns};

use crate::Cert;
use wdf_law::Net;
pub use wdf_residue::laws::inverse;

/// Where any certificate certifies the network, be it at hand or not, no state within the words of its
/// plan returns without input but rest; to stay in a state is to return to it.
///
/// It does not need that P is prime.
pub fn no_return(net: &Net)
    ensures { (c : Certificate) → Certifies net.now c → NeverReturns net.now }
{
    net.rules();
    wdf_law::laws::numbers(net);
    wdf_law::laws::ports(net);
    wdf_law::laws::one_step(net);
    wdf_law::laws::energy(net);
    wdf_residue::laws::left_inverse();
}

/// Where a certificate certifies the network, there is no obstruction: no state but multiples of P
/// that no resistor and no source ever sees.
pub fn no_obstruction(net: &Net, cert: &Cert)
    requires { Certifies net.now cert.now }
    ensures { (v : List ℕ) → Obstructs net.now v → ⊥ }
{
    wdf_residue::laws::left_inverse();
}

/// Each entry of the observability matrix is a residue.
#[tactic(auto, using(crate::proofs::Residues::residues))]
pub fn residues()
    ensures { HasResidues }
{}

/// A network and a certificate have one answer of the check, want of memory aside: what [`check`]
/// answers is all that it could.
///
/// [`check`]: crate::check
#[tactic(auto, using(crate::proofs::OneCheck::one_check))]
pub fn one_check()
    ensures { HasOneCheck }
{}
