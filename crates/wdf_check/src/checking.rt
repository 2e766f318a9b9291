//! The check of a certificate.

ghost use Rattle.std.specs.Prelude.{◌≡◌, ℕ, ◌<◌, ◌≤◌, length, All, IfOk, MatchOption, slice_index_or};
ghost use Rattle.wdf_law.specs.Network.{multipliers};
ghost use Rattle.wdf_check.specs.Checking.{Checks, IsOfNetwork};

use crate::{Cert, CertFault, observe};
use std::alloc::{AllocError, Global};
use wdf_law::Net;
use wdf_residue::first_wrong;

/// The multipliers of a network, in units of `2^-k`, in the order of `Net::multiplier_at`.
///
/// # Errors
///
/// Where no memory is left.
pub fn multipliers(alloc: Global, net: &Net) -> Result<Vec<u32>, AllocError>
    ensures { IfOk result (λ v. v.items ≡ multipliers net.now) }
{
    let mut all = Vec::new(alloc);
    for i in 0..net.element_count() {
        match net.multiplier_at(i) {
            Some(m) => all.push(m)?,
            None => return Ok(all),
        }
    }
    Ok(all)
}

// The first place where two lists of one length differ.
fn first_other(ours: &[u32], theirs: &[u32]) -> Option<usize>
    requires { length ours.now ≡ length theirs.now }
    ensures { MatchOption result (ours.now ≡ theirs.now) (λ i. (i < length ours.now)
        × (slice_index_or ours.now i 0 ≡ slice_index_or theirs.now i 0 → ⊥)
        × ((j : ℕ) → j < i → slice_index_or ours.now j 0 ≡ slice_index_or theirs.now j 0)) }
{
    for (i, our) in ours.iter().enumerate() {
        if *our != theirs[i] {
            return Some(i);
        }
    }
    None
}

// The first number that is not below the limit.
fn first_outside(rows: &[u32], limit: usize) -> Option<usize>
    ensures { MatchOption result (All (λ (r : ℕ). r < limit) rows.now) (λ i. (i < length rows.now)
        × (limit ≤ slice_index_or rows.now i 0)
        × ((j : ℕ) → j < i → slice_index_or rows.now j 0 < limit)) }
{
    for (i, row) in rows.iter().enumerate() {
        if *row as usize >= limit {
            return Some(i);
        }
    }
    None
}

/// Whether the certificate certifies the network: it is of this network, it names as many rows of
/// its observability matrix as there are states, and its inverse times these rows is the identity.
///
/// # Errors
///
/// The first that holds, in the order of [`CertFault`], of another width, another number of
/// multipliers, another multiplier, another number of rows than states, a row that is none, and an
/// entry of the product that is not the identity's; or want of memory.
pub fn check(alloc: Global, net: &Net, cert: &Cert) -> Result<(), CertFault>
    ensures { Checks net.now cert.now result }
{
    if cert.k() != net.k() {
        return Err(CertFault::OtherNet {
            at: 0,
            ours: u32::from(net.k()),
            theirs: u32::from(cert.k()),
        });
    }
    let ours = multipliers(alloc, net)?;
    let theirs = cert.multipliers();
    if theirs.len() != ours.len() {
        return Err(CertFault::WrongSize {
            have: theirs.len(),
            want: ours.len(),
        });
    }
    if let Some(place) = first_other(&ours, theirs) {
        return Err(CertFault::OtherNet {
            at: place + 1,
            ours: ours[place],
            theirs: theirs[place],
        });
    }
    check_product(alloc, net, cert)
}

// The rest of the check, of a certificate of this network.
fn check_product(alloc: Global, net: &Net, cert: &Cert) -> Result<(), CertFault>
    requires { IsOfNetwork net.now cert.now }
    ensures { Checks net.now cert.now result }
{
    let want = net.state_count();
    let rows = cert.rows();
    if rows.len() != want {
        return Err(CertFault::WrongSize {
            have: rows.len(),
            want,
        });
    }
    let matrix = observe(alloc, net)?;
    if let Some(row) = first_outside(rows, matrix.rows()) {
        return Err(CertFault::BadRow { row });
    }
    match first_wrong(&matrix, rows, cert.inverse()) {
        Some(wrong) => Err(CertFault::WrongProduct {
            row: wrong.row,
            col: wrong.col,
            got: wrong.got,
        }),
        None => Ok(()),
    }
}
