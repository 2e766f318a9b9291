//! Certificates of the shelf's files.

ghost use Rattle.std.specs.Prelude.{◌≡◌, ◌≤◌, IfOk, IfErr, IsErrOf};
ghost use Rattle.wdf_io.specs.Causes.{Rose};
ghost use Rattle.wdf_cert.specs.CertText.{AreSquare};
ghost use Rattle.wdf_certificates.specs.CertLoading.{LoadsCerts, LoadRefuses};

use crate::LoadStop;
use std::alloc::Global;
use wdf_cert::{Certs, read};
use wdf_io::Shelf;
use wdf_stages::load_file;

// What the type of each certificate keeps.
fn squared(certs: &Certs)
    ensures { AreSquare certs.now.first certs.now.second }
{
    certs.first.inverse();
    if let Some(second) = &certs.second {
        second.inverse();
    }
}

/// The certificates of the file of this name, which stands in this word.
///
/// # Errors
///
/// Those of [`load_file`], and `CertText` exactly where the file is none of certificates, at the first
/// token that is not the expected one.
pub fn load_certs<H: Shelf>(
    alloc: Global,
    shelf: &mut H,
    word: usize,
    name: &str,
) -> Result<Certs, LoadStop>
    ensures loads { IfOk result (LoadsCerts (H.files shelf.old) name.now) }
    ensures refused { IfErr result (LoadRefuses (H.files shelf.old) word name.now) }
    ensures same { H.files shelf.new ≡ H.files shelf.old }
    ensures later { H.faults shelf.old ≤ H.faults shelf.new }
    ensures load_fault { IsErrOf result LoadStop.LoadFault → Rose (H.faults shelf.old) (H.faults shelf.new) }
{
    let text = load_file(alloc, shelf, word, name)?;
    let certs = read(alloc, &text)?;
    squared(&certs);
    Ok(certs)
}
