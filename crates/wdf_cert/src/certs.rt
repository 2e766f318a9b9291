use wdf_check::Cert;

/// The certificates of a file: one for each network.
#[derive(Drop)]
pub struct Certs {
    /// The certificate of a ladder, or of branch A of a lattice.
    pub first: Cert,
    /// That of branch B.
    pub second: Option<Cert>,
}
