use wdf_check::CertFault;
use wdf_law::Side;

/// Why certificates do not certify the networks.
#[derive(Clone, Copy, Debug, PartialEq, Eq)]
pub enum CheckStop {
    /// The certificate of this side's network is refused, or, at the side `Whole`, there are more or
    /// fewer certificates than networks. The fault is not `NoMemory`.
    CertWrong { side: Side, fault: CertFault },
    /// There was no memory.
    NoMemory,
}
