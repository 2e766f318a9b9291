//! The certificates of a netlist's networks.

ghost use Rattle.std.specs.Prelude.{◌≡◌, ◌<◌, Some, IfOk, IfErr, length};
ghost use Rattle.wdf_law.specs.Network.{is_reactance};
ghost use Rattle.wdf_netlist.specs.Circuits.{numbers_where};
ghost use Rattle.wdf_certificates.specs.Certifying.{AreOfForm, IsCertified, CertifyRefuses};
ghost use Rattle.wdf_certificates.specs.CertStages.{GivesCert, HasReactances, IsStateOf};
ghost use Rattle.wdf_cert.specs.CertText.{file_text};

use crate::CertifyStop;
use std::alloc::{AllocError, Global};
use wdf_cert::{MakeFault, make, write};
use wdf_check::Cert;
use wdf_lattice::Networks;
use wdf_law::{Net, Side};
use wdf_netlist::{Circuit, Element, Form, Netlist};
use wdf_text::Name;

// The name of the element whose state has this number.
fn state_name(elements: &[Element], state: u32) -> Name
    requires { state < length (numbers_where is_reactance elements.now) }
    ensures { IsStateOf elements.now state result }
{
    let mut left = state;
    for element in elements {
        if element.kind.is_reactance() {
            if left == 0 {
                return element.name;
            }
            left -= 1;
        }
    }
    unreachable!()
}

// The certificate of the network of a side, whose circuit this is.
fn made(alloc: Global, side: Side, circuit: &Circuit, net: &Net) -> Result<Cert, CertifyStop>
    requires { HasReactances circuit.now net.now }
    ensures { GivesCert side circuit.now net.now result }
{
    match make(alloc, net) {
        Ok(cert) => {
            cert.inverse();
            Ok(cert)
        }
        Err(MakeFault::Unobservable { state, kernel }) => Err(CertifyStop::Unobservable {
            side,
            element: state_name(circuit.elements(), state),
            kernel,
        }),
        Err(MakeFault::NoMemory) => Err(CertifyStop::NoMemory),
    }
}

// The text of two certificates.
fn write_both(alloc: Global, first: &Cert, second: &Cert) -> Result<Vec<u8>, AllocError>
    ensures { IfOk result (λ text. text.items ≡ file_text first.now (Some second.now)) }
{
    let mut text = write(alloc, first)?;
    let rest = write(alloc, second)?;
    text.extend_from_slice(&rest)?;
    Ok(text)
}

/// The text of the certificates of a netlist's networks: that of a ladder, or those of a lattice's
/// branches, A's and then B's. The networks are those of the netlist.
///
/// # Errors
///
/// `Unobservable` exactly where a network has an obstruction, branch A before branch B, with the name
/// of the element whose state is the first that depends on those before it. `NoMemory` where no memory
/// is left.
pub fn certify(
    alloc: Global,
    netlist: &Netlist,
    networks: &Networks,
) -> Result<Vec<u8>, CertifyStop>
    requires { AreOfForm netlist.now.form networks.now }
    ensures certified { IfOk result (λ text. IsCertified networks.now text.items) }
    ensures refused { IfErr result (CertifyRefuses netlist.now.form networks.now) }
{
    match (netlist.form(), networks) {
        (Form::Ladder(circuit), Networks::Ladder(net)) => {
            let cert = made(alloc, Side::Whole, circuit, net)?;
            Ok(write(alloc, &cert)?)
        }
        (Form::Lattice { a, b }, Networks::Lattice { a: m, b: n }) => {
            let first = made(alloc, Side::A, a, m)?;
            let second = made(alloc, Side::B, b, n)?;
            Ok(write_both(alloc, &first, &second)?)
        }
        _ => unreachable!(),
    }
}
