//! The bounds of the words of a run.

ghost use Rattle.std.specs.Prelude.{◌≡◌, IfOk, IfErr, Ok};
ghost use Rattle.wdf_design.specs.Realising.{RealisesEach};
ghost use Rattle.wdf_lattice.specs.Runners.{FitsEach};
ghost use Rattle.wdf_quant.specs.PortBound.{Encloses};
ghost use Rattle.wdf_stages.specs.Bounding.{AreBounded, BoundRefuses};
ghost use Rattle.wdf_stages.specs.BoundStages.{GivesRatios, GivesWords, HasElements};

use crate::{BoundStop, NetworkBounds, PlanBounds, element_name};
use std::alloc::Global;
use wdf_bounds::{BoundFault, Bounds, Plan, plan_check};
use wdf_lattice::Networks;
use wdf_law::{Net, Side};
use wdf_netlist::{Form, Netlist};
use wdf_quant::{RatioFault, Ratios, enclose};

// The limit of the numbers that bounds follow from.
const MAX_RATIO: u64 = 1 << 62;

// The numbers that the bounds of the network of a side follow from.
#[tactic(auto, using(crate::proofs::WalkElements::wide_named))]
fn ratios_of(alloc: Global, form: &Form, side: Side, net: &Net) -> Result<Ratios, BoundStop>
    requires { HasElements form.now side net.now }
    ensures { GivesRatios form.now side net.now result }
{
    net.rules();
    match enclose(alloc, net) {
        Ok(ratios) => Ok(ratios),
        Err(RatioFault::Wide { element, need }) => Err(BoundStop::Bound {
            side,
            element: element_name(form, side, element),
            ratio: true,
            need,
            limit: MAX_RATIO,
        }),
        Err(RatioFault::NoMemory) => Err(BoundStop::NoMemory),
    }
}

// The bounds of its words.
#[tactic(auto, using(crate::proofs::WalkElements::over_named))]
fn words_of(
    alloc: Global,
    form: &Form,
    side: Side,
    net: &Net,
    ratios: &Ratios,
    plan: &Plan,
) -> Result<Bounds, BoundStop>
    requires elements { HasElements form.now side net.now }
    requires ratios { Encloses net.now (Ok ratios.now) }
    requires width { plan.now.k ≡ net.now.k }
    ensures { GivesWords form.now side net.now plan.now result }
{
    net.rules();
    match plan_check(alloc, net, ratios, plan) {
        Ok(words) => Ok(words),
        Err(
            BoundFault::Word {
                element,
                need,
                limit,
            },
        ) => Err(BoundStop::Bound {
            side,
            element: element_name(form, side, element),
            ratio: false,
            need,
            limit,
        }),
        Err(BoundFault::NoMemory) => Err(BoundStop::NoMemory),
    }
}

/// The bounds of the words of a netlist's networks under a plan, which then fits each of them. The
/// networks are those of the netlist, of the plan's width.
///
/// # Errors
///
/// `Bound` with the first port at which a limit is exceeded, and the name of its element: first the
/// numbers that bounds follow from, then the bounds of words, of each branch A before branch B, and in
/// a network in the order of [`Ratios`](wdf_quant::Ratios). `NoMemory` where no memory is left.
pub fn bound_words(
    alloc: Global,
    netlist: &Netlist,
    networks: &Networks,
    plan: &Plan,
) -> Result<PlanBounds, BoundStop>
    requires { RealisesEach plan.now.k netlist.now.form networks.now }
    ensures bounded { IfOk result (AreBounded networks.now plan.now) }
    ensures fits { IfOk result (λ _. FitsEach networks.now plan.now) }
    ensures refused { IfErr result (BoundRefuses netlist.now.form networks.now plan.now) }
{
    let form = netlist.form();
    match networks {
        Networks::Ladder(net) => {
            let ratios = ratios_of(alloc, form, Side::Whole, net)?;
            let words = words_of(alloc, form, Side::Whole, net, &ratios, plan)?;
            Ok(PlanBounds::Ladder(NetworkBounds { ratios, words }))
        }
        Networks::Lattice { a, b } => {
            let first = ratios_of(alloc, form, Side::A, a)?;
            let second = ratios_of(alloc, form, Side::B, b)?;
            let first_words = words_of(alloc, form, Side::A, a, &first, plan)?;
            let second_words = words_of(alloc, form, Side::B, b, &second, plan)?;
            Ok(PlanBounds::Lattice {
                a: NetworkBounds {
                    ratios: first,
                    words: first_words,
                },
                b: NetworkBounds {
                    ratios: second,
                    words: second_words,
                },
            })
        }
    }
}
