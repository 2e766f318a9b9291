//! The observability matrix.

ghost use Rattle.std.specs.Prelude.{◌≡◌, ◌++◌, ◌<◌, ℕ, length, map, IfOk, OnOk, OnErr};
ghost use Rattle.wdf_law.specs.Network.{elements, reactances, absorbing_numbers};
ghost use Rattle.wdf_residue.specs.Matrix.{column_entries};
ghost use Rattle.wdf_check.specs.Observability.{unit_state, observability};
ghost use Rattle.wdf_check.specs.Stepping.{residues_of, stepped, trajectory};

use crate::stepping::step;
use std::alloc::{AllocError, Global};
use wdf_law::{Net, laws};
use wdf_residue::Matrix;

// 1 at `k` among `count` numbers, 0 at the others.
fn unit_state(alloc: Global, count: usize, k: usize) -> Result<Vec<u64>, AllocError>
    requires { k < count }
    ensures { IfOk result (λ v. v.items ≡ residues_of count (unit_state k)) }
{
    let mut state = vec![in alloc; 0u64; count]?;
    state[k] = 1;
    Ok(state)
}

// A state for each reactance, which is 1 there.
fn unit_states(alloc: Global, net: &Net) -> Result<Matrix, AllocError>
    ensures columns { IfOk result (λ m. m.columns ≡ length (elements net.now)) }
    ensures rows { IfOk result (λ m. m.rows ≡ map (trajectory net.now 0) (reactances net.now)) }
{
    let count = net.element_count();
    let mut states = Matrix::new(alloc, count);
    for i in 0..count {
        if net.has_reactance(i as u32) {
            states.push(unit_state(alloc, count, i)?)?;
        }
    }
    Ok(states)
}

// Each state one residue step further.
fn all_stepped(alloc: Global, net: &Net, states: &Matrix) -> Result<Matrix, AllocError>
    requires { states.now.columns ≡ length (elements net.now) }
    ensures columns { IfOk result (λ m. m.columns ≡ states.now.columns) }
    ensures rows { IfOk result (λ m. m.rows ≡ map (stepped net.now) states.now.rows) }
{
    let mut all = Matrix::new(alloc, states.cols());
    for i in 0..states.rows() {
        all.push(step(alloc, net, states.row(i))?)?;
    }
    Ok(all)
}

// A row for each resistor and source: what it is sent in each of the states.
fn push_observed(
    alloc: Global,
    net: &Net,
    states: &Matrix,
    matrix: &mut Matrix,
) -> Result<(), AllocError>
    requires count { states.now.columns ≡ length (elements net.now) }
    requires width { matrix.old.columns ≡ length states.now.rows }
    ensures columns { matrix.new.columns ≡ matrix.old.columns }
    ensures rows { OnOk result (matrix.new.rows ≡ matrix.old.rows ++ map (column_entries states.now.rows) (absorbing_numbers net.now)) }
{
    for i in 0..net.element_count() {
        if net.has_absorbing(i as u32) {
            matrix.push(states.column(alloc, i)?)?;
        }
    }
    Ok(())
}

/// The observability matrix of a network modulo P: it has a column for each of the n states. Row
/// `t·c + j` holds what the resistor or source number j of the c of them, in netlist order, is sent
/// at step t of n without input, from each state that is 1 at one reactance and 0 at the others.
///
/// # Errors
///
/// Where no memory is left.
pub fn observe(alloc: Global, net: &Net) -> Result<Matrix, AllocError>
    ensures { IfOk result (λ m. m ≡ observability net.now) }
{
    laws::numbers(net);
    let count = net.state_count();
    let mut states = unit_states(alloc, net)?;
    let mut matrix = Matrix::new(alloc, count);
    for t in 0..count {
        states = all_stepped(alloc, net, &states)?;
        push_observed(alloc, net, &states, &mut matrix)?;
    }
    Ok(matrix)
}
