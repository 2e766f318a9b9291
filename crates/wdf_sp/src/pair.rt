ghost use Rattle.std.specs.Prelude.{◌≡◌, ◌+◌, ◌<◌, length, drop, IfSome};
ghost use Rattle.wdf_sp.specs.Edges.{arc, arcs};
ghost use Rattle.wdf_sp.specs.Reduction.{arc_at, degree, first_pair, first_place, fit, hangs, inner_node, is_free, meet_at, next_merge};

use crate::Edge;
use crate::merge::Merge;
use wdf_law::Connection;

// How many edges touch the node.
#[tactic(auto, using(crate::proofs::EdgeLemmas::degree_arcs))]
fn degree(edges: &[Edge], node: u32) -> usize
    ensures { result ≡ degree (arcs edges.now) node }
{
    edges.iter().filter(|edge| edge.touches(node)).count()
}

// The node is neither p nor q, and so many edges touch it.
fn is_free(edges: &[Edge], p: u32, q: u32, count: usize, node: u32) -> bool
    ensures { result ≡ is_free p q (arcs edges.now) count node }
{
    node != p && node != q && degree(edges, node) == count
}

// The node is an end of this edge, and two edges alone touch it.
fn meets_at(edges: &[Edge], p: u32, q: u32, node: u32, edge: &Edge) -> bool
    ensures { result ≡ meet_at p q (arcs edges.now) node (arc edge.now) }
{
    edge.touches(node) && is_free(edges, p, q, 2, node)
}

// The rule for this connection may merge the two edges.
fn fit(edges: &[Edge], p: u32, q: u32, connection: Connection, first: &Edge, second: &Edge) -> bool
    ensures { result ≡ fit p q (arcs edges.now) connection (arc first.now) (arc second.now) }
{
    match connection {
        Connection::Parallel => first.has_ends_of(second),
        Connection::Series => {
            meets_at(edges, p, q, first.to, second) || meets_at(edges, p, q, first.from, second)
        }
    }
}

// The node where two edges in series meet.
pub(crate) fn inner_node(edges: &[Edge], p: u32, q: u32, first: &Edge, second: &Edge) -> u32
    ensures { result ≡ inner_node p q (arcs edges.now) (arc first.now) (arc second.now) }
{
    if meets_at(edges, p, q, first.to, second) {
        first.to
    } else {
        first.from
    }
}

// The least place above the first edge's whose edge fits it.
fn partner(edges: &[Edge], p: u32, q: u32, connection: Connection, first: usize) -> Option<usize>
    requires { first < length edges.now }
    ensures { result ≡ first_place (fit p q (arcs edges.now) connection (arc_at (arcs edges.now) first)) (first + 1) (drop (first + 1) (arcs edges.now)) }
{
    for second in first + 1..edges.len() {
        if fit(edges, p, q, connection, &edges[first], &edges[second]) {
            return Some(second);
        }
    }
    None
}

// The pair with the least first place, and then the least second place, that this rule may merge.
fn first_pair(edges: &[Edge], p: u32, q: u32, connection: Connection) -> Option<Merge>
    ensures { result ≡ first_pair connection (fit p q (arcs edges.now) connection) 0 (arcs edges.now) }
{
    for first in 0..edges.len() {
        if let Some(second) = partner(edges, p, q, connection, first) {
            return Some(Merge {
                connection,
                first,
                second,
            });
        }
    }
    None
}

// The next merge: in parallel where there is a pair, and else in series.
pub(crate) fn next_merge(edges: &[Edge], p: u32, q: u32) -> Option<Merge>
    ensures merge { result ≡ next_merge p q (arcs edges.now) }
    ensures order { IfSome result (λ m. m.first < m.second) }
    ensures within { IfSome result (λ m. m.second < length edges.now) }
{
    match first_pair(edges, p, q, Connection::Parallel) {
        Some(merge) => Some(merge),
        None => first_pair(edges, p, q, Connection::Series),
    }
}

// No other edge touches one of the edge's ends, and that end is neither p nor q.
pub(crate) fn hangs(edges: &[Edge], p: u32, q: u32, edge: &Edge) -> bool
    ensures { result ≡ hangs p q (arcs edges.now) (arc edge.now) }
{
    is_free(edges, p, q, 1, edge.from) || is_free(edges, p, q, 1, edge.to)
}
