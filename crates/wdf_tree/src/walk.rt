ghost use Rattle.std.specs.Prelude.{◌≡◌, ◌-◌, ◌^◌};
ghost use Rattle.wdf_law.specs.Solved.{solved};
ghost use Rattle.wdf_bounds.specs.HeldWords.{IsFrameLimited};
ghost use Rattle.wdf_tree.specs.Walks.{placed_frame};
ghost use Rattle.wdf_tree.specs.Places.{at_place};
ghost use Rattle.wdf_tree.specs.WaveTrees.{tree_of};

use crate::junction::root_down;
use crate::wave_tree::WaveTree;
use crate::width::Width;
use wdf_law::{Net, laws};

/// One frame: up both trees, over the root, and down both trees. `inputs` has the sources' values
/// and `downs` the down waves of the frame before, by the elements' numbers; `downs` gets those of
/// this frame.
pub(crate) fn walk(
    net: &Net,
    left: &mut WaveTree,
    right: &mut WaveTree,
    inputs: &[i64; 128],
    downs: &mut [i64; 128],
)
    requires left_tree { tree_of left.old ≡ net.now.left }
    requires right_tree { tree_of right.old ≡ net.now.right }
    requires words { IsFrameLimited (2 ^ (60 - net.now.k)) (solved net.now (at_place downs.old) (at_place inputs.now)) }
    ensures downs { downs.new ≡ placed_frame net.now (solved net.now (at_place downs.old) (at_place inputs.now)) downs.old }
    ensures left_same { tree_of left.new ≡ net.now.left }
    ensures right_same { tree_of right.new ≡ net.now.right }
{
    net.rules();
    laws::multipliers(net);
    laws::numbers(net);
    let w = Width::new(net.k());
    let m = net.root_m();
    let u1 = left.climb(w, downs, inputs);
    let u2 = right.climb(w, downs, inputs);
    left.descend(w, root_down(w, m, u1, u2, u1), downs);
    right.descend(w, root_down(w, m, u1, u2, u2), downs);
}
