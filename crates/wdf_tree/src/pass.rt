ghost use Rattle.std.specs.Prelude.{◌≡◌, ◌+◌};
ghost use Rattle.wdf_tree.specs.Passes.{CanPass, IsPass};
ghost use Rattle.wdf_tree.specs.WaveTrees.{tree_of};

use crate::numbers::feed;
use crate::walk::walk;
use crate::wave_tree::WaveTree;
use wdf_bounds::Plan;
use wdf_bounds::laws::every_word;
use wdf_law::{Net, laws};

/// The trees of a network, and by the elements' numbers the values of the sources and the down
/// waves of the last frame.
#[derive(Drop)]
pub(crate) struct Waves {
    pub(crate) left: WaveTree,
    pub(crate) right: WaveTree,
    pub(crate) inputs: [i64; 128],
    pub(crate) downs: [i64; 128],
}

/// One frame from its samples, one for each source, which is counted in `done`. `sources` are the
/// sources' numbers.
pub(crate) fn pass(
    net: &Net,
    plan: &Plan,
    sources: &[u32],
    samples: &[i64],
    waves: &mut Waves,
    done: &mut u32,
)
    requires { CanPass net.now plan.now done.old (tree_of waves.old.left) (tree_of waves.old.right) sources.now samples.now waves.old.downs }
    ensures pass { IsPass net.now plan.now done.old samples.now waves.old.downs waves.new.downs }
    ensures left_same { tree_of waves.new.left ≡ net.now.left }
    ensures right_same { tree_of waves.new.right ≡ net.now.right }
    ensures done { done.new ≡ done.old + 1 }
{
    net.rules();
    plan.rules();
    laws::numbers(net);
    laws::one_step(net);
    every_word(net, plan);
    feed(sources, samples, plan.guard(), &mut waves.inputs);
    walk(
        net,
        &mut waves.left,
        &mut waves.right,
        &waves.inputs,
        &mut waves.downs,
    );
    *done += 1;
}
