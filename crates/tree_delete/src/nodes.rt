// Two nodes of one level, leaves or branches: their entries joined in one, or shared out, half to each.
ghost use Rattle.std.specs.Prelude.{◌+◌, ◌≤◌, ◌<◌};
ghost use Rattle.shape.specs.Sizes.{one_to_a_byte, most};
ghost use Rattle.pool.specs.Blocks.{entries};
ghost use Rattle.tree_delete.specs.Mends.{TwoNodes, NodesJoined, NodesShared};

use pool_blocks::{join, share_out, unit_of};

// Puts the right node's entries behind the left one's.
pub fn join_nodes(pool: &mut [u8], level: usize, left: usize, right: usize)
    requires two { TwoNodes pool.old level left right }
    requires fit { entries pool.old left + entries pool.old right ≤ most one_to_a_byte level }
    ensures { NodesJoined level left right pool.old pool.new }
{
    join(pool, left, right, unit_of(level));
}

// Shares the entries of two nodes out, half to each.
pub fn share_nodes(pool: &mut [u8], level: usize, left: usize, right: usize)
    requires two { TwoNodes pool.old level left right }
    requires many { most one_to_a_byte level < entries pool.old left + entries pool.old right }
    ensures { NodesShared level left right pool.old pool.new }
{
    share_out(pool, left, right, unit_of(level));
}
