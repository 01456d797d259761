// The map of the blocks' holders: a byte for each block of the pool, 0 where it is free, else the number that stands for its holder. It is
// no array of options, since `pool_check_archive` hands it to C.
// Pool, map and holder go from function to function side by side: a struct of two `&mut` slices and a number would have each contract say
// that the number and both slices' places stay, and hand the map to those that only read.
#![tactic(auto)]

ghost use Rattle.std.specs.Prelude.{◌≡◌, ◌≤◌, ◌<◌, length};
ghost use Rattle.geometry.specs.Limits.{names};
ghost use Rattle.pool_holders.specs.Maps.{holder_of, free_in, BlockTaken, GivenBack};

use sequence::find;

// The number that stands for a name.
pub fn holder_of(name: usize) -> u8
    requires { name < names }
    ensures { result ≡ holder_of name }
{
    name as u8 + 1
}

// Takes the first free block for a holder.
pub fn take_block(map: &mut [u8], holder: u8) -> usize
    requires { 1 ≤ free_in map.old }
    ensures { BlockTaken holder result map.old map.new }
{
    let block = find(map, 0, 1) - 1;
    map[block] = holder;
    block
}

// Makes a block free again.
pub fn give_back(map: &mut [u8], block: usize)
    requires { block < length map.old }
    ensures { GivenBack block map.old map.new }
{
    map[block] = 0;
}
