// A name opened: a free block becomes its root, a leaf without marks.
ghost use Rattle.protocol.specs.State.{opened};
ghost use Rattle.shape.specs.Trees.{empty_t};
ghost use Rattle.name_open_close.specs.Updates.{OpenReady, Updated};

use geometry::Record;
use pool::write_record;
use pool_blocks::empty_block;
use pool_holders::{holder_of, take_block};

// Opens a name for marks of an alphabet, with the promise of q shares.
pub fn open(pool: &mut [u8], name: usize, alphabet: u8, q: usize, map: &mut [u8])
    requires { OpenReady pool.old map.old name alphabet q }
    ensures { Updated name (opened alphabet q empty_t) pool.old pool.new map.new }
{
    let root = take_block(map, holder_of(name));
    empty_block(pool, root);
    write_record(pool, name, Record::opened(alphabet, q as u16, root as u16));
}
