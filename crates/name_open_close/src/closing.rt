// A name closed: its record is cleared, and all its blocks are free again.
ghost use Rattle.protocol.specs.State.{closed};
ghost use Rattle.pool_holders.specs.Maps.{HolderFreed};
ghost use Rattle.name_open_close.specs.Updates.{CloseReady, Updated};

use geometry::Record;
use pool::write_record;
use pool_holders::holder_of;

// Closes a name.
pub fn close(pool: &mut [u8], name: usize, map: &mut [u8])
    requires { CloseReady pool.old map.old name }
    ensures { Updated name closed pool.old pool.new map.new }
{
    write_record(pool, name, Record::closed());
    free_holder(map, holder_of(name));
}

// Frees every block of a holder.
fn free_holder(map: &mut [u8], holder: u8)
    ensures { HolderFreed holder map.old map.new }
{
    for held_by in map.iter_mut() {
        if *held_by == holder {
            *held_by = 0;
        }
    }
}
