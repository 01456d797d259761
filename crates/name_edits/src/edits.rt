// An edit of a name: its tree is edited, and its record says the tree's new root and its number of marks.
ghost use Rattle.std.specs.Prelude.{◌≡◌};
ghost use Rattle.pool.specs.Names.{record_of};
ghost use Rattle.pool.specs.Records.{PutRecord};
ghost use Rattle.name_edits.specs.Edits.{InsertAt, DeleteAt, InsertedAt, DeletedAt};
ghost use Rattle.name_edits.specs.Trees.{Storable, with_tree};

use geometry::Record;
use pool::write_record;
use pool_holders::holder_of;
use tree_delete::delete_in_tree;
use tree_insert::insert_in_tree;
use tree_splits::Rooted;

// Puts c in at place i of a name, whose record was read. Blocks that its tree takes are entered in the map as the name's.
pub fn insert(pool: &mut [u8], name: usize, old: Record, i: usize, c: u8, map: &mut [u8])
    requires { InsertAt pool.old map.old name i c × (old ≡ record_of pool.old name) }
    ensures { InsertedAt name i c pool.old pool.new map.new }
{
    let tree = insert_in_tree(
        pool,
        old.height as usize,
        old.root as usize,
        i,
        c,
        map,
        holder_of(name),
    );
    put_tree(pool, name, old, tree, old.length + 1);
}

// Takes place i out of a name, whose record was read, and answers the mark that stood there. Blocks that leave its tree are free then.
pub fn delete(pool: &mut [u8], name: usize, old: Record, i: usize, map: &mut [u8]) -> u8
    requires { DeleteAt pool.old map.old name i × (old ≡ record_of pool.old name) }
    ensures { DeletedAt name i result pool.old pool.new map.new }
{
    let removed = delete_in_tree(pool, old.height as usize, old.root as usize, i, map);
    put_tree(pool, name, old, removed.tree, old.length - 1);
    removed.mark
}

// Writes a name's record with another tree: its root's level, its root block and its number of marks.
fn put_tree(pool: &mut [u8], name: usize, old: Record, tree: Rooted, marks: u16)
    requires { Storable pool.old name tree.level tree.root }
    ensures { PutRecord name (with_tree old tree.level tree.root marks) pool.old pool.new }
{
    let put = Record {
        height: tree.level as u8,
        root: tree.root as u16,
        length: marks,
        ..old
    };
    write_record(pool, name, put);
}
