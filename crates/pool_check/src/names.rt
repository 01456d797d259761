// The names in turn: a closed one has zeros, an open one a record and a tree.
ghost use Rattle.std.specs.Prelude.{◌≡◌, ◌≤◌, ◌<◌, length};
ghost use Rattle.geometry.specs.Limits.{directory_size, names};
ghost use Rattle.pool.specs.Names.{record_of, blocks_of};
ghost use Rattle.pool.specs.Shares.{promised_shares};
ghost use Rattle.pool.specs.Sound.{OpenName, OpenRecord};
ghost use Rattle.pool.specs.Trees.{blocks_at};
ghost use Rattle.pool_holders.specs.Maps.{holder_of};
ghost use Rattle.pool_check.specs.Walks.{Walked, WalkedNames};
ghost use Rattle.pool_check.specs.Parts.{SoundName};
ghost use Rattle.pool_check.specs.Says.{Says};

use crate::block::least_of_root;
use crate::directory::all_zero;
use crate::lent::{Lent, Tree};
use geometry::Record;
use pool::{read_record, record_at, word};
use pool_entries::Block;
use pool_holders::holder_of;

impl Lent<'_> {
    // Whether the record of an open name is in order, its tree aside.
    fn record_sound(&self, name: usize, found: Record) -> bool
        requires { (name < names) × (found ≡ record_of self.now.bytes.now name) }
        ensures { Says result (OpenRecord self.now.bytes.now name) }
    {
        let alphabet = usize::from(found.alphabet);
        let q = usize::from(found.q);
        let at = record_at(name);
        let spare = at + Record::SPARE_AT;
        found.kind == Record::KIND_MARKS
            && (Record::LEAST_ALPHABET..=Record::MOST_ALPHABET).contains(&alphabet)
            && q >= 1
            && usize::from(found.height) <= Record::MOST_HEIGHT
            && usize::from(found.length) <= Record::MARKS_PER_SHARE * q
            && self.bytes[at + Record::ZERO_AT] == 0
            && all_zero(self.bytes, spare, Record::RECORD_SIZE - Record::SPARE_AT)
    }

    // Whether an open name is sound and holds no block that was met before. Its height is tested before the walk.
    fn check_open(&self, name: usize, found: Record, map: &mut [u8; Record::MOST_SHARES]) -> bool
        requires { (name < names) × (found ≡ record_of self.now.bytes.now name) }
        ensures { Walked result (OpenName self.now.bytes.now name) (holder_of name)
            (blocks_at self.now.bytes.now found.height found.root) map.old map.new }
    {
        if !self.record_sound(name, found) {
            return false;
        }
        let tree = Tree {
            pool: *self,
            alphabet: found.alphabet,
            holder: holder_of(name),
        };
        let height = usize::from(found.height);
        let root = usize::from(found.root);
        tree.check_block(height, root, least_of_root(height), map)
            && tree.root_fits(height, root)
            && Block {
                pool: self.bytes,
                b: root,
            }
            .own_marks(height)
                == usize::from(found.length)
    }

    // Whether a name is sound and holds no block that was met before.
    fn check_name(&self, name: usize, map: &mut [u8; Record::MOST_SHARES]) -> bool
        requires { name < names }
        ensures { Walked result (SoundName self.now.bytes.now name) (holder_of name)
            (blocks_of self.now.bytes.now name) map.old map.new }
    {
        let found = read_record(self.bytes, name);
        if found.kind == Record::KIND_CLOSED {
            all_zero(self.bytes, record_at(name), Record::RECORD_SIZE)
        } else {
            self.check_open(name, found, map)
        }
    }

    // Whether all names are sound and no block is met twice.
    pub fn check_names(&self, map: &mut [u8; Record::MOST_SHARES]) -> bool
        ensures { WalkedNames result (SoundName self.now.bytes.now) self.now.bytes.now names map.old map.new }
    {
        for name in 0..Record::NAMES {
            if !self.check_name(name, map) {
                return false;
            }
        }
        true
    }
}

// The shares promised to all names together.
pub fn promised(pool: &[u8]) -> usize
    requires { directory_size ≤ length pool.now }
    ensures { result ≡ promised_shares pool.now }
{
    let mut sum = 0;
    for name in 0..Record::NAMES {
        sum += word(pool, record_at(name) + Record::Q_AT);
    }
    sum
}
