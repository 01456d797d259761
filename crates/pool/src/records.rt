// The directory's records, read and written.
ghost use Rattle.std.specs.Prelude.{◌≡◌, ◌+◌, ◌≤◌, ◌<◌, length};
ghost use Rattle.geometry.specs.Layout.{spare_at};
ghost use Rattle.geometry.specs.Limits.{directory_size, names};
ghost use Rattle.pool.specs.Names.{record_of};
ghost use Rattle.pool.specs.Records.{PutFields, PutRecord};

use crate::bytes::{clear_bytes, put_byte, put_u16, u16_at};
use crate::places::record_at;
use geometry::Record;

// What the directory says of a name.
#[tactic(auto, unfolding(crate::specs::Names::record_of))]
pub fn read_record(pool: &[u8], name: usize) -> Record
    requires { (name < names) × (directory_size ≤ length pool.now) }
    ensures { result ≡ record_of pool.now name }
{
    let at = record_at(name);
    Record {
        kind: pool[at + Record::KIND_AT],
        alphabet: pool[at + Record::ALPHABET_AT],
        height: pool[at + Record::HEIGHT_AT],
        q: u16_at(pool, at + Record::Q_AT),
        root: u16_at(pool, at + Record::ROOT_AT),
        length: u16_at(pool, at + Record::LENGTH_AT),
    }
}

// Writes all bytes of a name's record.
#[tactic(auto, unfolding(crate::specs::Names::record_of))]
pub fn write_record(pool: &mut [u8], name: usize, put: Record)
    requires { (name < names) × (directory_size ≤ length pool.old) }
    ensures { PutRecord name put pool.old pool.new }
{
    let at = record_at(name);
    clear_bytes(pool, at, Record::RECORD_SIZE);
    put_fields(pool, at, put);
}

// The fields of the record at an address.
fn put_fields(pool: &mut [u8], at: usize, put: Record)
    requires { at + spare_at ≤ length pool.old }
    ensures { PutFields at put pool.old pool.new }
{
    put_byte(pool, at + Record::KIND_AT, put.kind);
    put_byte(pool, at + Record::ALPHABET_AT, put.alphabet);
    put_byte(pool, at + Record::HEIGHT_AT, put.height);
    put_u16(pool, at + Record::Q_AT, put.q);
    put_u16(pool, at + Record::ROOT_AT, put.root);
    put_u16(pool, at + Record::LENGTH_AT, put.length);
}
