// How many entries a block of a level may have.
ghost use Rattle.std.specs.Prelude.{◌≡◌};
ghost use Rattle.shape.specs.Sizes.{one_to_a_byte, least, most};

use geometry::Record;

// At least, where it is no root.
pub fn least_entries(level: usize) -> usize
    ensures { result ≡ least one_to_a_byte level }
{
    if level == 0 {
        Record::LEAST_LEAF
    } else {
        Record::LEAST_BRANCH
    }
}

// At most.
pub fn most_entries(level: usize) -> usize
    ensures { result ≡ most one_to_a_byte level }
{
    if level == 0 {
        Record::MOST_LEAF
    } else {
        Record::MOST_BRANCH
    }
}
