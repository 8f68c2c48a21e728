// What is asked of all readers at once. There are at most eight.

ghost use Rattle.std.specs.Prelude.{◌≡◌, ◌≤◌, length};
ghost use Rattle.nk_pipe.specs.Pipe.{greatest, has_open};
ghost use Rattle.nk_pipe.specs.Laid.{all_seen, all_reaching, open_count};

use crate::reader::Reader;
use nk_segments::Place;

/// The greatest position of an open reader.
pub(crate) fn furthest(readers: &[Reader]) -> u64
    ensures { result ≡ greatest (all_seen readers.now) }
{
    let mut most = 0;
    for reader in readers {
        if reader.closed.is_none() {
            most = most.max(reader.position);
        }
    }
    most
}

/// Whether a reader is open.
pub(crate) fn any_open(readers: &[Reader]) -> bool
    ensures { result ≡ has_open (all_seen readers.now) }
{
    for reader in readers {
        if reader.closed.is_none() {
            return true;
        }
    }
    false
}

/// The number of open readers.
pub(crate) fn count_open(readers: &[Reader]) -> u32
    requires { length readers.now ≤ 8 }
    ensures { result ≡ open_count (all_seen readers.now) }
{
    let mut count = 0;
    for reader in readers {
        if reader.closed.is_none() {
            count += 1;
        }
    }
    count
}

/// A segment was added behind the last one.
pub(crate) fn all_reach(readers: &mut [Reader], place: Place)
    ensures { readers.new ≡ all_reaching place readers.old }
{
    for reader in readers.iter_mut() {
        reader.cursor = reader.cursor.reaching(place);
    }
}
