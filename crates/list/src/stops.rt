// The line of a stop card.
ghost use Rattle.std.specs.Prelude.{◌≡◌, ◌≤◌, length};
ghost use Rattle.list.specs.Listing.{stop_line};
ghost use Rattle.octets.specs.Put.{splice};
ghost use Rattle.card.specs.Written.{WroteLine};

use crate::parts::put;
use octets::put_byte;

fn put_stop(out: &mut [u8], rest: &[u8])
    requires room_left { 54 ≤ length out.old }
    requires card_in { 24 ≤ length rest.now }
    ensures { out.new ≡ splice 0 (stop_line rest.now) out.old }
{
    put(out, 0, b"stop  ", rest, 1, 2);
    put(out, 8, b"    at ", rest, 3, 4);
    put(out, 19, b"  orders ", rest, 7, 6);
    put(out, 34, b"  shows ", rest, 13, 11);
    put_byte(out, 53, b'\n');
}

pub(crate) fn write_stop(out: &mut [u8], rest: &[u8]) -> usize
    requires { 24 ≤ length rest.now }
    ensures { WroteLine (stop_line rest.now) out.old result out.new }
{
    if out.len() < 54 {
        return 0;
    }
    put_stop(out, rest);
    54
}
