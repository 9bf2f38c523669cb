// The lines of a trace card.
ghost use Rattle.std.specs.Prelude.{◌≡◌, ◌≤◌, length};
ghost use Rattle.list.specs.Listing.{shown_lines, trace_lines};
ghost use Rattle.octets.specs.Put.{splice};
ghost use Rattle.card.specs.Written.{WroteLine};

use crate::cards::put_head;
use crate::cells::put_order;
use crate::parts::put;
use octets::put_byte;

// The lines behind the orders: the loop box, and three words.
fn put_shown(out: &mut [u8], rest: &[u8])
    requires room_left { 232 ≤ length out.old }
    requires card_in { 77 ≤ length rest.now }
    ensures { out.new ≡ splice 132 (shown_lines rest.now) out.old }
{
    put(out, 132, b"  loop box   ", rest, 32, 3);
    put(out, 148, b" ", rest, 35, 3);
    put(out, 152, b" ", rest, 38, 3);
    put(out, 156, b"\n  A's word   ", rest, 41, 11);
    put(out, 181, b"\n  B's word   ", rest, 52, 11);
    put(out, 206, b"\n  cell 000   ", rest, 63, 11);
    put_byte(out, 231, b'\n');
}

// All of them.
fn put_trace(out: &mut [u8], rest: &[u8])
    requires room_left { 232 ≤ length out.old }
    requires card_in { 77 ≤ length rest.now }
    ensures { out.new ≡ splice 0 (trace_lines rest.now) out.old }
{
    let stored = card::word_of(rest, 0);
    let done = card::word_of(rest, 1);
    put_head(out, b"trace ", rest, 74);
    put_order(out, 32, b"  as stored  ", stored);
    put_order(out, 82, b"  as done    ", done);
    put_shown(out, rest);
}

pub(crate) fn write_trace(out: &mut [u8], rest: &[u8]) -> usize
    requires { 77 ≤ length rest.now }
    ensures { WroteLine (trace_lines rest.now) out.old result out.new }
{
    if out.len() < 232 {
        return 0;
    }
    put_trace(out, rest);
    232
}
