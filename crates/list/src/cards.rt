// The lines of the cards that stand in decks. A card's lines are written whole or, where the room is too small, not at all.
ghost use Rattle.std.specs.Prelude.{◌≡◌, ◌+◌, ◌*◌, ◌≤◌, length};
ghost use Rattle.list.specs.Listing.{head_line, cell_lines, data_lines, first_line};
ghost use Rattle.octets.specs.Put.{splice};
ghost use Rattle.card.specs.Written.{WroteLine};

use crate::cells::put_cell;
use crate::parts::put;
use octets::put_byte;

// The first line of a data or trace card.
pub(crate) fn put_head(out: &mut [u8], title: &[u8], rest: &[u8], back: usize)
    requires title_len { length title.now ≡ 6 }
    requires back_behind { 8 ≤ back }
    requires card_in { back + 3 ≤ length rest.now }
    requires room_left { 32 ≤ length out.old }
    ensures { out.new ≡ splice 0 (head_line title.now rest.now back) out.old }
{
    put(out, 0, title, rest, 1, 4);
    put(out, 10, b"  at ", rest, 5, 3);
    put(out, 18, b"  problem ", rest, back, 3);
    put_byte(out, 31, b'\n');
}

// The lines of the first n words, behind the first line.
fn put_cells(out: &mut [u8], rest: &[u8], location: usize, n: usize)
    requires room_left { 32 + 44 * n ≤ length out.old }
    requires cells_in { location + n ≤ 1000 }
    ensures { out.new ≡ splice 32 (cell_lines rest.now location n) out.old }
{
    for i in 0..n {
        let w = card::word_of(rest, i);
        put_cell(out, 32 + 44 * i, location + i, w);
    }
}

// The lines of a data card. Each writer tests the room for itself and answers 0 where nothing is written, as `WroteLine` says: a put handed
// to one function as a closure would need its clause over the lent output said once more, which is no plainer.
pub(crate) fn write_data(out: &mut [u8], rest: &[u8], location: usize, n: usize) -> usize
    requires card_in { 11 + 11 * n ≤ length rest.now }
    requires cells_in { location + n ≤ 1000 }
    ensures { WroteLine (data_lines rest.now location n) out.old result out.new }
{
    let size = 32 + 44 * n;
    if out.len() < size {
        return 0;
    }
    put_head(out, b"card  ", rest, 8 + 11 * n);
    put_cells(out, rest, location, n);
    size
}

// The line of a first-order card.
fn put_first(out: &mut [u8], rest: &[u8])
    requires room_left { 32 ≤ length out.old }
    requires card_in { 7 ≤ length rest.now }
    ensures { out.new ≡ splice 0 (first_line rest.now) out.old }
{
    put(out, 0, b"first order ", rest, 1, 3);
    put(out, 15, b"     problem ", rest, 4, 3);
    put_byte(out, 31, b'\n');
}

pub(crate) fn write_first(out: &mut [u8], rest: &[u8]) -> usize
    requires { 7 ≤ length rest.now }
    ensures { WroteLine (first_line rest.now) out.old result out.new }
{
    if out.len() < 32 {
        return 0;
    }
    put_first(out, rest);
    32
}
