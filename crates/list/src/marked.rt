// The marked cells of a drum, a line for each.
ghost use Rattle.std.specs.Prelude.{◌≡◌, ◌+◌, ◌≤◌, length};
ghost use Rattle.rules.specs.Drum.{view, cell_at};
ghost use Rattle.octets.specs.Put.{splice};
ghost use Rattle.card.specs.Written.{WroteLine};
ghost use Rattle.list.specs.Marked.{line_of, marked_lines};

use crate::cells::put_cell;
use rules::Cell;

// How long the line of a cell is: 0 where the cell is unmarked, or there is no such address or word.
fn size_of(address: usize, cell: Cell) -> usize
    ensures { result ≡ length (line_of address cell) }
{
    let Some(w) = cell else {
        return 0;
    };
    if 999 < address {
        return 0;
    }
    if 19_999_999_999 < w {
        return 0;
    }
    44
}

// The line of the cell at an address, at a place of the output. It answers how many bytes that is.
fn put_marked(out: &mut [u8], at: usize, drum: &[u64], marks: &[u8], address: usize) -> usize
    requires { at + length (line_of address (cell_at (view drum.now marks.now) address)) ≤ length out.old }
    ensures size { result ≡ length (line_of address (cell_at (view drum.now marks.now) address)) }
    ensures written { out.new ≡ splice at (line_of address (cell_at (view drum.now marks.now) address)) out.old }
{
    let n = size_of(address, drum::cell(drum, marks, address));
    if n == 0 {
        return 0;
    }
    put_cell(out, at, address, drum::word(drum, marks, address));
    n
}

// How long the lines of all marked cells are.
fn size_of_all(drum: &[u64], marks: &[u8]) -> usize
    ensures { result ≡ length (marked_lines (view drum.now marks.now)) }
{
    let mut n: usize = 0;
    for a in 0..1000 {
        n += size_of(a, drum::cell(drum, marks, a));
    }
    n
}

// The lines of all marked cells, over the start of the output.
fn put_all(out: &mut [u8], drum: &[u64], marks: &[u8])
    requires { length (marked_lines (view drum.now marks.now)) ≤ length out.old }
    ensures { out.new ≡ splice 0 (marked_lines (view drum.now marks.now)) out.old }
{
    let mut at: usize = 0;
    for address in 0..1000 {
        at += put_marked(out, at, drum, marks, address);
    }
}

// The lines of all marked cells of a drum, over the start of the output. It answers how many bytes it wrote: none where there is no room
// for all of them.
pub fn write_cells(out: &mut [u8], drum: &[u64], marks: &[u8]) -> usize
    ensures { WroteLine (marked_lines (view drum.now marks.now)) out.old result out.new }
{
    let n = size_of_all(drum, marks);
    if out.len() < n {
        return 0;
    }
    put_all(out, drum, marks);
    n
}
