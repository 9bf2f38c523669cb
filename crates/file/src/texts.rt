// The text of cells read: 1,000 decimal numbers with gaps between them fill a drum, or nothing does.
ghost use Rattle.std.specs.Prelude.{is_some, unwrap_or, ◌≡◌, ◌+◌, ◌≤◌, length, set};
ghost use Rattle.rules.specs.Words.{pick};
ghost use Rattle.file.specs.Texts.{is_gap, numbers_in};
ghost use Rattle.file.specs.Reads.{Scanned, CellsRead};

use octets::with_digit;

// Whether a byte is in a gap: a space or one of the bytes of a line end.
fn is_gap(b: u8) -> bool
    ensures { result ≡ is_gap b }
{
    matches!(b, b' ' | b'\n' | b'\r')
}

// The number, if one was begun, goes to place n where there is such a place. It answers how many numbers there then are.
fn end_number(cells: &mut [u64], n: usize, number: Option<u64>) -> usize
    requires { n ≤ length cells.old }
    ensures { (result ≡ pick (is_some number) (n + 1) n) × (cells.new ≡ pick (is_some number) (set cells.old n (unwrap_or number 0)) cells.old) }
{
    let Some(x) = number else {
        return n;
    };
    if n == cells.len() {
        return n + 1;
    }
    cells[n] = x;
    n + 1
}

// The numbers of a text are put into cells, and it is answered whether they fill them: just so many and no fault. Else the cells may
// hold anything.
fn scan(cells: &mut [u64], text: &[u8]) -> bool
    ensures { Scanned (length cells.old) (numbers_in text.now) result cells.new }
{
    let mut n: usize = 0;
    let mut number = None;
    for &b in text {
        if is_gap(b) {
            n = end_number(cells, n, number);
            if cells.len() < n {
                return false;
            }
            number = None;
            continue;
        }
        let Ok(x) = with_digit(number.unwrap_or(0), b) else {
            return false;
        };
        number = Some(x);
    }
    n = end_number(cells, n, number);
    n == cells.len()
}

// A drum gets the numbers of as many cells.
fn put_cells(drum: &mut [u64], cells: &[u64])
    requires { length cells.now ≡ length drum.old }
    ensures { drum.new ≡ cells.now }
{
    drum.copy_from_slice(cells);
}

// A text of 1,000 numbers fills a drum of 1,000 cells, and it is answered whether it did. Else nothing is changed.
pub fn read_cells(drum: &mut [u64], text: &[u8]) -> bool
    ensures { CellsRead drum.old text.now result drum.new }
{
    if drum.len() != 1000 {
        return false;
    }
    let mut cells = [0u64; 1000];
    if !scan(&mut cells, text) {
        return false;
    }
    put_cells(drum, &cells);
    true
}
