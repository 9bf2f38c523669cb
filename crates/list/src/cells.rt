// The line of one word: its address, the word, and how it reads as an order.
ghost use Rattle.std.specs.Prelude.{◌≡◌, ◌++◌, ◌+◌, ◌≤◌, length};
ghost use Rattle.rules.specs.Bytes.{bytes};
ghost use Rattle.rules.specs.Cards.{digits};
ghost use Rattle.octets.specs.Put.{splice};
ghost use Rattle.card.specs.Written.{WroteLine};
ghost use Rattle.list.specs.Listing.{name_of, a_text, order_line, cell_line, cell_shown};

use octets::{put_byte, put_field, put_run, put_word};

// Two blanks at place a, and the name of a word's code behind them.
fn put_name(out: &mut [u8], a: usize, w: u64)
    requires { a + 12 ≤ length out.old }
    ensures { out.new ≡ splice a (bytes "  " ++ name_of w) out.old }
{
    let code = codes::code_of(w);
    let name = codes::name_of(code);
    put_run(out, a, b"  ");
    put_run(out, a + 2, &name);
}

// Two blanks at place a, and the A-address of a word behind them: three blanks more where O1 is 0.
fn put_a(out: &mut [u8], a: usize, w: u64)
    requires { a + 5 ≤ length out.old }
    ensures { out.new ≡ splice a (bytes "  " ++ a_text w) out.old }
{
    let x = w % 10_000_000_000;
    if x / 1_000_000_000 == 0 {
        put_run(out, a, b"     ");
        return;
    }
    put_run(out, a, b"  ");
    put_field(out, a + 2, 3, x / 1_000_000 % 1000);
}

// A blank at place a, and an address behind it.
fn put_address(out: &mut [u8], a: usize, address: u64)
    requires { a + 4 ≤ length out.old }
    ensures { out.new ≡ splice a (bytes " " ++ digits 3 address) out.old }
{
    put_byte(out, a, b' ');
    put_field(out, a + 1, 3, address);
}

// A label at place a, and behind it a word with its name and addresses.
pub(crate) fn put_order(out: &mut [u8], a: usize, label: &[u8], w: u64)
    requires { a + length label.now + 37 ≤ length out.old }
    ensures { out.new ≡ splice a (order_line label.now w) out.old }
{
    let p = a + label.len();
    let x = w % 10_000_000_000;
    put_run(out, a, label);
    put_word(out, p, w);
    put_name(out, p + 11, w);
    put_a(out, p + 23, w);
    put_address(out, p + 28, x / 1000 % 1000);
    put_address(out, p + 32, x % 1000);
    put_byte(out, p + 36, b'\n');
}

// The line of one cell, at place a.
pub(crate) fn put_cell(out: &mut [u8], a: usize, address: usize, w: u64)
    requires { a + 44 ≤ length out.old }
    ensures { out.new ≡ splice a (cell_line address w) out.old }
{
    put_run(out, a, b"  ");
    put_field(out, a + 2, 3, address as u64);
    put_order(out, a + 5, b"  ", w);
}

// The line of one cell, over the start of the output. It answers how many bytes it wrote: none where there is no such cell or word, or
// no room.
pub fn write_cell(out: &mut [u8], address: usize, word: u64) -> usize
    ensures { WroteLine (cell_shown address word) out.old result out.new }
{
    if 999 < address {
        return 0;
    }
    if 19_999_999_999 < word {
        return 0;
    }
    if out.len() < 44 {
        return 0;
    }
    put_cell(out, 0, address, word);
    44
}
