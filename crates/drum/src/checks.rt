// The checks 20 and 21, by the operand class of the order. That operands are numbers, 24, arithmetic finds out itself.
ghost use Rattle.std.specs.Prelude.{◌≡◌, leb};
ghost use Rattle.rules.specs.Codes.{owned_at, block_fits, block_lies, unless, and_then, address_check, mark_check};
ghost use Rattle.rules.specs.Drum.{view};
ghost use Rattle.rules.specs.declared.Refusal.TheVariants.{BadAddress, Unmarked};
ghost use Rattle.rules.specs.declared.Class.TheVariants.{BlockOut, BlockMoved};

use rules::{Checked, Class, Refusal};

// What a test finds: that it passes, or why the order is refused.
fn unless(passes: bool, r: Refusal) -> Checked
    ensures { result ≡ unless passes r }
{
    if passes { Ok(()) } else { Err(r) }
}

// 21 for one cell.
fn check_word(drum: &[u64], marks: &[u8], a: usize) -> Checked
    ensures { result ≡ unless (owned_at (view drum.now marks.now) a) Unmarked }
{
    unless(crate::is_owned(drum, marks, a), Refusal::Unmarked)
}

// 20 and 21 for one cell, which an order changes or compares an address of: it is not 000.
fn check_cell(drum: &[u64], marks: &[u8], a: usize) -> Checked
    ensures { result ≡ and_then (unless (leb 1 a) BadAddress) (unless (owned_at (view drum.now marks.now) a) Unmarked) }
{
    unless(1 <= a, Refusal::BadAddress)?;
    check_word(drum, marks, a)
}

// Whether B is not 000 nor above C.
fn block_fits(b: usize, c: usize) -> bool
    ensures { result ≡ block_fits b c }
{
    1 <= b && b <= c
}

// 20, and 21 for the cells b to c.
fn check_block(drum: &[u64], marks: &[u8], a: usize, b: usize, c: usize) -> Checked
    ensures { result ≡ and_then (address_check BlockOut a b c) (mark_check BlockOut (view drum.now marks.now) a b c) }
{
    unless(block_fits(b, c), Refusal::BadAddress)?;
    let n = c - b + 1;
    unless(crate::all_owned(drum, marks, b, n), Refusal::Unmarked)
}

// Whether the n cells from b on begin behind 000 and end at 999 at the latest.
fn block_lies(b: usize, n: usize) -> bool
    ensures { result ≡ block_lies b n }
{
    1 <= b && b <= 1000 && n <= 1000 - b
}

// 20 for the a cells from b on and those from c on, and 21 for the former.
fn check_move(drum: &[u64], marks: &[u8], a: usize, b: usize, c: usize) -> Checked
    ensures { result ≡ and_then (address_check BlockMoved a b c) (mark_check BlockMoved (view drum.now marks.now) a b c) }
{
    unless(block_lies(b, a) && block_lies(c, a), Refusal::BadAddress)?;
    unless(crate::all_owned(drum, marks, b, a), Refusal::Unmarked)
}

// The checks 20 and 21 of a class. It is a match, since each class asks about other addresses.
pub fn check(drum: &[u64], marks: &[u8], k: Class, a: usize, b: usize, c: usize) -> Checked
    ensures { result ≡ and_then (address_check k a b c) (mark_check k (view drum.now marks.now) a b c) }
{
    match k {
        Class::Free => Ok(()),
        Class::TwoNumbers => {
            check_word(drum, marks, a)?;
            check_word(drum, marks, b)
        }
        Class::OneNumber | Class::OneWord => check_word(drum, marks, b),
        Class::Changed => check_cell(drum, marks, b),
        Class::Linked => check_cell(drum, marks, c),
        Class::BlockOut => check_block(drum, marks, a, b, c),
        Class::BlockIn => unless(block_fits(b, c), Refusal::BadAddress),
        Class::BlockMoved => check_move(drum, marks, a, b, c),
        Class::Compared => check_cell(drum, marks, a),
    }
}
