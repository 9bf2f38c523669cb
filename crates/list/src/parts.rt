// What lines are made of: a text with bytes behind it that stand elsewhere, at a place of the output. All else is left as it is.
// No write!: each part stands at a fixed place of a lent output, where a formatter that appends would be no plainer.
ghost use Rattle.std.specs.Prelude.{◌≡◌, ◌++◌, ◌+◌, ◌≤◌, length, take, drop};
ghost use Rattle.octets.specs.Put.{splice};

use octets::{copy, put_run};

// A text at place a, and n bytes of another run behind it.
pub(crate) fn put(out: &mut [u8], a: usize, text: &[u8], from: &[u8], b: usize, n: usize)
    requires room_left { a + length text.now + n ≤ length out.old }
    requires part_in { b + n ≤ length from.now }
    ensures { out.new ≡ splice a (text.now ++ take n (drop b from.now)) out.old }
{
    let t = text.len();
    put_run(out, a, text);
    copy(out, a + t, from, b, n);
}
