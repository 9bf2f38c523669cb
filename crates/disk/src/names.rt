// Names of files as bytes in a room.
ghost use Rattle.std.specs.Prelude.{◌≡◌, ◌≤◌, ◌-◌, length, map};
ghost use Rattle.says.specs.Counts.{IsPrefixLen};
ghost use Rattle.disk.specs.Names.{with_part, behind_part, beside_room, beside_size, ended_path, Ended, letter_of, with_end, six_marks};

use octets::{copy, room};

// As much of a part as there is room for is put at a place, and the place behind it is answered.
fn put(out: &mut [u8], at: usize, part: &[u8]) -> usize
    requires { at ≤ length out.old }
    ensures put { (result ≡ behind_part out.old at part.now) × (out.new ≡ with_part out.old at part.now) }
    ensures within { result ≤ length out.new }
{
    let left = out.len() - at;
    copy(out, at, part, 0, left);
    at + left.min(part.len())
}

// The name of a new file beside the one at path, in which letters are to stand in place of the last six bytes.
pub(crate) fn name_beside(name: &mut [u8], path: &[u8]) -> usize
    ensures named { (result ≡ beside_size name.old path.now) × (name.new ≡ beside_room name.old path.now) }
    ensures within { IsPrefixLen result name.new }
{
    let at = put(name, 0, path);
    put(name, at, b".new-XXXXXX")
}

// The last bytes of a name become these.
fn put_end(name: &mut [u8], end: &[u8])
    ensures { name.new ≡ with_end name.old end.now }
{
    let at = name.len().saturating_sub(end.len());
    put(name, at, end);
}

// A letter or a digit that a byte chooses.
fn letter_of(drawn: u8) -> u8
    ensures { result ≡ letter_of drawn }
{
    let letters = b"ABCDEFGHIJKLMNOPQRSTUVWXYZabcdefghijklmnopqrstuvwxyz0123456789";
    letters[drawn as usize % 62]
}

// The last six bytes of a name become letters and digits that these bytes choose.
pub(crate) fn put_letters(name: &mut [u8], drawn: [u8; 6])
    ensures { name.new ≡ with_end name.old (map letter_of drawn) }
{
    let letters = drawn.map(letter_of);
    put_end(name, &letters);
}

// The last six bytes of a name become the marks that letters stand in place of.
pub(crate) fn put_marks(name: &mut [u8])
    ensures { name.new ≡ with_end name.old six_marks }
{
    put_end(name, b"XXXXXX");
}

// A path as C takes it: at most 4,095 bytes of it, and zeros behind them.
pub(crate) fn ended(path: &[u8]) -> [u8; 4096]
    ensures bytes { result ≡ ended_path path.now }
    ensures ended { Ended result }
{
    let mut name = room::<4096>();
    put(&mut name, 0, path);
    name[4095] = 0;
    name
}
