// What a machine file is made of: a number as eight bytes with the lowest first, and numbers in a row. Each is written at a place of the
// output, and read from a place of the file.
ghost use Rattle.std.specs.Prelude.{◌≡◌, ◌+◌, ◌*◌, ◌≤◌, length, take, drop};
ghost use Rattle.file.specs.Files.{low_bytes, row_bytes, number_of, row_in};
ghost use Rattle.octets.specs.Put.{splice};

// A number at place a.
fn put_number(out: &mut [u8], a: usize, x: u64)
    requires { a + 8 ≤ length out.old }
    ensures { out.new ≡ splice a (low_bytes 8 x) out.old }
{
    let mut left = x;
    for i in 0..8 {
        out[a + i] = (left % 256) as u8;
        left = left / 256;
    }
}

// Numbers from place a on.
pub(crate) fn put_row(out: &mut [u8], a: usize, row: &[u64])
    requires { a + 8 * length row.now ≤ length out.old }
    ensures { out.new ≡ splice a (row_bytes row.now) out.old }
{
    for i in 0..row.len() {
        put_number(out, a + 8 * i, row[i]);
    }
}

// The number at place a.
fn number_at(bytes: &[u8], a: usize) -> u64
    requires { a + 8 ≤ length bytes.now }
    ensures { result ≡ number_of (take 8 (drop a bytes.now)) }
{
    let mut x: u64 = 0;
    for i in (0..8).rev() {
        x = u64::from(bytes[a + i]) + 256 * x;
    }
    x
}

// A row is filled with the numbers from place a on.
pub(crate) fn fill_row(row: &mut [u64], bytes: &[u8], a: usize)
    requires { a + 8 * length row.old ≤ length bytes.now }
    ensures { row.new ≡ row_in (length row.old) (drop a bytes.now) }
{
    for i in 0..row.len() {
        row[i] = number_at(bytes, a + 8 * i);
    }
}
