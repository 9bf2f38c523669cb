// The machine file written over the start of an output, whole or not at all.
ghost use Rattle.std.specs.Prelude.{◌≡◌, ◌++◌, ◌≤◌, length};
ghost use Rattle.file.specs.Files.{is_whole, row_bytes, file_of};
ghost use Rattle.rules.specs.Running.{over};
ghost use Rattle.card.specs.Written.{Wrote};

use crate::parts::put_row;
use octets::put_run;
use rules::State;

// The whole of a file: the cells, the marks, and the nine numbers of the state.
fn put_file(out: &mut [u8], drum: &[u64], marks: &[u8], numbers: &[u64; 9])
    requires drum_len { length drum.now ≡ 1000 }
    requires marks_len { length marks.now ≡ 1000 }
    requires room_left { 9072 ≤ length out.old }
    ensures { out.new ≡ over (row_bytes drum.now ++ marks.now ++ row_bytes numbers.now) out.old }
{
    put_row(out, 0, drum);
    put_run(out, 8000, marks);
    put_row(out, 9000, numbers);
}

// A machine file, and whether it was written.
pub fn write_file(out: &mut [u8], drum: &[u64], marks: &[u8], state: State) -> bool
    ensures { Wrote (is_whole drum.now marks.now) (file_of drum.now marks.now state)
        out.old result out.new }
{
    if drum.len() != 1000 {
        return false;
    }
    if marks.len() != 1000 {
        return false;
    }
    if out.len() < 9072 {
        return false;
    }
    put_file(out, drum, marks, &<[u64; 9]>::from(state));
    true
}
