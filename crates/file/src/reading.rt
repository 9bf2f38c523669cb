// The machine file read: all of it, or nothing.
ghost use Rattle.std.specs.Prelude.{◌≡◌, length, ◌≤◌};
ghost use Rattle.file.specs.Files.{state_of};
ghost use Rattle.file.specs.Reads.{FileRead};

use crate::parts::fill_row;
use octets::copy;
use rules::State;

// The state at the end of a file.
fn state_at(bytes: &[u8]) -> State
    requires { 9072 ≤ length bytes.now }
    ensures { result ≡ state_of bytes.now }
{
    let mut row = [0u64; 9];
    fill_row(&mut row, bytes, 9000);
    State::from(row)
}

// A machine file: its cells and marks over those of the drum, and its state. Where the bytes are no file, or the drum and the marks not
// 1,000 long, nothing is changed.
pub fn read_file(drum: &mut [u64], marks: &mut [u8], bytes: &[u8]) -> Option<State>
    ensures { FileRead drum.old marks.old bytes.now result drum.new marks.new }
{
    if drum.len() != 1000 {
        return None;
    }
    if marks.len() != 1000 {
        return None;
    }
    if bytes.len() != 9072 {
        return None;
    }
    fill_row(drum, bytes, 0);
    copy(marks, 0, bytes, 8000, 1000);
    Some(state_at(bytes))
}
