// The marked cells of a machine file, as lines on standard output.
use crate::machines::hold;
use crate::sessions::empty_drum;
use crate::telling::{send_cells, tell_bar};
use octets::room;
use rules::Bar;
use std::io::Print;
use std::rt::Files;

// The lines of the marked cells.
fn list_cells(rt: &impl Print, texts: &impl Print, drum: &[u64], marks: &[u8]) -> bool {
    let mut lines = room::<65536>();
    let n = list::write_cells(&mut lines, drum, marks);
    send_cells(rt, texts, &lines[..n], drum, marks)
}

// The marked cells of the machine file at path.
pub fn cells(rt: &(impl Files + Print), texts: &impl Print, path: &[u8]) {
    let mut drum = empty_drum();
    let mut marks = room::<1000>();
    if hold(rt, texts, &mut drum, &mut marks, path).is_none() {
        return;
    }
    if drum::is_fit(&drum, &marks) {
        list_cells(rt, texts, &drum, &marks);
    } else {
        tell_bar(rt, texts, Bar::BadDrum);
    }
}
