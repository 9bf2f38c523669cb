// The trace card of an order.
ghost use Rattle.std.specs.Prelude.{◌≡◌, ◌+◌, ◌≤◌, length};
ghost use Rattle.rules.specs.Drum.{view};
ghost use Rattle.rules.specs.Machine.{numbered};
ghost use Rattle.rules.specs.Running.{word_of_a, trace_words, trace_sent};
ghost use Rattle.machine.specs.Lent.{Sends};
ghost use Rattle.machine.specs.Stated.{machine_of};

use crate::desk::Desk;
use crate::sums::box_word;
use rules::State;

// What a trace card shows of A: its word, where neither O1 nor A is 0.
fn word_of_a(drum: &[u64], marks: &[u8], x: u64) -> u64
    ensures { result ≡ word_of_a (view drum.now marks.now) x }
{
    let key = words::parts_of(x).key;
    let a = key % 1000;
    if key < 1000 || a == 0 {
        return 0;
    }
    drum::word(drum, marks, a)
}

// The words of the trace card of the order w, done as x.
fn trace_words(drum: &[u64], marks: &[u8], desk: &Desk, w: u64, x: u64) -> [u64; 6]
    ensures { result ≡ trace_words (machine_of drum.now marks.now desk.now.state) w x }
{
    let y = box_word(desk);
    let of_a = word_of_a(drum, marks, x);
    let b = words::parts_of(x).b;
    let of_b = drum::word(drum, marks, b);
    let previous = drum::word(drum, marks, 0);
    [w, x, y, of_a, of_b, previous]
}

// The counter rises, and that card is written. No plainer in one function with the card of PCH: all that they share is the counter.
pub fn trace(drum: &[u64], marks: &[u8], out: &mut [u8], desk: &mut Desk, w: u64, x: u64)
    requires located { (1 ≤ desk.old.state.location) × (desk.old.state.location ≤ 999) }
    requires words_fit { (w ≤ 19999999999) × (x ≤ 19999999999) × (desk.old.written + 77 ≤ length out.old) }
    ensures { (desk.new.state ≡ numbered desk.old.state) × (desk.new.written ≡ desk.old.written + 77) × Sends drum.now marks.now
        out.old desk.old out.new desk.new (λ m. trace_sent m w x) }
{
    let at = desk.written;
    let words = trace_words(drum, marks, desk, w, x);
    desk.number_next();
    let State {
        location,
        counter,
        problem,
        ..
    } = desk.state;
    card::write_trace(&mut out[at..], counter, location, words, problem);
    desk.written = at + 77;
}
