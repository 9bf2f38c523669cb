// The closing of a call, as bytes: the Z card of a run, or the line of a call that was refused. A call of make closes with its deck, or with
// such a line.
ghost use Rattle.std.specs.Prelude.{◌≡◌, true};
ghost use Rattle.says.specs.Counts.{IsPrefixLen};
ghost use Rattle.rules.specs.Cards.{refusal_line};
ghost use Rattle.rules.specs.Sheet.{closing, make_line};
ghost use Rattle.says.specs.Told.{may_close, Closed};

use rules::{Ending, Making, State};
use stops::Told;

// The line of a call that was refused: its number, a space and its place, over the start of the output. It answers how many bytes that is.
fn write_refused(out: &mut [u8], number: u64, place: u64) -> usize
    ensures closed { Closed true (refusal_line number place) out.old result out.new }
    ensures within { IsPrefixLen result out.new }
{
    card::write_line(out, number, place as usize)
}

// The Z card of a run, or the line of one that was refused at its entry, over the start of the output. It answers how many bytes that is.
pub fn write_closing(out: &mut [u8], ending: Ending, state: State, count: u64) -> usize
    ensures closed { Closed (may_close ending state count) (closing ending state count) out.old result out.new }
    ensures within { IsPrefixLen result out.new }
{
    match ending {
        Err(bar) => {
            let told = Told::from(bar);
            write_refused(out, told.number, told.place)
        }
        Ok(outcome) => {
            let told = Told::from(outcome);
            if card::write_stop(out, told.number, state.location, count, told.shown) {
                24
            } else {
                0
            }
        }
    }
}

// What is told of a call of make that left this output: the deck, which stands there, or the line of a refused call, over the start of the
// output. It answers how many bytes that is.
pub fn write_making(out: &mut [u8], making: Making) -> usize
    ensures closed { Closed true (make_line making out.old) out.old result out.new }
    ensures within { IsPrefixLen result out.new }
{
    match making {
        Ok(n) => n.min(out.len()),
        Err(_) => write_refused(out, Told::from(making).number, 0),
    }
}
