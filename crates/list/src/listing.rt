// The lines of the card at the start of some bytes.
ghost use Rattle.list.specs.Listing.{lines_of, size_of};
ghost use Rattle.list.specs.Listed.{WroteLines, other_lines, other_size};

use crate::cards::{write_data, write_first};
use crate::kinds::{is_stop, is_trace};
use crate::stops::write_stop;
use crate::traces::write_trace;
use rules::Card;

// What was written of a card: how many bytes of lines, and how many bytes the card takes. No Option: `size_of` says 0 where there is no card.
#[derive(Clone, Copy, Debug, PartialEq, Eq)]
pub struct Lines {
    pub written: usize,
    pub taken: usize,
}

// The lines of a card that stands in no deck.
fn write_other(out: &mut [u8], rest: &[u8]) -> Lines
    ensures { WroteLines (other_lines rest.now) (other_size rest.now) out.old result out.new }
{
    if is_trace(rest) {
        let written = write_trace(out, rest);
        return Lines { written, taken: 77 };
    }
    if is_stop(rest) {
        let written = write_stop(out, rest);
        return Lines { written, taken: 24 };
    }
    Lines {
        written: 0,
        taken: 0,
    }
}

// The lines of the card at the start of the rest of a file, over the start of the output. Nothing is taken where there is no card, and
// nothing is written where there is no card or no room for all its lines.
pub fn write_lines(out: &mut [u8], rest: &[u8]) -> Lines
    ensures { WroteLines (lines_of rest.now) (size_of rest.now) out.old result out.new }
{
    match card::read_card(rest) {
        Card::Data {
            location,
            words,
            size,
            ..
        } => {
            let written = write_data(out, rest, location, words);
            Lines {
                written,
                taken: size,
            }
        }
        Card::First { .. } => {
            let written = write_first(out, rest);
            Lines { written, taken: 7 }
        }
        Card::Bad(..) => write_other(out, rest),
        Card::End => Lines {
            written: 0,
            taken: 0,
        },
    }
}
