// The cards of a file as lines that people read, part after part.
ghost use Rattle.std.specs.Prelude.{◌≡◌, ◌-◌, ◌≤◌, length, drop, IfSome};
ghost use Rattle.std.proofs.Math.Seq.{paste};
ghost use Rattle.list.specs.Listing.{last_line};
ghost use Rattle.shows.specs.Parts.{may_be_cut, listed_upto};

use crate::{send, send_first};
use disk::fill;
use list::{Seen, is_second, last_line, none_seen, with_kind};
use std::io::{Print, Read};
use std::rt::Files;

// How far a part of a file is listed: how many bytes its cards take, and what was seen up to there.
#[derive(Clone, Copy, Debug, PartialEq, Eq)]
pub struct Passed {
    pub taken: usize,
    pub seen: Seen,
}

// Whether so many bytes may be a card cut short.
fn may_be_cut(left: usize, last: bool) -> bool
    ensures { result ≡ may_be_cut left last }
{
    !last && left < 77
}

// The lines of the cards at the start of a part, behind those that were seen; nothing where they could not be sent. Where it is not the last
// of its file, a card that it may have cut short is left. It goes by the sizes of cards, so it is no `for`.
fn list_cards(
    rt: &impl Print,
    texts: &impl Print,
    lines: &mut [u8],
    part: &[u8],
    last: bool,
    before: Seen,
) -> Option<Passed>
    ensures within { IfSome result (λ passed. passed.taken ≤ length part.now) }
    ensures listed { IfSome result (λ passed. passed ≡ listed_upto (length part.now) part.now last before 0) }
{
    let mut at: usize = 0;
    let mut seen = before;
    while at < part.len() {
        let left = part.len() - at;
        if may_be_cut(left, last) {
            return Some(Passed { taken: at, seen });
        }
        let rest = &part[at..];
        if is_second(seen, rest) {
            return Some(Passed { taken: at, seen });
        }
        let kind = rest[0];
        let x = list::write_lines(lines, rest);
        let size = x.taken;
        if size == 0 {
            return Some(Passed { taken: at, seen });
        }
        if left < size {
            return Some(Passed { taken: at, seen });
        }
        if !send_first(rt, texts, lines, x.written) {
            return None;
        }
        at += size;
        seen = with_kind(seen, kind);
    }
    Some(Passed { taken: at, seen })
}

// The bytes of the room from a place up to another go to its start.
fn move_down(room: &mut [u8], from: usize, to: usize)
    requires { (from ≤ to) × (to ≤ length room.old) }
    ensures { room.new ≡ paste room.old 0 (drop from room.old) (to - from) }
{
    for i in 0..to - from {
        room[i] = room[from + i];
    }
}

// Bytes that are the last line of a listing that ends so.
fn send_last(
    rt: &impl Print,
    texts: &impl Print,
    line: &[u8],
    seen: Seen,
    place: usize,
    rest: &[u8],
) -> bool
    requires { line.now ≡ last_line seen place rest.now }
{
    send(rt, texts, line)
}

// The last line of a listing that ends at a place, where the rest of the file is these bytes.
fn end_at(rt: &impl Print, texts: &impl Print, seen: Seen, place: usize, rest: &[u8]) {
    let line = last_line(seen, place, rest);
    send_last(rt, texts, line.text(), seen, place, rest);
}

// How a listing stands that goes on: how many bytes at the start of the room are yet to be listed, their place in the file, and what was seen
// before them.
#[derive(Clone, Copy, Debug, PartialEq, Eq)]
pub struct Window {
    pub kept: usize,
    pub place: usize,
    pub seen: Seen,
}

// One room of the file: it is filled, its cards are listed, and a card that it cuts short is kept. Where no card begins, and at the end of the
// file, the last line is sent, and the listing has ended, as it has where the file cannot be read or the lines cannot be sent.
fn list_some<F: Read>(
    rt: &impl Print,
    texts: &impl Print,
    room: &mut [u8],
    lines: &mut [u8],
    path: &[u8],
    file: &mut F,
    window: Window,
) -> Option<Window>
    requires { (length room.old ≡ 65536) × (window.kept ≤ 65536) }
    ensures { IfSome result (λ next. next.kept ≤ 65536) }
{
    let Window { kept, place, seen } = window;
    if 9_000_000_000_000_000_000 < place {
        return None;
    }
    let n = kept + fill(file, texts, path, &mut room[kept..])?;
    let Passed { taken, seen } = list_cards(rt, texts, lines, &room[0..n], n < 65536, seen)?;
    if n < 65536 || taken == 0 {
        end_at(rt, texts, seen, place + taken, &room[taken..n]);
        return None;
    }
    move_down(room, taken, n);
    Some(Window {
        kept: n - taken,
        place: place + taken,
        seen,
    })
}

// All of an open file, room after room. A proved loop has to end, and nothing says that a file does, so it counts more turns than any file
// takes.
fn list_all<F: Read>(
    rt: &impl Print,
    texts: &impl Print,
    room: &mut [u8],
    lines: &mut [u8],
    path: &[u8],
    file: &mut F,
)
    requires { length room.old ≡ 65536 }
{
    let mut window = Window {
        kept: 0,
        place: 0,
        seen: none_seen(),
    };
    for _ in 0..u64::MAX {
        let Some(next) = list_some(rt, texts, room, lines, path, file, window) else {
            return;
        };
        window = next;
    }
}

// The cards of the file at path.
pub fn list(rt: &(impl Files + Print), texts: &impl Print, path: &[u8]) {
    let mut room = octets::room::<65536>();
    let mut lines = octets::room::<4096>();
    match disk::open(rt, path) {
        Ok(mut file) => list_all(rt, texts, &mut room, &mut lines, path, &mut file),
        Err(why) => says::failed(texts, path, &why),
    }
}
