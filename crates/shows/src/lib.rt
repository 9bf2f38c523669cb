// What is shown on standard output: bytes as they are, and the cards of a file as lines. `rt` writes to standard output, and what goes
// wrong is said on `texts`.
#![tactic(auto)]

mod cards;

ghost use Rattle.std.specs.Prelude.{◌≤◌, length};

pub use cards::list;
use std::io::Print;

// Bytes as they are. Where they cannot be written, that is said.
pub fn send(rt: &impl Print, texts: &impl Print, bytes: &[u8]) -> bool {
    match rt.write_all(bytes) {
        Ok(()) => true,
        Err(why) => {
            says::failed(texts, b"standard output", &why);
            false
        }
    }
}

// The first n bytes of a room.
pub(crate) fn send_first(rt: &impl Print, texts: &impl Print, room: &[u8], n: usize) -> bool
    requires { n ≤ length room.now }
{
    send(rt, texts, &room[0..n])
}
