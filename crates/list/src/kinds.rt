// Which of the cards that stand in no deck is at the start of some bytes.
ghost use Rattle.std.specs.Prelude.{◌≡◌, ◌≤◌, length};
ghost use Rattle.rules.specs.Cards.{is_sign};
ghost use Rattle.list.specs.Listing.{is_trace, stop_bad, is_stop};

// Whether a whole trace card is there.
pub(crate) fn is_trace(rest: &[u8]) -> bool
    ensures { result ≡ is_trace rest.now }
{
    rest.len() >= 77 && rest[0] == b'X' && card::first_bad(rest, 6, 77) == 77
}

// Whether a byte is a sign.
fn is_sign(b: u8) -> bool
    ensures { result ≡ is_sign b }
{
    matches!(b, b'+' | b'-')
}

// The first byte of a stop card that is not the one due, and its size where there is none.
pub(crate) fn stop_bad(rest: &[u8]) -> usize
    requires { 24 ≤ length rest.now }
    ensures { result ≡ stop_bad rest.now }
{
    let bad = card::first_bad(rest, 0, 13);
    if bad < 13 {
        return bad;
    }
    if !is_sign(rest[13]) {
        return 13;
    }
    let word = &rest[13..];
    13 + card::first_bad(word, 0, 11)
}

// Whether a whole stop card is there. One function with `is_trace` would take size, letter and test, and be no plainer.
pub(crate) fn is_stop(rest: &[u8]) -> bool
    ensures { result ≡ is_stop rest.now }
{
    rest.len() >= 24 && rest[0] == b'Z' && stop_bad(rest) == 24
}
