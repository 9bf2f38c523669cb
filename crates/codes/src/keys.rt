// The key of an order, its digits O1 and A as one number, and what goes by it: the order's code, and its slot in the index of rows.
ghost use Rattle.std.specs.Prelude.{◌≡◌};
ghost use Rattle.rules.specs.Codes.{code_in};
ghost use Rattle.codes.specs.Keys.{key_in, slot_of};

// The key of a word.
pub fn key_of(w: u64) -> u64
    ensures { result ≡ key_in w }
{
    w / 1_000_000 % 10_000
}

// The code of a word.
pub fn code_of(w: u64) -> u64
    ensures { result ≡ code_in w }
{
    let key = key_of(w);
    if key < 1000 {
        return key;
    }
    if 9000 < key {
        return 9001;
    }
    key / 1000 * 1000
}

// The slot of a key: O2 where O1 is 0, else 999 and O1 more; the last, 1009, is for MOVE with A not 000, and for what is no key.
pub fn slot_of(key: u64) -> usize
    ensures { result ≡ slot_of key }
{
    if key < 1000 {
        return key as usize;
    }
    if 9000 < key {
        return 1009;
    }
    999 + (key / 1000) as usize
}
