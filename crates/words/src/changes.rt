// What TR SUBR makes of an order.
ghost use Rattle.std.specs.Prelude.{◌≡◌};
ghost use Rattle.rules.specs.Words.{digits_in, with_address};
ghost use Rattle.rules.specs.declared.Address.TheVariants.{OfC};

// A word with plus, and b for its C-address.
pub fn linked_word(w: u64, b: u32) -> u64
    ensures { result ≡ with_address OfC (digits_in w) b }
{
    w % 10_000_000_000 / 1000 * 1000 + b as u64
}
