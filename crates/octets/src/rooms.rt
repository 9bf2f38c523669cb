// Rooms for bytes that are to come.
ghost use Rattle.std.specs.Prelude.{◌≡◌, length, replicate};

// So many zeros.
pub fn room<const N: usize>() -> [u8; N]
    ensures zeros { result ≡ replicate N 0 }
    ensures size { N ≡ length result }
{
    [0; N]
}
