// Bytes written at a place of a run. All else is left as it is.
ghost use Rattle.std.specs.Prelude.{◌≡◌, [], ◌∷◌, ◌+◌, ◌≤◌, min, leb, length, take, drop};
ghost use Rattle.octets.specs.Put.{splice, put_at};

// Whether n bytes fit at place a of a run of so many.
pub(crate) fn has_room(size: usize, a: usize, n: usize) -> bool
    ensures { result ≡ leb (a + n) size }
{
    n <= size && a <= size - n
}

// One byte at place a. The store is by the place: of a slice whose `get_mut` has been written to, a proof knows the length alone.
#[tactic(auto, unfolding(crate::specs::Put::put_at), using(crate::proofs::Splices::splice_one))]
pub fn put_byte(out: &mut [u8], a: usize, b: u8)
    ensures { out.new ≡ put_at a (b ∷ []) out.old }
{
    if a < out.len() {
        out[a] = b;
    }
}

// A whole run from place a on.
#[tactic(auto, unfolding(crate::specs::Put::put_at), using(crate::proofs::Copies::copied))]
pub fn put_run(out: &mut [u8], a: usize, run: &[u8])
    ensures { out.new ≡ put_at a run.now out.old }
{
    if has_room(out.len(), a, run.len()) {
        out[a..a + run.len()].copy_from_slice(run);
    }
}

// n bytes of another run, or as many as there are, those from its place b on, at place a.
pub fn copy(out: &mut [u8], a: usize, from: &[u8], b: usize, n: usize)
    ensures { out.new ≡ put_at a (take n (drop b from.now)) out.old }
{
    let rest = &from[b.min(from.len())..];
    put_run(out, a, &rest[..n.min(rest.len())]);
}
