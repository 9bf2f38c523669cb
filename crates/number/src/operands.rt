// The operands of arithmetic, taken apart.
ghost use Rattle.std.specs.Prelude.{◌+◌, ◌^◌, ◌≤◌, ◌<◌};

// A number taken apart: whether it has a minus, its first eight digits and its exponent. Only +0 has fewer than eight.
#[derive(Clone, Copy)]
pub(crate) struct Operand {
    pub(crate) minus: bool,
    pub(crate) digits: u64,
    pub(crate) exponent: u64,
    ghost most: { digits < 10 ^ 8 },
    ghost top: { exponent ≤ 99 },
    ghost least: { 0 < digits + exponent → 10 ^ 7 ≤ digits },
}
