// Logarithms of natural numbers.

ghost use Rattle.std.specs.Prelude.{◌≡◌};
ghost use Rattle.rtl_const.specs.Constant.{clog2};

/// The logarithm to the base 2, rounded up; 0 of 0.
pub fn clog2(n: u128) -> u32
    ensures { result ≡ clog2 n }
{
    if n <= 1 {
        return 0;
    }
    (n - 1).ilog2() + 1
}
