// Floats and their 8-byte patterns.
#![tactic(auto)]

ghost use Rattle.std.specs.Prelude.{◌≡◌};
ghost use Rattle.std.specs.Float.{binary64};
ghost use Rattle.std.specs.Float.Ieee.{to_bits, of_bits};

// The machine's own NaN may have another sign and other digits.
const NAN: u64 = 0x7FF8_0000_0000_0000;

const SIGN: u64 = 0x8000_0000_0000_0000;

const INFINITY: u64 = 0x7FF0_0000_0000_0000;

pub fn pattern_of(x: f64) -> u64
    ensures { result ≡ to_bits binary64 x }
{
    if x != x {
        return NAN;
    }
    f64::to_bits(x)
}

// Every NaN's pattern is read as the one NaN. Without the sign it is above an infinity's.
pub fn float_of(p: u64) -> f64
    ensures { result ≡ of_bits binary64 p }
{
    if INFINITY < p % SIGN {
        return 0.0 / 0.0;
    }
    f64::from_bits(p)
}
