// The greatest common divisor, by which the change of interval goes (document 01, section 4).

ghost use Rattle.std.specs.Prelude.{◌≡◌};
ghost use Rattle.quantity.specs.Divisors.{gcd};

// Euclid's: the common divisors of a and b are those of b and a mod b.
pub fn gcd(m: u32, n: u32) -> u32
    ensures { result ≡ gcd m n }
{
    let mut a = m;
    let mut b = n;
    while b != 0 {
        let rest = a % b;
        a = b;
        b = rest;
    }
    a
}
