// Exact arithmetic: quotients rounded once, and products and quotients of more than 64 bits worked out digit by digit.
#![tactic(auto)]

ghost use Rattle.std.specs.Prelude.{◌≡◌, ◌+◌, ◌*◌, ◌/◌, ◌^◌, ◌<◌, ◌≤◌};
ghost use Rattle.fraction.specs.Fraction.{◌⊘◌, up};

// n/d rounded up. That a divisor is positive stands as a clause: a type for it would be made of a constant at most calls, and be no plainer.
pub fn quotient_up(n: u64, d: u64) -> u64
    requires { 0 < d }
    ensures { result ≡ up (n ⊘ d) }
{
    n.div_ceil(d)
}

// A quotient with its rest: the number divided is whole·divisor + rest.
#[derive(Clone, Copy)]
pub struct Quotient {
    pub whole: u64,
    pub rest: u64,
    pub divisor: u64,
    pub ghost rest_small: { rest < divisor },
}

impl Quotient {
    pub fn of(n: u64, d: u64) -> Quotient
        requires { 0 < d }
        ensures { (result.whole * d + result.rest ≡ n) × (result.divisor ≡ d) }
    {
        Quotient {
            whole: n / d,
            rest: n % d,
            divisor: d,
        }
    }

    // Long division: the number divided is `factor` times as large. A factor of 2048 gives one digit of 11 bits more.
    pub fn times(self, factor: u64) -> Quotient
        requires { (self.divisor * factor < 2 ^ 64) × (self.whole * factor + factor < 2 ^ 64) }
        ensures { (result.whole * self.divisor + result.rest ≡ (self.whole * self.divisor + self.rest) * factor) × (result.divisor ≡ self.divisor) }
    {
        let d = self.divisor;
        let next = self.rest * factor;
        Quotient {
            whole: self.whole * factor + next / d,
            rest: next % d,
            divisor: d,
        }
    }

    // The quotient rounded up.
    pub fn rounded_up(self) -> u64
        requires { up ((self.whole * self.divisor + self.rest) ⊘ self.divisor) < 2 ^ 64 }
        ensures { result ≡ up ((self.whole * self.divisor + self.rest) ⊘ self.divisor) }
    {
        if self.rest == 0 {
            self.whole
        } else {
            self.whole + 1
        }
    }
}

// n·2048^count divided by d, by `count` digits of 11 bits. It and the two below ask the same: a struct of n, d and count would be made for each call alone, and
// be no plainer.
fn digits(n: u64, d: u64, count: u64) -> Quotient
    requires { (0 < d) × (d < 2 ^ 53) × (n * 2048 ^ count ≤ d * 2 ^ 62) }
    ensures { (result.whole * d + result.rest ≡ n * 2048 ^ count) × (result.divisor ≡ d) }
{
    let mut q = Quotient::of(n, d);
    for _ in 0..count {
        q = q.times(2048);
    }
    q
}

// n·2048^count/d rounded up.
#[tactic(auto, using(crate::proofs::Up::up_le))]
pub fn digits_up(n: u64, d: u64, count: u64) -> u64
    requires { (0 < d) × (d < 2 ^ 53) × (n * 2048 ^ count ≤ d * 2 ^ 62) }
    ensures { result ≡ up ((n * 2048 ^ count) ⊘ d) }
{
    digits(n, d, count).rounded_up()
}

// n·2048^count/d rounded down.
pub fn digits_down(n: u64, d: u64, count: u64) -> u64
    requires { (0 < d) × (d < 2 ^ 53) × (n * 2048 ^ count ≤ d * 2 ^ 62) }
    ensures { result ≡ n * 2048 ^ count / d }
{
    digits(n, d, count).whole
}

// t·n/d rounded down, t in two digits of 20 bits.
#[tactic(auto, using(crate::proofs::Division::digit_product, crate::proofs::Division::high_digit))]
pub fn product_quotient(t: u64, n: u64, d: u64) -> u64
    requires { (t ≤ 2 ^ 40) × (n ≤ d) × (n < 2 ^ 36) × (0 < d) × (d ≤ 2 ^ 40) }
    ensures { result ≡ t * n / d }
{
    let high = t / 1048576 * n;
    let low = high % d * 1048576 + t % 1048576 * n;
    high / d * 1048576 + low / d
}

// p·c/2^51 rounded up, c in two digits of 20 bits.
#[tactic(auto, using(crate::proofs::Division::digit_product, crate::proofs::Division::shifted_digits, crate::proofs::Up::up_le))]
pub fn product_shifted_up(p: u64, c: u64) -> u64
    requires { (p < 2 ^ 36) × (c ≤ 2 ^ 40) }
    ensures { result ≡ up ((p * c) ⊘ 2 ^ 51) }
{
    let low = quotient_up(p * (c % 1048576), 1048576);
    quotient_up(p * (c / 1048576) + low, 2147483648)
}
