// Greatest common divisors, by halves and differences (Stein, 1967).
ghost use Rattle.std.specs.Prelude.{◌≡◌, ◌%◌, ◌<◌, unsigned_abs};
ghost use Rattle.base_numbers.specs.Gcd.{gcd as gcd_of};

// The greatest common divisor of two odd numbers.
fn odd_gcd(a: u64, b: u64) -> u64
    requires a_odd { a % 2 ≡ 1 }
    requires b_odd { b % 2 ≡ 1 }
    ensures { result ≡ gcd_of a b }
{
    let mut x = a;
    let mut y = b;
    while x != y {
        let gap = x.abs_diff(y);
        x = x.min(y);
        y = gap >> gap.trailing_zeros();
    }
    x
}

// The greatest common divisor; that of 0 and a number is the number.
pub fn gcd(a: u64, b: u64) -> u64
    ensures { result ≡ gcd_of a b }
{
    if a == 1 || b == 1 {
        return 1;
    }
    if a == 0 {
        return b;
    }
    if b == 0 {
        return a;
    }
    let a_twos = a.trailing_zeros();
    let b_twos = b.trailing_zeros();
    let odd = odd_gcd(a >> a_twos, b >> b_twos);
    odd << a_twos.min(b_twos)
}

// What is left of a size divided by g. A size of 64 bits is divided as such, which takes a fraction of the time.
fn rest(size: u128, g: u64) -> u64
    requires { 0 < g }
    ensures { result ≡ size % g }
{
    if size < 18446744073709551616 {
        (size as u64) % g
    } else {
        (size % (g as u128)) as u64
    }
}

// The greatest common divisor of the size of t and a number above 0.
pub fn wide_gcd(t: i128, g: u64) -> u64
    requires { 0 < g }
    ensures { result ≡ gcd_of (unsigned_abs t) g }
{
    if g == 1 {
        return 1;
    }
    gcd(rest(t.unsigned_abs(), g), g)
}
