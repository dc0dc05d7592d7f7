// Numbers in decimal and hexadecimal digits.
ghost use Rattle.std.specs.Prelude.{◌≡◌, ◌<◌, ◌≤◌, IfSome};
ghost use Rattle.scripts.specs.Numbers.{digit_in, number_of, decimal_of, hexadecimal_of};

// The value of a digit of a base, in either case of its letter.
fn digit(byte: u8, base: u8) -> Option<u8>
    ensures value { result ≡ digit_in base byte }
    ensures bound { IfSome result (λ n. n < base) }
{
    let value = match byte {
        b'0'..=b'9' => byte - b'0',
        b'A'..=b'F' => byte - b'A' + 10,
        b'a'..=b'f' => byte - b'a' + 10,
        _ => return None,
    };
    (value < base).then_some(value)
}

// The number that 1 to `longest` digits of a base write, if it is at most `top`.
fn number(token: &[u8], base: u8, longest: usize, top: u64) -> Option<u64>
    requires { (base ≤ 16) × (longest ≤ 20) }
    ensures value { result ≡ number_of base longest top token.now }
    ensures bound { IfSome result (λ n. n ≤ top) }
{
    if token.is_empty() || token.len() > longest {
        return None;
    }
    let mut n: u128 = 0;
    for byte in token {
        let value = digit(*byte, base)?;
        n = n * u128::from(base) + u128::from(value);
    }
    u64::try_from(n).ok().filter(|n| *n <= top)
}

// A decimal number of 1 to 20 digits, if it is at most `top`.
pub(crate) fn decimal(token: &[u8], top: usize) -> Option<usize>
    ensures value { result ≡ decimal_of top token.now }
    ensures bound { IfSome result (λ n. n ≤ top) }
{
    // `as` is proved to lose nothing; a `try_from` would add a failure that cannot be.
    number(token, 10, 20, top as u64).map(|n| n as usize)
}

// A word of 1 to 8 hexadecimal digits.
pub(crate) fn hexadecimal(token: &[u8]) -> Option<u32>
    ensures { result ≡ hexadecimal_of token.now }
{
    // `as` is proved to lose nothing here too.
    number(token, 16, 8, u64::from(u32::MAX)).map(|n| n as u32)
}
