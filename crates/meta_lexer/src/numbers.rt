//! Plain numbers.

ghost use Rattle.std.specs.Prelude.{◌≡◌, ◌+◌, ◌*◌, ◌<◌, ◌^◌, SomeIff};
ghost use Rattle.meta_lexer.specs.Numbers.{number_in, number_of};

/// What the byte stands for as a digit; 16 where it is none.
pub(crate) fn digit(b: u8) -> u8
    ensures { result ≡ Rattle.meta_lexer.specs.Numbers.digit b }
{
    match b {
        b'0'..=b'9' => b - b'0',
        b'a'..=b'f' => b - b'a' + 10,
        b'A'..=b'F' => b - b'A' + 10,
        _ => 16,
    }
}

/// The value with one digit more, if it fits.
fn with_digit(value: u64, base: u8, d: u8) -> Option<u64>
    ensures { SomeIff result (value * base + d < 2 ^ 64) (value * base + d) }
{
    value.checked_mul(base as u64)?.checked_add(d as u64)
}

/// The number that the digits stand for, if it has 64 bits.
#[tactic(auto, unfolding(crate::specs::Numbers::number_in), using(crate::proofs::NumberLemmas::none_digit))]
fn digits(base: u8, text: &[u8]) -> Option<u64>
    requires { 0 < base }
    ensures { result ≡ number_in base text.now }
{
    if text.is_empty() {
        return None;
    }
    let mut value: u64 = 0;
    for b in text {
        let d = digit(*b);
        if d >= base {
            return None;
        }
        let Some(next) = with_digit(value, base, d) else {
            return None;
        };
        value = next;
    }
    Some(value)
}

/// A decimal number or `0x` and hexadecimal digits, below 2 ^ 64.
#[tactic(auto, unfolding(crate::specs::Numbers::number_of))]
pub fn number(text: &[u8]) -> Option<u64>
    ensures { result ≡ number_of text.now }
{
    if text.len() >= 2 && text[0] == b'0' && text[1] == b'x' {
        digits(16, &text[2..])
    } else {
        digits(10, text)
    }
}
