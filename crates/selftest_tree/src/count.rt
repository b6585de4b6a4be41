//! How many modules a selftest has.
ghost use Rattle.std.specs.Prelude.{◌≡◌, ◌≤◌, ◌-◌};
ghost use Rattle.selftest_tree.specs.Count.{count_of};

fn value_of(digit: u8) -> u64
    requires { 48 ≤ digit }
    ensures { result ≡ digit - 48 }
{
    u64::from(digit - b'0')
}

/// As many as a decimal number without a leading zero says, or none where it isn't one from 1 to
/// 1,000.
#[tactic(auto, unfolding(crate::specs::Count::count_of))]
pub fn count_of(text: &[u8]) -> Option<u64>
    ensures { result ≡ count_of text.now }
{
    match text {
        [a @ b'1'..=b'9'] => Some(value_of(*a)),
        [a @ b'1'..=b'9', b @ b'0'..=b'9'] => Some(10 * value_of(*a) + value_of(*b)),
        [a @ b'1'..=b'9', b @ b'0'..=b'9', c @ b'0'..=b'9'] => {
            Some(100 * value_of(*a) + 10 * value_of(*b) + value_of(*c))
        }
        b"1000" => Some(1000),
        _ => None,
    }
}
