//! How many workers a build has.
ghost use Rattle.std.specs.Prelude.{◌≡◌, ◌≤◌, IfSome};
ghost use Rattle.job_fields.specs.Values.{AreWorkers, workers_of};

use std::marker::Model;

/// A number of workers, 1 to 64.
#[derive(Drop)]
pub struct Workers {
    number: u32,
}

impl Model for Workers {
    ghost use Rattle.std.specs.Prelude.{ℕ};

    ghost Value = { ℕ };

    ghost use Rattle.job_fields.specs.Values.{AreWorkers};

    ghost view = { λ w. w.number };

    ghost invariant = { λ w. AreWorkers w.number };
}

#[tactic(auto, unfolding(crate::specs::Values::workers_of))]
fn number_of(text: &[u8]) -> Option<u8>
    ensures number { result ≡ workers_of text.now }
    ensures range { IfSome result AreWorkers }
{
    match text {
        [one @ b'1'..=b'9'] => Some(*one - b'0'),
        [ten @ b'1'..=b'9', one @ b'0'..=b'9'] => {
            let number = 10 * (*ten - b'0') + (*one - b'0');
            if number <= 64 { Some(number) } else { None }
        }
        _ => None,
    }
}

impl Workers {
    /// One worker.
    pub fn one() -> Workers
        ensures { result ≡ 1 }
    {
        Workers { number: 1 }
    }

    /// As many as a decimal number without a leading zero says, or none where it isn't one from 1
    /// to 64.
    pub fn from_decimal(text: &[u8]) -> Option<Workers>
        ensures { result ≡ workers_of text.now }
    {
        match number_of(text) {
            Some(number) => Some(Workers {
                number: u32::from(number),
            }),
            None => None,
        }
    }

    /// The number.
    pub fn number(&self) -> u32
        ensures number { result ≡ self.now }
        ensures least { 1 ≤ result }
        ensures most { result ≤ 64 }
    {
        self.number
    }
}
