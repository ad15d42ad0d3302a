//! How many claims, and how many workers.

ghost use Rattle.std.specs.Prelude.{◌<◌, ◌≤◌, IfSome};

/// How many claims a batch may have, from 1 to 64.
#[derive(Clone, Copy)]
pub struct Limit {
    number: u32,
    ghost within: { (0 < number) × (number ≤ 64) },
}

/// How many workers there are, from 1 to 16.
#[derive(Clone, Copy)]
pub struct Workers {
    number: u32,
    ghost within: { (0 < number) × (number ≤ 16) },
}

impl Limit {
    /// The limit that a text is; None where it is none.
    pub fn read(text: &str) -> Option<Limit> {
        let number = number_to(text, 64)?;
        Some(Limit { number })
    }

    /// The number itself.
    pub fn number(self) -> u32
        ensures { (0 < result) × (result ≤ 64) }
    {
        self.number
    }
}

impl Workers {
    /// The number of workers that a text is; None where it is none.
    pub fn read(text: &str) -> Option<Workers> {
        let number = number_to(text, 16)?;
        Some(Workers { number })
    }

    /// The number itself.
    pub fn number(self) -> u32
        ensures { (0 < result) × (result ≤ 16) }
    {
        self.number
    }
}

/// The number of a text, from 1 to the greatest one; None where it is none.
fn number_to(text: &str, greatest: u32) -> Option<u32>
    ensures { IfSome result (λ n. (0 < n) × (n ≤ greatest)) }
{
    match text.parse::<u32>() {
        Ok(number) if 0 < number && number <= greatest => Some(number),
        _ => None,
    }
}
