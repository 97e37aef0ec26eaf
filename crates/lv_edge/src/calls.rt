ghost use Rattle.std.specs.Prelude.{◌↔◌, IsTrue, Contains};

/// Whether the number of a call is one of these.
pub fn is_among(number: u64, numbers: &[u32]) -> bool
    ensures { IsTrue result ↔ Contains numbers.now number }
{
    numbers.iter().any(|&one| u64::from(one) == number)
}
