// What a call answers that fills lent places.
ghost use Rattle.std.specs.Prelude.{◌≡◌, ◌<◌, ◌≤◌, length, IfOk, IfErr};
ghost use Rattle.analysis.specs.Places.{done_or_too_few};

use crate::refusal::Refusal;

// As many as are needed, where there are places for them.
pub(crate) fn enough<T>(needed: usize, places: &[T]) -> Result<usize, Refusal>
    ensures value { result ≡ done_or_too_few needed places.now }
    ensures ok { IfOk result (λ k. (k ≡ needed) × (needed ≤ length places.now)) }
    ensures err { IfErr result (λ _. length places.now < needed) }
{
    if places.len() < needed {
        return Err(Refusal::TooFewPlaces { needed });
    }
    Ok(needed)
}
