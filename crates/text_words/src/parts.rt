//! Cutting a text apart at a byte.

ghost use Rattle.std.specs.Prelude.{◌≡◌, ◌==◌, ◌<◌, [], ◌∷◌, length, MatchOption, position};
ghost use Rattle.std.specs.List.{slice_split};

/// The index of the first byte that is `stop`.
fn first_of(text: &[u8], stop: u8) -> Option<usize>
    ensures { result ≡ position (λ b. b == stop) text.now }
{
    text.iter().position(|byte| *byte == stop)
}

/// The bytes before the first byte that is `stop`, and those after it; nothing where there is none.
#[tactic(auto, using(crate::proofs::Split::cut_none, crate::proofs::Split::cut_some, crate::proofs::Split::drop_one))]
pub fn cut_at(text: &[u8], stop: u8) -> Option<(&[u8], &[u8])>
    ensures { MatchOption result (slice_split (λ b. b == stop) text.now ≡ text.now ∷ [])
        (λ x. (slice_split (λ b. b == stop) text.now
        ≡ x.0.now ∷ slice_split (λ b. b == stop) x.1.now)
        × (length x.1.now < length text.now)) }
{
    let Some(end) = first_of(text, stop) else {
        return None;
    };
    let (front, back) = text.split_at(end);
    Some((front, &back[1..]))
}
