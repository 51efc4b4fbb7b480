//! The groups of an addition's hints.

ghost use Rattle.std.specs.Prelude.{◌≡◌, ◌<◌, [], ◌∷◌, length, MatchOption};
ghost use Rattle.lrat_check.specs.Hints.{first_hints, groups_of};

/// The id of the first group, and the hints after it, if there is a group. Those are the group's own hints and all later groups.
pub fn cut_group(hints: &[i64]) -> Option<(u64, &[i64])>
    ensures { MatchOption result
        (groups_of hints.now ≡ [])
        (λ cut. (groups_of hints.now ≡ record { id = cut.0; hints = first_hints cut.1.now } ∷ groups_of cut.1.now) × (length cut.1.now < length hints.now)) }
{
    for i in 0..hints.len() {
        if hints[i] < 0 {
            return Some((hints[i].unsigned_abs(), &hints[i + 1..]));
        }
    }
    None
}
