//! What rules say of one place.
ghost use Rattle.std.specs.Prelude.{◌≡◌, false, option_map};
ghost use Rattle.std.specs.Option.{option_map_or};

use land_policy::Ruling;

/// Whether a rule matches and allows.
pub(crate) fn is_allow(ruling: Option<Ruling>) -> bool
    ensures { result ≡ option_map_or (λ r. r.allows) ruling false }
{
    match ruling {
        Some(ruling) => ruling.allows,
        None => false,
    }
}

/// The number of a rule that matches.
pub(crate) fn number_of(ruling: Option<Ruling>) -> Option<u64>
    ensures { result ≡ option_map (λ r. r.number) ruling }
{
    match ruling {
        Some(ruling) => Some(ruling.number as u64),
        None => None,
    }
}
