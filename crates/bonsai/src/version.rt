//! The version of a format.
ghost use Rattle.std.specs.Prelude.{◌≡◌, ◌<◌, ◌≤◌};
ghost use Rattle.byte_fields.specs.Gives.{Gives};
ghost use Rattle.changeset_model.specs.Version.{version_byte, version_of, is_second as is_second_version};
ghost use Rattle.bonsai.specs.Versions.{version_view, version_field};

use byte_fields::BadField;
use byte_fields::fields::u8_at;

/// The version of a format.
#[derive(Clone, Copy, Debug, PartialEq, Eq)]
pub enum Version {
    First,
    /// A file that is set tells where it was copied from, and a landing is the date of what it lands.
    Second,
}

impl Version {
    /// The byte that stands for it: 1 or 2.
    pub fn to_byte(self) -> u8
        ensures value { result ≡ version_byte (version_view self) }
        ensures below { result < 3 }
    {
        match self {
            Version::First => 1,
            Version::Second => 2,
        }
    }

    /// Whether it is the second.
    pub fn is_second(self) -> bool
        ensures { result ≡ is_second_version (version_view self) }
    {
        match self {
            Version::First => false,
            Version::Second => true,
        }
    }
}

/// The version at the front of some bytes, and the bytes after it.
pub fn version_at(bytes: &[u8]) -> Result<(Version, &[u8]), BadField>
    ensures { Gives (λ x. (version_view x.0, x.1.now)) result (version_field bytes.now) }
{
    let (byte, rest) = u8_at(bytes)?;
    match byte {
        1 => Ok((Version::First, rest)),
        2 => Ok((Version::Second, rest)),
        _ => Err(BadField { left: bytes.len() }),
    }
}
