//! The type of a file.
ghost use Rattle.std.specs.Prelude.{◌≡◌, ◌<◌, IfOk};
ghost use Rattle.byte_fields.specs.Gives.{Gives};
ghost use Rattle.changeset_model.specs.Changeset.{kind_byte};
ghost use Rattle.changeset_model.specs.Decoding.{kind_of};
ghost use Rattle.bonsai.specs.Kinds.{kind_view, kind_field};

use byte_fields::BadField;
use byte_fields::fields::u8_below;

/// The type of a file.
#[derive(Clone, Copy, Debug, PartialEq, Eq)]
pub enum FileKind {
    Regular,
    Executable,
    Symlink,
}

impl FileKind {
    /// The byte that stands for it: 0, 1 or 2.
    pub fn to_byte(self) -> u8
        ensures value { result ≡ kind_byte (kind_view self) }
        ensures below { result < 3 }
    {
        match self {
            FileKind::Regular => 0,
            FileKind::Executable => 1,
            FileKind::Symlink => 2,
        }
    }

    /// The type that a byte below 3 stands for.
    pub fn of_byte(byte: u8) -> FileKind
        requires { byte < 3 }
        ensures { kind_view result ≡ kind_of byte }
    {
        match byte {
            0 => FileKind::Regular,
            1 => FileKind::Executable,
            _ => FileKind::Symlink,
        }
    }
}

/// The type at the front of some bytes, and the bytes after it.
pub fn kind_at(bytes: &[u8]) -> Result<(FileKind, &[u8]), BadField>
    ensures { Gives (λ x. (kind_view x.0, x.1.now)) result (kind_field bytes.now) }
{
    let (byte, rest) = u8_below(bytes, 3)?;
    Ok((FileKind::of_byte(byte), rest))
}
