//! What all clients begin with.
ghost use Rattle.std.specs.Prelude.{◌≡◌, codes};
ghost use Rattle.changeset_model.specs.Changeset.{spelling};
ghost use Rattle.run_gen.specs.Stacks.{base};

/// The bookmark that stacks are landed on.
pub const MAIN: &str = "main";

/// The encoding of the changeset that every first stack stands on: it has no parent and changes
/// nothing.
pub fn base_encoding() -> [u8; 26]
    ensures { result ≡ spelling base }
{
    let mut bytes = [0; 26];
    bytes[0] = b'C';
    bytes[1] = 1;
    bytes[4] = 1;
    bytes[5] = b'a';
    bytes
}
