//! The text of what a move of a bookmark is decided on.
ghost use Rattle.std.specs.Prelude.{◌≡◌, ◌+◌, ◌++◌, length, take, codes, IsTrue};
ghost use Rattle.history_model.specs.Bookmark.{is_name};

use repo_path::BookName;

/// What stands before the name.
const BOOKMARKS: [u8; 11] = *b".bookmarks/";

/// The most bytes of such a text.
pub(crate) const LONGEST_TEXT: usize = 139;

/// Writes the text, and tells its length.
pub(crate) fn write_text(name: &BookName, bytes: &mut [u8; 139]) -> usize
    ensures text { take result bytes.new ≡ codes ".bookmarks/" ++ name.now }
    ensures len { result ≡ 11 + length name.now }
    ensures rules { IsTrue (is_name name.now) }
{
    let name = name.as_str().as_bytes();
    bytes[..11].copy_from_slice(&BOOKMARKS);
    bytes[11..11 + name.len()].copy_from_slice(name);
    11 + name.len()
}
