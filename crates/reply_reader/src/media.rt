//! What the body of a reply consists of.
ghost use Rattle.std.specs.Prelude.{◌≡◌, ◌≢◌, IfSome, IsNone};
ghost use Rattle.session_model.specs.Responses.{MediaType, media_name};
ghost use Rattle.reply_reader.specs.Heads.{media_of};

/// What a body consists of.
#[derive(Clone, Copy, Debug, PartialEq, Eq)]
pub enum Media {
    /// A text of JSON (RFC 8259).
    Json,
    /// The bytes of a content, a changeset, a node or a policy.
    Octets,
}

/// The kind that a `Content-Type` field names, by its one spelling.
pub(crate) fn media_named(text: &[u8]) -> Option<Media>
    ensures some { IfSome result (λ media. text.now ≡ media_name (media_of media)) }
    ensures none { IsNone result → (media : MediaType) → text.now ≢ media_name media }
{
    if text == b"application/json".as_slice() {
        return Some(Media::Json);
    }
    if text == b"application/octet-stream".as_slice() {
        return Some(Media::Octets);
    }
    None
}
