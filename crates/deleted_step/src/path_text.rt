//! Texts of paths, taken apart at their slashes.
ghost use Rattle.std.specs.Prelude.{◌≡◌, ◌<◌, ◌++◌, ◌∷◌, [], length};
ghost use Rattle.changeset_model.specs.Path.{Path, elements};
ghost use Rattle.deleted_step.specs.Texts.{left};

/// The first element of a path, and the rest if there is one.
pub(crate) fn parted(text: &str) -> (&str, Option<&str>)
    ensures { elements text.now ≡ result.0.now ∷ left result.1 }
{
    match text.split_once('/') {
        None => (text, None),
        Some((name, rest)) => (name, Some(rest)),
    }
}

/// The front of a path, before what is left of it.
pub(crate) fn front_of<'a>(text: &'a str, rest: Option<&str>) -> &'a str
    requires { (d : Path) × (0 < length d) × (elements text.now ≡ d ++ left rest) }
    ensures { (d : Path) → 0 < length d → elements text.now ≡ d ++ left rest.entry → elements result.now ≡ d }
{
    let Some(rest) = rest else {
        return text;
    };
    let Some(front) = text.strip_suffix(rest) else {
        unreachable!()
    };
    let Some(front) = front.strip_suffix('/') else {
        unreachable!()
    };
    front
}

/// The directory above a path, unless that is the root, and the last element of the path.
pub(crate) fn parted_last(text: &str) -> (Option<&str>, &str)
    ensures { elements text.now ≡ left result.0 ++ result.1.now ∷ [] }
{
    match text.rsplit_once('/') {
        None => (None, text),
        Some((above, name)) => (Some(above), name),
    }
}
