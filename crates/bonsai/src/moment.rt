//! The date of a changeset.
ghost use Rattle.std.specs.Prelude.{◌≡◌, pos, min};
ghost use Rattle.history_model.specs.Pushrebase.{most_seconds, seconds_at as seconds_then, offset_at};
ghost use Rattle.bonsai.specs.Versions.{version_view};

use crate::version::Version;

/// When a changeset was made: seconds since 1970-01-01 00:00 UTC, and the offset of a clock from UTC in seconds.
#[derive(Clone, Copy, Debug)]
pub(crate) struct Date {
    pub(crate) seconds: i64,
    pub(crate) offset: i32,
}

impl Date {
    /// Once the changeset is landed at a moment: one of the first version keeps its date.
    pub(crate) fn landed(self, version: Version, moment: u64) -> Date
        ensures seconds { result.seconds ≡ seconds_then moment (version_view version) self.seconds }
        ensures offset { result.offset ≡ offset_at (version_view version) self.offset }
    {
        match version {
            Version::First => self,
            Version::Second => Date {
                seconds: seconds_at(moment),
                offset: 0,
            },
        }
    }
}

// A later moment than a date can tell is the last that it can.
fn seconds_at(moment: u64) -> i64
    ensures { result ≡ pos (min moment most_seconds) }
{
    moment.min(i64::MAX as u64) as i64
}
