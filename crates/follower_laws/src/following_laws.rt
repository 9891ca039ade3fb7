//! Laws of following a server, each the contract of a function that does nothing.
ghost use Rattle.std.specs.Prelude.{◌≡◌, ℕ, IsTrue, List, [], Some};
ghost use mathlib.Core.List.{IsPrefix};
ghost use Rattle.disk_model.specs.Images.{IsImage};
ghost use Rattle.disk_model.specs.Meaning.{Meaning};
ghost use Rattle.history_model.specs.History.{Body, Entry, stored};
ghost use Rattle.history_model.specs.Journal.{Header, Stands};
ghost use Rattle.bookmark_lock.specs.Opening.{Opening};
ghost use Rattle.follower.specs.declared.followed.FollowEnd.{FollowEnd};
ghost use Rattle.follower.specs.Following.{Follows, waiting};
ghost use Rattle.follower.specs.Left.{HasFollowed};
ghost use Rattle.follower_laws.specs.Endings.{HasFollowedWell, IsBehind};

/// Following a server that keeps its rules never leads away from it: what is made then is a front of what the server has stored, each reply is one, and no entry differs but a whole of which a content has the digest of another one, or that was read from a disk that isn't honest and gave other bytes.
pub fn a_server_is_followed()
    ensures { (own : Opening) (server : Header) (h from last : List Entry) (bytes : List ℕ) (end : FollowEnd) (done extra : List Body) → IsBehind own.header server h from bytes last → Follows own h bytes [] end done extra → HasFollowedWell own.honest h done last end }
{}

/// So it is with a repository in a file that follows a server over a link. It ends so. What it has stored then is a front of what the server has, unless an entry differs or couldn't be compared for want of memory: what its call made waits unsealed then. On an honest disk each image of the file stands for a history whose stored entries are such a front, at every end.
pub fn a_file_follows_a_server()
    ensures ends { (opening : Opening) (server : Header) (h from last after : List Entry) (before sealed : ℕ) (bytes : List ℕ) (m : Meaning) (end : FollowEnd) → IsBehind opening.header server h from bytes last → (f : HasFollowed opening h before (Some bytes) after sealed m end) →
        HasFollowedWell opening.honest h f.followed.done last end }
    ensures stays { (opening : Opening) (server : Header) (h from last after : List Entry) (before sealed : ℕ) (bytes : List ℕ) (m : Meaning) (end : FollowEnd) → IsBehind opening.header server h from bytes last → HasFollowed opening h before (Some bytes) after sealed m end → waiting end ≡ 0 →
        IsPrefix (stored after) (stored last) }
    ensures images { (opening : Opening) (server : Header) (h from last after : List Entry) (before sealed : ℕ) (bytes image : List ℕ) (m : Meaning) (end : FollowEnd) → IsBehind opening.header server h from bytes last → HasFollowed opening h before (Some bytes) after sealed m end → IsTrue m.honest → IsImage m.state image →
        (history : List Entry) × Stands opening.header image history × IsPrefix (stored history) (stored last) }
{}
