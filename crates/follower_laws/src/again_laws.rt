//! Laws of entries that are made elsewhere, each the contract of a function that does nothing.
ghost use Rattle.std.specs.Prelude.{◌≡◌, ◌⊎◌, ℕ, Some, List, false};
ghost use Rattle.changeset_model.specs.Version.{Second};
ghost use Rattle.history_model.specs.History.{Body, Entry, is_down, stored};
ghost use Rattle.history_model.specs.Journal.{Header};
ghost use Rattle.reply_model.specs.Log.{LogLine, line_of};
ghost use Rattle.reply_model.specs.Legal.{MayFollow};
ghost use Rattle.reply_model.specs.After.{Answer, Answers, Made};
ghost use Rattle.follower.specs.Making.{call_of, Makes};
ghost use Rattle.follower_laws.specs.Again.{IsAgain, IsFetchFor};

/// What a server makes after some stored entries is made after the same ones in a file of the second version, whatever its capacity, by the call that asks for what the log tells of it, with the bytes that the server keeps of it. That call is answered in no other way, unless there is no room or memory, or the disk fails; or it joins contents, and one of these has the digest of another content, or the disk gave other bytes of it.
pub fn entries_are_made_again()
    ensures answered { (server own : Header) (h : List Entry) (body : Body) (line : LogLine) (fetched : List ℕ) (answer : Answer) (made : Made) → MayFollow server (stored h) body → line_of body ≡ Some line → own.version ≡ Second → is_down h ≡ false → IsFetchFor body fetched →
        Answers own h (call_of line fetched) answer made → IsAgain body answer made }
    ensures same { (server own : Header) (h : List Entry) (body found : Body) (line : LogLine) (fetched : List ℕ) → MayFollow server (stored h) body → line_of body ≡ Some line → own.version ≡ Second → is_down h ≡ false → IsFetchFor body fetched →
        Makes own h line fetched found → found ≡ body }
{}
