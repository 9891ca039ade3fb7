//! Laws of what a server writes to one who follows it, each the contract of a function that does nothing.
ghost use Rattle.std.specs.Prelude.{◌≡◌, ℕ, Some, IsTrue, List, ◌∷◌, ◌++◌, length};
ghost use Rattle.history_model.specs.History.{Body, Entry, bodies, stored};
ghost use Rattle.history_model.specs.Journal.{Header, is_header};
ghost use Rattle.reply_model.specs.Log.{LogLine, line_of, log_lines};
ghost use Rattle.reply_model.specs.Legal.{IsLegal};
ghost use Rattle.follower.specs.declared.wanted.Wanted.{Wanted};
ghost use Rattle.follower.specs.declared.wanted.Wanted.TheVariants.{Page};
ghost use Rattle.follower.specs.Wanting.{IsAnswered, wanted_of};
ghost use Rattle.follower.specs.Hearing.{IsPageReply};
ghost use Rattle.follower_laws.specs.Again.{IsFetchFor};
ghost use Rattle.follower_laws.specs.Serving.{IsWritten};

/// What a server that keeps its rules writes to one who has some of its first stored entries is a reply to the question: a page that tells of the next ones, and of each entry that a page tells of what it needs.
pub fn servers_answer()
    ensures pages { (server : Header) (h : List Entry) (before rest : List Body) (text last : List ℕ) → IsTrue (is_header server) → IsLegal server h → bodies h ≡ before ++ rest → IsWritten h (Page (length before)) text →
        IsPageReply (length before) (text ++ last) (log_lines h (length before)) (length (stored h)) last }
    ensures entries { (server : Header) (h : List Entry) (before later : List Body) (body : Body) (line : LogLine) (wanted : Wanted) (text last : List ℕ) → IsLegal server h → bodies h ≡ before ++ body ∷ later → line_of body ≡ Some line → wanted_of (length before) line ≡ Some wanted → IsWritten h wanted text →
        (fetched : List ℕ) × IsAnswered wanted (text ++ last) fetched last × IsFetchFor body fetched }
{}
