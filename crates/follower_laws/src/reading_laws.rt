//! Of reads by an id, which any server with a front of a history may answer.
ghost use Rattle.std.specs.Prelude.{◌++◌, List, Ok};
ghost use Rattle.history_model.specs.History.{Entry};
ghost use Rattle.reply_model.specs.Reply.{Question, Seen, Sees};
ghost use Rattle.follower_laws.specs.ById.{AsksById};

/// What is shown for an id is shown at every later history, so such a read is never stale: a server that has a front of
/// another's history answers it as that one does, or says that the content, changeset or path isn't there.
pub fn reads_by_id_stay()
    ensures { (h later : List Entry) (question : Question) (seen : Seen) → AsksById question → Sees h question (Ok seen) → Sees (h ++ later) question (Ok seen) }
{}
