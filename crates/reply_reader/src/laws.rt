//! Laws of replies, each the contract of a function that does nothing.
ghost use Rattle.std.specs.Prelude.{◌≡◌, ◌≤◌, ℕ, false, Bool, List, ◌++◌, length, Option, option_map};
ghost use Rattle.session_model.specs.declared.method.Methods.{Methods};
ghost use Rattle.session_model.specs.Methods.{methods_text};
ghost use Rattle.session_model.specs.Responses.{Response, text_of};
ghost use Rattle.reply_reader.specs.declared.header_values.TheConstants.{MOST_BODY};
ghost use Rattle.reply_reader.specs.Replies.{Reply, IsReply};
ghost use Rattle.reply_reader.specs.Fronts.{response_reply};

/// One reply stands first, whatever follows it.
pub fn one_reply_stands_first()
    ensures { (limit : ℕ) (bytes more : List ℕ) (reply other : Reply) (rest last : List ℕ) → IsReply limit bytes reply rest → IsReply limit (bytes ++ more) other last → (reply ≡ other) × (rest ++ more ≡ last) }
{}

/// What a server writes is a reply, with the response's status, kind and body.
pub fn servers_write_replies()
    ensures { (limit : ℕ) (r : Response) (allow : Option Methods) (close : Bool) (rest : List ℕ) → r.allow ≡ option_map methods_text allow → length r.body ≤ limit → limit ≤ MOST_BODY → IsReply limit (text_of r close false ++ rest) (response_reply r) rest }
{}
