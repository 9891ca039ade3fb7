//! One seat of a repository.
ghost use Rattle.std.specs.Prelude.{◌≡◌, ◌≤◌, ℕ, List};
ghost use Rattle.history_model.specs.History.{Entry};
ghost use Rattle.history_model.specs.Journal.{Header};
ghost use Rattle.reply_model.specs.After.{Relation, Answer, Asks, Looks};
ghost use Rattle.reply_model.specs.Reply.{PutContent};
ghost use Rattle.repo_calls.specs.Calls.{call_seen};
ghost use Rattle.repo_calls.specs.Asking.{IsAnswer, question_seen, stored_answer};
ghost use Rattle.repo_calls.specs.Replying.{IsReplying};
ghost use Rattle.repo_calls.specs.Widening.{Widens};

use crate::calls::{AskFault, ChangeFault, Question, Seen};
use crate::{Ask, Granted};
use std::alloc::Global;

/// One seat of a repository, served alone or beside others.
pub trait Seat {
    /// What the repository's file was made with.
    ghost header: { Self → Header };

    /// The history that the seat has seen.
    ghost front: { Self → List Entry };

    /// The number under which its own entries stand.
    ghost number: { Self → ℕ };

    /// How many stored entries it has seen sealed.
    ghost sealed: { Self → ℕ };

    // What no call changes: where the seat belongs.
    ghost Home: { Type 0 };

    ghost home: { Self → Home };

    /// How a call of a seat that belongs there is answered, where so many stored entries are sealed by
    /// then: the header, the front before, the seat's number, the call, the answer, and the front after.
    ghost replies: { Home → ℕ → Relation };

    /// How many stored entries it has seen sealed.
    fn sealed(&self) -> u64
        ensures { result ≡ sealed self.now };

    /// Makes a change.
    fn change(&mut self, alloc: Global, ask: &Ask) -> Result<Granted, ChangeFault>
        ensures reply { replies (home self.old) (sealed self.new) (header self.old) (front self.old) (number self.old) (call_seen ask.now) (stored_answer result) (front self.new) }
        ensures header { header self.new ≡ header self.old }
        ensures number { number self.new ≡ number self.old }
        ensures seals { sealed self.old ≤ sealed self.new }
        ensures home { home self.new ≡ home self.old };

    /// Stores a content that is handed over, as `change` does for `PutContent`. A seat may make its record in the room of the
    /// bytes, so that they aren't copied.
    fn put_content(&mut self, alloc: Global, bytes: Vec<u8>) -> Result<Granted, ChangeFault>
        ensures reply { replies (home self.old) (sealed self.new) (header self.old) (front self.old) (number self.old) (Asks (PutContent bytes.items)) (stored_answer result) (front self.new) }
        ensures header { header self.new ≡ header self.old }
        ensures number { number self.new ≡ number self.old }
        ensures seals { sealed self.old ≤ sealed self.new }
        ensures home { home self.new ≡ home self.old }
    {
        self.change(alloc, &Ask::PutContent(bytes.as_slice()))
    }

    /// Answers a read. None is granted, so that it waits for no seal.
    fn look(&mut self, alloc: Global, question: &Question) -> Result<Seen, AskFault>
        ensures reply { (answer : Answer) × IsAnswer result answer × replies (home self.old) 0 (header self.old) (front self.old) (number self.old) (Looks (question_seen question.now)) answer (front self.new) }
        ensures header { header self.new ≡ header self.old }
        ensures number { number self.new ≡ number self.old }
        ensures seals { sealed self.old ≤ sealed self.new }
        ensures home { home self.new ≡ home self.old };

    ghost lawful: { (place : Home) (n : ℕ) → IsReplying (replies place n) };

    // What is sealed stays so.
    ghost widens: { (place : Home) (m n : ℕ) → m ≤ n → Widens (replies place m) (replies place n) };
}
