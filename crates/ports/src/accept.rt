//! What connections come from.
ghost use Rattle.std.specs.Prelude.{◌≡◌, ◌≤◌, ◌-◌, ◌^◌, ◌||◌, ℕ, Bool, Ok, Option, None, IfOk, IfSome, IsTrue, false, is_err, if◌then◌else◌};
ghost use Rattle.ports.specs.Accepts.{is_end, is_link};
ghost use Rattle.ports.specs.Faults.{Counts};
ghost use Rattle.ports.specs.Memory.{raised};

use crate::failed::Failed;

/// Gives connections one after another, as a listener does.
pub trait Accept<L>: Drop {
    /// How often a call has failed.
    ghost faults: { Self → ℕ };

    /// How many links it gave. The count has 64 bits and stands at its last value.
    ghost given: { Self → ℕ };

    /// Whether it has answered that no more will come.
    ghost over: { Self → Bool };

    /// The link that the next call gives, or that it gives none, of an accept that tells it.
    ghost next_link: { Self → Option (Option L) };

    /// The next link, or `None` where no more will come; each later call answers so too. A call that
    /// fails gives none.
    fn next(&mut self) -> Result<Option<L>, Failed>
        ensures given { given self.new ≡ (if is_link result then raised (given self.old) else given self.old) }
        ensures most { given self.new ≤ 2 ^ 64 - 1 }
        ensures over { over self.new ≡ (over self.old || is_end result) }
        ensures again { IsTrue (over self.old) → result ≡ Ok None }
        ensures link { IfOk result (λ link. IfSome (next_link self.old) (λ next. link ≡ next)) }
        ensures faults { Counts (faults self.old) (faults self.new) (is_err result) }
        ensures quiet { is_err result ≡ false → faults self.new ≡ faults self.old };
}
