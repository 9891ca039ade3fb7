//! What the copy of a file stands for, also where a crash stopped its making.
//! Each is the contract of a function that does nothing.
ghost use Rattle.std.specs.Prelude.{◌≡◌, ◌⊎◌, ◌<◌, ◌^◌, ℕ, List, Err};
ghost use Rattle.history_model.specs.History.{Entry};
ghost use Rattle.history_model.specs.Journal.{Header, Stands, size};
ghost use Rattle.reply_model.specs.Legal.{IsLegal};
ghost use Rattle.reply_model.specs.Opening.{NotARepository, opens};
ghost use Rattle.migration.specs.Copying.{IsUnfinished, copied, in_second, records_in};

/// The copy of a file's records stands for what the file stands for, and this is legal in the second version too.
pub fn a_copy_stands_for_the_same_history()
    ensures stands { (header : Header) (file : List ℕ) (h : List Entry) → Stands header file h
        → Stands (in_second header.capacity) (copied header.capacity (records_in (size h) file)) h }
    ensures legal { (header : Header) (h : List Entry) → IsLegal header h → IsLegal (in_second header.capacity) h }
{}

/// What a crash leaves of a copy isn't a repository, or stands for nothing but what the copy stands for.
pub fn an_unfinished_copy_is_no_other_history()
    ensures { (capacity : ℕ) (records image : List ℕ) → capacity < 2 ^ 64 → IsUnfinished (copied capacity records) image
        → (opens image ≡ Err NotARepository)
        ⊎ ((header : Header) (h : List Entry) → Stands header image h
        → (header.capacity ≡ capacity) × Stands (in_second capacity) (copied capacity records) h) }
{}
