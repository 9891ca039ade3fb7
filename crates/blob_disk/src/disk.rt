//! The calls of a disk, with what they mean.
ghost use Rattle.std.specs.Prelude.{◌≡◌, ◌≤◌, ◌+◌, length, take, drop, is_ok, is_err, IfOk, OnOk, IsOk, IsSome};
ghost use Rattle.std.specs.Option.{ForSome};
ghost use Rattle.ports.specs.Faults.{Counts};
ghost use Rattle.disk_model.specs.Images.{IsImage, Writes, Syncs};
ghost use Rattle.disk_model.specs.Meaning.{Meaning, IsLong, IsSound};
ghost use Rattle.disk_model.specs.Calls.{Kept, LeavesOnly, Looked, Did, SameMoment, NextMoment};

use ports::Failed;

/// A sync that is made while the disk itself is used. Whoever runs it holds nobody else up.
pub trait Flush: Drop {
    /// Makes it, and waits until it is done or has failed. Which of them, the disk tells that it is brought back to.
    fn run(&mut self);
}

/// A second handle on the bytes of a disk, which reads while the disk itself is used. Nothing is promised of what it gives:
/// use what proves itself alone, as bytes with a digest that is known.
pub trait Peer: Drop {
    /// Fills `buf` with bytes from `at` on. False says that it couldn't, and `buf` may have changed all the same.
    fn look(&self, at: u64, buf: &mut [u8]) -> bool;
}

/// One file of bytes on a device that may fail, and that a crash may stop at any moment.
/// No call takes memory.
pub trait Disk: Drop {
    /// A sync of it that is made elsewhere.
    type Flush: Flush;

    /// A second handle on its bytes.
    type Peer: Peer;

    /// What is told of the disk: what reads give, what a crash may leave now and may have left
    /// before, the count of faults, the place up to which no call fails, and whether it is honest.
    ghost meaning: { Self → Meaning };

    /// How many bytes the file has. Once it is told, the moment and the count of faults are as before.
    fn size(&mut self) -> Result<u64, Failed>
        ensures size { IfOk result (λ n. ForSome (meaning self.old).reads (λ file. n ≡ length file)) }
        ensures looked { Looked (meaning self.old) (meaning self.new) }
        ensures kept { Kept (meaning self.old) (meaning self.new) }
        ensures time { LeavesOnly (IsImage (meaning self.new).state) (meaning self.old) (meaning self.new) }
        ensures faults { Counts (meaning self.old).faults (meaning self.new).faults (is_err result) }
        ensures still { OnOk result (SameMoment (meaning self.old) (meaning self.new)) }
        ensures quiet { IsSome (meaning self.old).quiet → IsOk result };

    /// Fills `buf` with the bytes from `at` on. A disk may try again, and count each try that failed.
    fn read_at(&mut self, at: u64, buf: &mut [u8]) -> Result<(), Failed>
        requires { IsLong (meaning self.old).reads (at + length buf.old) }
        ensures bytes { OnOk result (ForSome (meaning self.old).reads (λ file. buf.new ≡ take (length buf.old) (drop at file))) }
        ensures looked { Looked (meaning self.old) (meaning self.new) }
        ensures kept { Kept (meaning self.old) (meaning self.new) }
        ensures time { LeavesOnly (IsImage (meaning self.new).state) (meaning self.old) (meaning self.new) }
        ensures faults { Counts (meaning self.old).faults (meaning self.new).faults (is_err result) }
        ensures quiet { IsSome (meaning self.old).quiet → IsOk result };

    /// Writes over what is there, and past the end. Until a sync, a crash may leave any bytes in
    /// the range, also where the call failed.
    fn write_at(&mut self, at: u64, bytes: &[u8]) -> Result<(), Failed>
        requires { IsLong (meaning self.old).reads at }
        ensures long { OnOk result (IsLong (meaning self.new).reads (at + length bytes.now)) }
        ensures did { Did (Writes at bytes.now (is_ok result)) (meaning self.old) (meaning self.new) }
        ensures kept { Kept (meaning self.old) (meaning self.new) }
        ensures time { LeavesOnly (IsImage (meaning self.new).state) (meaning self.old) (meaning self.new) }
        ensures faults { Counts (meaning self.old).faults (meaning self.new).faults (is_err result) }
        ensures quiet { ForSome (meaning self.old).quiet (λ most. at + length bytes.now ≤ most → IsOk result) };

    /// After it, a crash leaves what reads give. One that fails makes nothing stable. One that is done is a moment,
    /// and no call more has failed.
    fn sync(&mut self) -> Result<(), Failed>
        ensures did { Did (Syncs (is_ok result)) (meaning self.old) (meaning self.new) }
        ensures kept { Kept (meaning self.old) (meaning self.new) }
        ensures time { LeavesOnly (IsImage (meaning self.new).state) (meaning self.old) (meaning self.new) }
        ensures faults { Counts (meaning self.old).faults (meaning self.new).faults (is_err result) }
        ensures next { OnOk result (NextMoment (meaning self.old) (meaning self.new)) }
        ensures quiet { IsSome (meaning self.old).quiet → IsOk result };

    /// A sync of all that is written so far, to be made elsewhere and brought back by `flushed`. The device isn't asked.
    fn flush(&mut self) -> Self::Flush
        ensures { meaning self.new ≡ meaning self.old };

    /// What `sync` does, with a flush that was brought back. No call of the device is made where this flush was handed out by
    /// this disk, was run, and nothing was written since. One that failed fails, and is never made again. In place of any
    /// other a sync is made here.
    fn flushed(&mut self, flush: Self::Flush) -> Result<(), Failed>
        ensures did { Did (Syncs (is_ok result)) (meaning self.old) (meaning self.new) }
        ensures kept { Kept (meaning self.old) (meaning self.new) }
        ensures time { LeavesOnly (IsImage (meaning self.new).state) (meaning self.old) (meaning self.new) }
        ensures faults { Counts (meaning self.old).faults (meaning self.new).faults (is_err result) }
        ensures next { OnOk result (NextMoment (meaning self.old) (meaning self.new)) }
        ensures quiet { IsSome (meaning self.old).quiet → IsOk result };

    /// A second handle, where one is to be had. The device isn't asked.
    fn peer(&self) -> Option<Self::Peer>;

    /// How many calls failed so far. It stands at the last value of its type.
    fn faults(&self) -> u64
        ensures { result ≡ (meaning self.now).faults };

    /// The number of this moment: how many writes and syncs there were. 0 where moments aren't told.
    fn moment(&self) -> u64
        ensures { result ≡ (meaning self.now).moment };

    /// The parts of a meaning hang together.
    ghost sound: { (disk : Self) → IsSound (meaning disk) };
}
