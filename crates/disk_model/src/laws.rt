//! Laws of images, each the contract of a function that does nothing.
ghost use Rattle.std.specs.Prelude.{◌≡◌, ℕ, Bool, true, List};
ghost use Rattle.byte_fields.specs.Bytes.{IsBytes};
ghost use Rattle.std.specs.List.{AllByRecursion};
ghost use Rattle.disk_model.specs.Images.{Disk, DiskCall, Writes, Syncs, IsCall, IsImage, holding, after_call, disks};

/// At each moment what reads give may be what a crash leaves, and after a sync a crash leaves nothing else.
pub fn crash_may_leave_reads()
    ensures reads { (file : List ℕ) (calls : List DiskCall) → IsBytes file → AllByRecursion IsCall calls → AllByRecursion (λ d. IsImage d d.reads) (disks (holding file) calls) }
    ensures synced { (d : Disk) (image : List ℕ) → IsImage (after_call d (Syncs true)) image → image ≡ d.reads }
{}

/// A write, done or failed, takes away nothing that a crash may leave.
pub fn writes_keep_images()
    ensures { (d : Disk) (at : ℕ) (bytes : List ℕ) (done : Bool) (image : List ℕ) → IsImage d image → IsImage (after_call d (Writes at bytes done)) image }
{}
