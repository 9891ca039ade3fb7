//! Changesets and ids that were spelled with another program, in hex.

/// The SHA-256 of `abc`.
pub(crate) const ABC: &str = "ba7816bf8f01cfea414140de5dae2223b00361a396177a9cb410ff61f20015ad";

/// The changeset without parents and edits, by `a`, and its id.
pub(crate) const CHANGESET: &str = "4301000001610000000000000000000000000000000000000000";

pub(crate) const OLD: &str = "ffb74880ae0d3038b6e6e402ea0840634c79efb3c927e280d44f36567ece7169";

/// The changeset that sets `p` to `abc`, and its ids, without a parent and on the one above.
pub(crate) const SETS_P: &str =
    "430100000161000000000000000000000000000000000000000100017001000000000000000003ba7816bf8f01cfea414140de5dae2223b00361a396177a9cb410ff61f20015ad";

pub(crate) const SET_P: &str = "f23b8d897f505570be94c99c43b00ffd480458890be71bb81128c34b1c087a4f";

pub(crate) const NEW: &str = "e8795b6f358309976a85a48b88590a7b77ffcdc1ce55d29a761853d4ff0669f0";

/// A changeset with the parents `OLD` and `NEW`, a message of two lines, a set and two deletes, and its id.
pub(crate) const RICH: &str =
    "430102ffb74880ae0d3038b6e6e402ea0840634c79efb3c927e280d44f36567ece7169e8795b6f358309976a85a48b88590a7b77ffcdc1ce55d29a761853d4ff0669f00004c3a92078fffffffffffffffffffff1f00000000974776f0a6c696e6573000000030003612f62000003612e6201010000000000000003ba7816bf8f01cfea414140de5dae2223b00361a396177a9cb410ff61f20015ad0005612e622f6300";

pub(crate) const RICH_ID: &str = "b458918a940a2c60028e8eb10f84fa6abff3cded5576fee5c134b2c09d182df4";

/// The changeset of the second version on `OLD` that sets `q` to `abc`, copied from `p` of the first parent, and its id;
/// and the ids that it has when it is landed on `OLD` at the moment 1000, and at the last that a date can tell.
pub(crate) const COPY: &str =
    "430201ffb74880ae0d3038b6e6e402ea0840634c79efb3c927e280d44f36567ece7169000161000000000000000000000000000000000000000100017101000000000000000003ba7816bf8f01cfea414140de5dae2223b00361a396177a9cb410ff61f20015ad0100000170";

pub(crate) const COPY_ID: &str = "edc16c45d60124e767b543883ac3eb9cd185889e0159f4ec7f9706b9d1a9f1c9";

pub(crate) const COPY_AT_1000: &str =
    "9a25bac6ac765d106eda503abf211e3f5f8cf418ace51f0099801c1ca10a10d9";

pub(crate) const COPY_AT_LAST: &str =
    "27f64bed61b955763b6e111eb82794b4707b31f3a59cf36abe366ea96924f8b7";
