//! Ids and entries that were spelled with another program, in hex.

/// The SHA-256 of `abc`.
pub(crate) const ABC: &str = "ba7816bf8f01cfea414140de5dae2223b00361a396177a9cb410ff61f20015ad";

/// The changeset without parents and edits, by `a`, and its id.
pub(crate) const CHANGESET: &str = "4301000001610000000000000000000000000000000000000000";

pub(crate) const OLD: &str = "ffb74880ae0d3038b6e6e402ea0840634c79efb3c927e280d44f36567ece7169";

/// The id of the changeset on it that sets `p` to `abc`.
pub(crate) const NEW: &str = "e8795b6f358309976a85a48b88590a7b77ffcdc1ce55d29a761853d4ff0669f0";

/// A changeset that sets `a` and `a/b`.
pub(crate) const CONFLICT: &str =
    "430100000161000000000000000000000000000000000000000200016101000000000000000000e3b0c44298fc1c149afbf4c8996fb92427ae41e4649b934ca495991b7852b8550003612f6201000000000000000000e3b0c44298fc1c149afbf4c8996fb92427ae41e4649b934ca495991b7852b855";

/// The content `abc`.
pub(crate) const CONTENT: &str = "42616263";

/// Moves of `main`: made and deleted at once, made, deleted, and moved.
pub(crate) const NO_HEADS: &str = "4d046d61696e0000";

pub(crate) const MADE: &str =
    "4d046d61696e0001ffb74880ae0d3038b6e6e402ea0840634c79efb3c927e280d44f36567ece7169";

pub(crate) const DELETED: &str =
    "4d046d61696e01ffb74880ae0d3038b6e6e402ea0840634c79efb3c927e280d44f36567ece716900";

pub(crate) const MOVED: &str =
    "4d046d61696e01ffb74880ae0d3038b6e6e402ea0840634c79efb3c927e280d44f36567ece716901e8795b6f358309976a85a48b88590a7b77ffcdc1ce55d29a761853d4ff0669f0";

/// A landing of one changeset on `main`.
pub(crate) const LANDING: &str =
    "4c046d61696effb74880ae0d3038b6e6e402ea0840634c79efb3c927e280d44f36567ece7169e8795b6f358309976a85a48b88590a7b77ffcdc1ce55d29a761853d4ff0669f0000100000067430101ffb74880ae0d3038b6e6e402ea0840634c79efb3c927e280d44f36567ece7169000161000000000000000000000000000000000000000100017001000000000000000003ba7816bf8f01cfea414140de5dae2223b00361a396177a9cb410ff61f20015ad";

/// The changeset of the second version on `OLD` that sets `p` to `abc`, as a copy of `q` there.
pub(crate) const COPY: &str =
    "430201ffb74880ae0d3038b6e6e402ea0840634c79efb3c927e280d44f36567ece7169000161000000000000000000000000000000000000000100017001000000000000000003ba7816bf8f01cfea414140de5dae2223b00361a396177a9cb410ff61f20015ad0100000171";

pub(crate) const COPY_ID: &str = "aa017163820219933c64f152c57bb41e98d64757ccdb3fd4f66bc1312ebb5b9e";

/// A landing of one changeset of the second version on `main`, at 1,700,000,000 seconds.
pub(crate) const DATED_LANDING: &str =
    "4e046d61696effb74880ae0d3038b6e6e402ea0840634c79efb3c927e280d44f36567ece7169ca32756d1ac9b931dbdbd840b55d544be43952b6ba8a065fd572a7fab2c46413000000006553f100000100000068430201ffb74880ae0d3038b6e6e402ea0840634c79efb3c927e280d44f36567ece7169000161000000006553f10000000000000000000000000100017001000000000000000003ba7816bf8f01cfea414140de5dae2223b00361a396177a9cb410ff61f20015ad00";

pub(crate) const DATED: &str = "ca32756d1ac9b931dbdbd840b55d544be43952b6ba8a065fd572a7fab2c46413";

/// `abcdef`, made of `abc` and `def`.
pub(crate) const WHOLE: &str =
    "57bef57ec7f53a6d40beb640a780a639c83bc29ac8a9816f1fc6c5c6dcd93c472100000000000000060002ba7816bf8f01cfea414140de5dae2223b00361a396177a9cb410ff61f20015adcb8379ac2098aa165029e3938a51da0bcecfc008fd6795f401178647f96c5b34";

/// The move `NO_HEADS`, by `alice`.
pub(crate) const CALLED: &str = "4105616c6963654d046d61696e0000";

/// A policy that `alice` set: `main alice` and the end of a line.
pub(crate) const POLICY: &str = "4105616c696365526d61696e20616c6963650a";
