//! What goes wrong with a file, in words.
use std::io::{Eprint, ErrorKind};
use std::{fmt, io};

/// Why a call of a file failed, for people.
#[derive(Drop)]
pub(crate) struct Cause<'a>(pub(crate) &'a io::Error);

impl fmt::Display for Cause<'_> {
    fn fmt<W: fmt::Write>(&self, f: &mut fmt::Formatter<W>) -> fmt::Result {
        let Cause(error) = self;
        match error.kind() {
            ErrorKind::NotFound => write!(f, "no such file"),
            ErrorKind::IsADirectory => write!(f, "is a directory"),
            ErrorKind::WouldBlock => write!(f, "is open in another program"),
            ErrorKind::ReadOnlyFilesystem => write!(f, "read-only"),
            ErrorKind::PermissionDenied => write!(f, "read-only, or no permission"),
            ErrorKind::UnexpectedEof => write!(f, "shorter than it was"),
            ErrorKind::StorageFull | ErrorKind::QuotaExceeded | ErrorKind::FileTooLarge => {
                write!(f, "no space left")
            }
            _ => write!(f, "{error}"),
        }
    }
}

/// Says on standard error why a call of this file failed. Where that can't be said, the count of faults alone has it.
pub(crate) fn tell<R: Eprint>(rt: &R, path: &str, error: &io::Error) {
    let cause = Cause(error);
    let _ = eprintln!(rt; "{path}: {cause}");
}

/// The same of a call that stores, after which no other is made.
pub(crate) fn tell_last<R: Eprint>(rt: &R, path: &str, error: &io::Error) {
    let cause = Cause(error);
    let _ = eprintln!(rt;
        "{path}: {cause}: nothing more is stored until the program is started again"
    );
}
