//! Why a text is no page of a log.
ghost use Rattle.std.specs.Prelude.{◌≡◌};
ghost use Rattle.page_reader.specs.declared.page_fault.PageFault.TheVariants.{Memory};

use std::alloc::{AllocError, AllocFailed};
use thiserror::Error;

/// What is wrong with a text that stands in a page's place.
#[derive(Clone, Copy, Debug, PartialEq, Eq, Error)]
pub enum PageFault {
    /// It is no JSON (RFC 8259), or it nests deeper than 127 arrays and objects.
    #[error("this is no JSON")]
    BadJson,
    /// A part of a page isn't there, or isn't what it has to be.
    #[error("a part of the page is missing or isn't what it has to be")]
    BadPart,
    /// It has more than 100 entries, or its total doesn't fit its entries.
    #[error("the entries and the total of the page don't go together")]
    BadCount,
    /// It is another text than the one of its page: numbers that don't rise by one from the first, further members,
    /// spaces, or an order of its own.
    #[error("this isn't the text of the page that it tells")]
    OtherText,
    /// Memory ran out.
    #[error("memory ran out")]
    Memory,
}

impl From<AllocError> for PageFault {
    ghost from_gives = { λ _ e. e ≡ Memory };

    fn from(_e: AllocError) -> PageFault {
        PageFault::Memory
    }
}

impl<T: Drop> From<AllocFailed<T>> for PageFault {
    ghost from_gives = { λ _ e. e ≡ Memory };

    fn from(_e: AllocFailed<T>) -> PageFault {
        PageFault::Memory
    }
}
