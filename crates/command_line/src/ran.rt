//! What a run of the program came to.
ghost use Rattle.std.specs.Prelude.{◌≡◌, None};
ghost use Rattle.command_line.specs.Outside.{none_served};

use crate::Status;
use crate::came::Came;
use blob_disk::MemDisk;
use http_front::connection::ServedLinks;

/// What a run of the program came to: its status, the file that it opened, the other file where it copied one, the disk of the load
/// that it made in memory, how many connections it served, the link to the server that it followed, and what is left of what links come
/// from.
#[derive(Drop)]
pub struct Ran<D, A, K: Drop> {
    pub status: Status,
    pub disk: Option<D>,
    pub other: Option<D>,
    pub load: Option<MemDisk>,
    pub served: ServedLinks<K>,
    pub link: Option<K>,
    pub accept: A,
}

/// A command that takes no connection and makes no load.
pub(crate) fn apart<D, A, K: Drop>(came: Came<D>, accept: A) -> Ran<D, A, K>
    ensures status { result.status ≡ came.status }
    ensures disk { result.disk ≡ came.disk }
    ensures other { result.other ≡ None }
    ensures load { result.load ≡ None }
    ensures served { result.served ≡ none_served }
    ensures link { result.link ≡ None }
    ensures accept { result.accept ≡ accept }
{
    beside(came, None, accept)
}

/// The same of one that opened another file too.
pub(crate) fn beside<D, A, K: Drop>(came: Came<D>, other: Option<D>, accept: A) -> Ran<D, A, K>
    ensures status { result.status ≡ came.status }
    ensures disk { result.disk ≡ came.disk }
    ensures other { result.other ≡ other }
    ensures load { result.load ≡ None }
    ensures served { result.served ≡ none_served }
    ensures link { result.link ≡ None }
    ensures accept { result.accept ≡ accept }
{
    Ran {
        status: came.status,
        disk: came.disk,
        other,
        load: None,
        served: ServedLinks::new(),
        link: None,
        accept,
    }
}

/// A load, which takes no connection and opens no file.
pub(crate) fn loaded<D, A, K: Drop>(
    status: Status,
    load: Option<MemDisk>,
    accept: A,
) -> Ran<D, A, K>
    ensures status { result.status ≡ status }
    ensures disk { result.disk ≡ None }
    ensures other { result.other ≡ None }
    ensures load { result.load ≡ load }
    ensures served { result.served ≡ none_served }
    ensures link { result.link ≡ None }
    ensures accept { result.accept ≡ accept }
{
    Ran {
        status,
        disk: None,
        other: None,
        load,
        served: ServedLinks::new(),
        link: None,
        accept,
    }
}
