//! The channel that ids go over.
use crossbeam_channel::{Receiver, Sender, bounded};
use object_id::Id;
use std::alloc::{AllocError, Global};
use std::sync::Wait;

// How many ids wait at most.
const ROOM: usize = 1024;

/// Where ids are sent to.
#[derive(Drop)]
pub struct IdsTo {
    sender: Sender<Id>,
}

/// Where derivers take ids from. None comes any more once each `IdsTo` is gone and each id is taken.
#[derive(Drop)]
pub struct IdsFrom {
    pub(crate) receiver: Receiver<Id>,
}

/// A channel on which 1,024 ids wait at most. Its memory is taken here.
pub fn ids_channel(alloc: Global) -> Result<(IdsTo, IdsFrom), AllocError> {
    let (sender, receiver) = bounded(alloc, ROOM)?;
    Ok((IdsTo { sender }, IdsFrom { receiver }))
}

impl IdsTo {
    /// Sends an id, or drops it where no more can wait. It never waits for a deriver.
    pub fn send<R: Wait>(&self, rt: &R, id: Id) {
        let _ = self.sender.try_send(rt, id);
    }
}

impl Clone for IdsTo {
    fn clone(&self) -> Result<IdsTo, AllocError> {
        Ok(IdsTo {
            sender: self.sender.clone()?,
        })
    }
}

impl Clone for IdsFrom {
    fn clone(&self) -> Result<IdsFrom, AllocError> {
        Ok(IdsFrom {
            receiver: self.receiver.clone()?,
        })
    }
}
