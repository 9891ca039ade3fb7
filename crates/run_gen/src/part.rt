//! What one changeset of a stack does.
ghost use Rattle.std.specs.Prelude.{◌≡◌, ◌<◌, ◌≤◌, IfOk, IfSome, length, option_map, string_bytes};
ghost use Rattle.run_gen.specs.Stacks.{after_part, content_of, part_of};

use crate::draws::Draws;
use std::alloc::{AllocError, Global};

/// What one changeset of a stack does: at the path of a file in a directory it sets a number's text,
/// or deletes.
#[derive(Clone, Copy, Debug, PartialEq, Eq)]
pub struct Part {
    /// Below 8.
    pub directory: u64,
    /// Below 32.
    pub file: u64,
    /// Below 8. At 0 the part deletes.
    pub chance: u64,
    /// Below 1,000,000: what is set.
    pub number: u64,
}

impl Part {
    /// The next part.
    pub fn draw(draws: &mut Draws) -> Part
        ensures part { result ≡ part_of draws.old }
        ensures state { draws.new ≡ after_part draws.old }
        ensures directory { result.directory < 8 }
        ensures file { result.file < 32 }
        ensures number { result.number < 1_000_000 }
    {
        let directory = draws.below(8);
        let file = draws.below(32);
        let chance = draws.below(8);
        let number = draws.below(1_000_000);
        Part {
            directory,
            file,
            chance,
            number,
        }
    }

    /// The content that it sets, or `None` where it deletes.
    pub fn content(&self, alloc: Global) -> Result<Option<String>, AllocError>
        requires { self.now.number < 1_000_000 }
        ensures content { IfOk result (λ content. option_map string_bytes content ≡ content_of self.now) }
        ensures short { IfOk result (λ content. IfSome content (λ text. length (string_bytes text) ≤ 6)) }
    {
        if self.chance == 0 {
            return Ok(None);
        }
        let text = format!(in alloc; "{}", self.number)?;
        Ok(Some(text))
    }
}
