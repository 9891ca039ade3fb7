//! An opener over memory.
ghost use Rattle.std.specs.Prelude.{◌≡◌, ◌↔◌, ◌||◌, [], Some, None, IfOk, IfSome, IfNone, OnOk, OnErr, IsErr, IsTrue, is_err, is_some, not, position, if◌then◌else◌};
ghost use Rattle.std.specs.Option.{ForSome, option_map};
ghost use Rattle.ports.specs.Faults.{Counts};
ghost use Rattle.ports.specs.Memory.{fails_at, raised};
ghost use Rattle.ports.specs.Openers.{given, left, taken_out};
ghost use Rattle.ports.specs.Shelves.{has_name, held_by, shelf_in};

use crate::failed::Failed;
use crate::opener::Opener;
use std::marker::Model;

/// A name, with what it has until that is taken out.
#[derive(Drop)]
pub struct Slot<D> {
    pub name: String,
    pub held: Option<D>,
}

/// An opener over memory, which tells what stands under its names. The calls of the list `failing`
/// fail, counted from 0.
#[derive(Drop)]
pub struct MemOpener<D> {
    named: Vec<Slot<D>>,
    empty: Vec<D>,
    failing: Vec<u64>,
    calls: u64,
    faults: u64,
}

impl<D> Model for MemOpener<D> {
    ghost use Rattle.ports.specs.Memory.{Stock};
    ghost use Rattle.ports.specs.Shelves.{shelf_in};

    ghost Value = { Stock D };

    ghost view = { λ o. record { shelf = shelf_in o.named.items o.empty.items; failing = o.failing.items; calls = o.calls; faults = o.faults } };
}

impl<D> MemOpener<D> {
    /// An opener of these names, which gives a new name one of the empty ones, the last first.
    pub fn new(named: Vec<Slot<D>>, empty: Vec<D>, failing: Vec<u64>) -> Self
        ensures { result ≡ record { shelf = shelf_in named.items empty.items; failing = failing.items; calls = 0; faults = 0 } }
    {
        MemOpener {
            named,
            empty,
            failing,
            calls: 0,
            faults: 0,
        }
    }
}

impl<D> Opener<D> for MemOpener<D> {
    ghost faults = { λ o. o.faults };

    ghost shelf = { λ o. Some o.shelf };

    fn open(&mut self, name: &str, create: bool) -> Result<D, Failed>
        ensures gives { IfOk result (λ disk. ForSome (Some self.old.shelf) (λ s. given name.now create s ≡ Some disk)) }
        ensures left { OnOk result (Some self.new.shelf ≡ option_map (left name.now create) (Some self.old.shelf)) }
        ensures err { OnErr result (Some self.new.shelf ≡ Some self.old.shelf) }
        ensures faults { Counts self.old.faults self.new.faults (is_err result) }
        ensures fails { IsErr result ↔ IsTrue (fails_at self.old.failing self.old.calls || not (is_some (given name.now create self.old.shelf))) }
        ensures calls { (self.new.calls ≡ raised self.old.calls) × (self.new.faults ≡ (if is_err result then raised self.old.faults else self.old.faults)) }
        ensures same { self.new.failing ≡ self.old.failing }
    {
        let call = self.calls;
        self.calls = call.saturating_add(1);
        if !self.failing.contains(&call) {
            if let Some(disk) = take_out(&mut self.named, &mut self.empty, name, create) {
                return Ok(disk);
            }
        }
        self.faults = self.faults.saturating_add(1);
        Err(Failed)
    }
}

// What the name has, or for a new name the last of the empty ones.
fn take_out<D>(named: &mut Vec<Slot<D>>, empty: &mut Vec<D>, name: &str, create: bool) -> Option<D>
    ensures gives { result ≡ given name.now create (shelf_in named.old.items empty.old.items) }
    ensures left { IfSome result (λ _. shelf_in named.new.items empty.new.items ≡ left name.now create (shelf_in named.old.items empty.old.items)) }
    ensures same { IfNone result (shelf_in named.new.items empty.new.items ≡ shelf_in named.old.items empty.old.items) }
{
    match take_named(named, name) {
        Some(held) => held,
        None => { if create { empty.pop() } else { None } }
    }
}

// What the name has, taken out, and none where no slot has the name.
fn take_named<D>(named: &mut Vec<Slot<D>>, name: &str) -> Option<Option<D>>
    ensures held { result ≡ held_by name.now named.old.items }
    ensures left { (shelf_in named.new.items []).named ≡ taken_out name.now (shelf_in named.old.items []).named }
{
    match place_of(named, name) {
        Some(at) => {
            let slot = &mut named[at];
            Some(slot.held.take())
        }
        None => None,
    }
}

// The first slot that has the name.
fn place_of<D>(named: &Vec<Slot<D>>, name: &str) -> Option<usize>
    ensures { result ≡ position (has_name name.now) named.now.items }
{
    named.iter().position(|slot| slot.name.as_str() == name)
}
