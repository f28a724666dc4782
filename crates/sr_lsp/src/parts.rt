//! The parts of a link-state PDU: an array for each kind, and their order beside them, so that a part takes no more memory
//! than its kind does.

ghost use Rattle.std.specs.Prelude.{◌≡◌, ◌<◌, length, IfOk, slice_index_or};
ghost use Rattle.sr_lsp.specs.Parts.{AreEmpty, IsPutAway, part_of};

use crate::capability::Capability;
use crate::name::Name;
use crate::prefix::Prefix;
use crate::reach::Reach;
use crate::risk::Risk;
use crate::table::Part;
use std::alloc::{AllocError, Global};
use std::marker::Model;

/// Where a part is kept: its kind, and its place among those of its kind.
#[derive(Clone, Copy, Debug)]
pub(crate) enum Spot {
    Reach(usize),
    Prefix(usize),
    Name(usize),
    Risk(usize),
    Capability(usize),
}

/// Parts, an array for each kind.
#[derive(Debug, Drop)]
pub(crate) struct Arrays {
    reaches: Vec<Reach>,
    prefixes: Vec<Prefix>,
    names: Vec<Name>,
    risks: Vec<Risk>,
    capabilities: Vec<Capability>,
}

/// The parts of a PDU in order of place. Contracts see them as their list.
#[derive(Debug, Drop)]
pub struct Parts {
    arrays: Arrays,
    order: Vec<Spot>,
}

impl Model for Parts {
    ghost use Rattle.std.specs.Prelude.{List, All};
    ghost use Rattle.sr_lsp.specs.declared.table.Part.{Part as Kept};
    ghost use Rattle.sr_lsp.specs.Spots.{IsInside, parts_by};

    ghost Value = { List Kept };

    ghost view = { λ p. parts_by p.arrays p.order.items };

    ghost invariant = { λ p. All (IsInside p.arrays) p.order.items };
}

/// A part where it is kept.
#[derive(Clone, Copy, Debug)]
pub enum PartRef<'a> {
    Reach(&'a Reach),
    Prefix(&'a Prefix),
    Name(&'a Name),
    Risk(&'a Risk),
    Capability(&'a Capability),
}

/// How many parts there are of each kind.
#[derive(Clone, Copy, Debug)]
struct Room {
    reaches: usize,
    prefixes: usize,
    names: usize,
    risks: usize,
    capabilities: usize,
}

/// How many of these parts are of each kind.
fn room_of(parts: &[Part]) -> Room {
    let mut room = Room {
        reaches: 0,
        prefixes: 0,
        names: 0,
        risks: 0,
        capabilities: 0,
    };
    for part in parts {
        match part {
            Part::Reach(_) => room.reaches += 1,
            Part::Prefix(_) => room.prefixes += 1,
            Part::Name(_) => room.names += 1,
            Part::Risk(_) => room.risks += 1,
            Part::Capability(_) => room.capabilities += 1,
        }
    }
    room
}

/// No parts, with room for that many.
fn with_room(alloc: Global, room: Room) -> Result<Arrays, AllocError>
    ensures { IfOk result AreEmpty }
{
    Ok(Arrays {
        reaches: Vec::with_capacity(alloc, room.reaches)?,
        prefixes: Vec::with_capacity(alloc, room.prefixes)?,
        names: Vec::with_capacity(alloc, room.names)?,
        risks: Vec::with_capacity(alloc, room.risks)?,
        capabilities: Vec::with_capacity(alloc, room.capabilities)?,
    })
}

/// Keeps a part behind the others of its kind.
fn keep(arrays: &mut Arrays, part: Part) -> Result<Spot, AllocError>
    ensures { IfOk result (IsPutAway arrays.old arrays.new part) }
{
    match part {
        Part::Reach(reach) => {
            let spot = Spot::Reach(arrays.reaches.len());
            arrays.reaches.push(reach)?;
            Ok(spot)
        }
        Part::Prefix(prefix) => {
            let spot = Spot::Prefix(arrays.prefixes.len());
            arrays.prefixes.push(prefix)?;
            Ok(spot)
        }
        Part::Name(name) => {
            let spot = Spot::Name(arrays.names.len());
            arrays.names.push(name)?;
            Ok(spot)
        }
        Part::Risk(risk) => {
            let spot = Spot::Risk(arrays.risks.len());
            arrays.risks.push(risk)?;
            Ok(spot)
        }
        Part::Capability(capability) => {
            let spot = Spot::Capability(arrays.capabilities.len());
            arrays.capabilities.push(capability)?;
            Ok(spot)
        }
    }
}

impl Parts {
    /// The parts of a vector. Fails only out of memory.
    pub fn new(alloc: Global, list: Vec<Part>) -> Result<Parts, AllocError>
        ensures { IfOk result (λ parts. parts ≡ list.items) }
    {
        let mut order = Vec::with_capacity(alloc, list.len())?;
        let mut arrays = with_room(alloc, room_of(&list))?;
        for part in list {
            order.push(keep(&mut arrays, part)?)?;
        }
        Ok(Parts { arrays, order })
    }

    /// How many parts there are.
    pub fn count(&self) -> usize
        ensures { result ≡ length self.now }
    {
        self.order.len()
    }

    /// The part at a place.
    pub fn at(&self, place: usize) -> PartRef<'_>
        requires { place < length self.now }
        ensures { part_of result ≡ slice_index_or self.now place (part_of result) }
    {
        match self.order[place] {
            Spot::Reach(at) => PartRef::Reach(&self.arrays.reaches[at]),
            Spot::Prefix(at) => PartRef::Prefix(&self.arrays.prefixes[at]),
            Spot::Name(at) => PartRef::Name(&self.arrays.names[at]),
            Spot::Risk(at) => PartRef::Risk(&self.arrays.risks[at]),
            Spot::Capability(at) => PartRef::Capability(&self.arrays.capabilities[at]),
        }
    }
}
