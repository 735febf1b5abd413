//! A component that is coming.
ghost use Rattle.std.specs.Prelude.{◌≡◌, ◌⊎◌, ◌<◌, length};
ghost use Rattle.jc_packages.specs.Load.{empty_component, component_with_bytes, without_memory, command_result};

use crate::load_refusal::LoadRefusal;
use jc_cap::fault::CapFault;
use std::alloc::Global;
use std::marker::Model;

/// The most bytes of a component: its tag, its size, and as many bytes as that can count.
const MOST_BYTES: usize = 65_538;

/// A component that is coming: its tag, and the bytes that came.
#[derive(Drop)]
pub struct IncomingComponent {
    tag: u8,
    bytes: Vec<u8>,
}

impl Model for IncomingComponent {
    ghost use Rattle.std.specs.Prelude.{◌≤◌, length};
    ghost use Rattle.jc_packages.specs.Incoming.{IncomingValue};

    ghost Value = { IncomingValue };

    ghost view = { λ c. record { tag = c.tag; bytes = c.bytes.items } };

    ghost invariant = { λ c. length c.bytes.items ≤ 65538 };
}

impl IncomingComponent {
    /// Nothing has come yet.
    pub(crate) fn new(alloc: Global, tag: u8) -> IncomingComponent
        ensures { result ≡ empty_component tag }
    {
        IncomingComponent {
            tag,
            bytes: Vec::new(alloc),
        }
    }

    /// More bytes: Trailing, where they are more than any component has; else memory is asked for. Where it is
    /// refused, none are taken.
    pub(crate) fn append(&mut self, more: &[u8]) -> Result<(), LoadRefusal>
        ensures { (command_result result self.new ≡ component_with_bytes more.now self.old)
            ⊎ (command_result result self.new
            ≡ without_memory self.old (component_with_bytes more.now self.old)) }
    {
        if self.bytes.len() + more.len() > MOST_BYTES {
            return Err(LoadRefusal::BadComponents(CapFault::Trailing));
        }
        match self.bytes.extend_from_slice(more) {
            Ok(()) => Ok(()),
            Err(_) => Err(LoadRefusal::BadComponents(CapFault::NoMemory)),
        }
    }

    /// Its tag.
    pub(crate) fn tag(&self) -> u8
        ensures { result ≡ self.now.tag }
    {
        self.tag
    }

    /// The bytes that have come.
    pub(crate) fn bytes(&self) -> &[u8]
        ensures bytes { result.now ≡ self.now.bytes }
        ensures small { length result.now < 65539 }
    {
        &self.bytes
    }

    /// The bytes that came.
    pub(crate) fn into_bytes(self) -> Vec<u8>
        ensures bytes { result.items ≡ self.bytes }
        ensures small { length result.items < 65539 }
    {
        self.bytes
    }
}
