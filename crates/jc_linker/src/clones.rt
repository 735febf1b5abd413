//! Copies of linked packages.
ghost use Rattle.std.specs.Prelude.{◌≡◌, IfOk};

use crate::class::{LinkedClass, LinkedInterface, TokenTable};
use crate::linked::{Linked, MOST_PACKAGES};
use crate::package::{Applet, ExportedClass, LinkedPackage, PackageName};
use std::alloc::{AllocError, Global};

impl Linked {
    /// Another list with the same packages. Without memory for it, it answers the error.
    pub fn copy(&self, alloc: Global) -> Result<Linked, AllocError>
        ensures { IfOk result (λ copy. copy ≡ self.now) }
    {
        let mut loaded = Vec::with_capacity(alloc, MOST_PACKAGES)?;
        loaded.extend_with_clones(&self.loaded)?;
        Ok(Linked {
            platform: self.platform.copy(),
            loaded,
        })
    }
}

impl Clone for TokenTable {
    ghost is_clone = { λ table copy. copy ≡ table };

    fn clone(&self) -> Result<TokenTable, AllocError> {
        let offsets = Vec::from_slice(*self.offsets.allocator(), &self.offsets)?;
        Ok(TokenTable {
            base: self.base,
            offsets,
        })
    }
}

impl Clone for LinkedInterface {
    ghost is_clone = { λ listed copy. copy ≡ listed };

    fn clone(&self) -> Result<LinkedInterface, AllocError> {
        let tokens = Vec::from_slice(*self.tokens.allocator(), &self.tokens)?;
        Ok(LinkedInterface {
            interface: self.interface,
            tokens,
        })
    }
}

impl Clone for LinkedClass {
    ghost is_clone = { λ class copy. copy ≡ class };

    fn clone(&self) -> Result<LinkedClass, AllocError> {
        let interfaces = Vec::from_clones(*self.interfaces.allocator(), &self.interfaces)?;
        let public_methods = self.public_methods.clone()?;
        let package_methods = self.package_methods.clone()?;
        Ok(LinkedClass {
            offset: self.offset,
            is_interface: self.is_interface,
            superclass: self.superclass,
            interfaces,
            inherited_cells: self.inherited_cells,
            declared_cells: self.declared_cells,
            first_reference: self.first_reference,
            reference_count: self.reference_count,
            public_methods,
            package_methods,
        })
    }
}

impl Clone for PackageName {
    ghost is_clone = { λ name copy. copy ≡ name };

    fn clone(&self) -> Result<PackageName, AllocError> {
        let aid = Vec::from_slice(*self.aid.allocator(), &self.aid)?;
        Ok(PackageName {
            minor_version: self.minor_version,
            major_version: self.major_version,
            aid,
        })
    }
}

impl Clone for ExportedClass {
    ghost is_clone = { λ class copy. copy ≡ class };

    fn clone(&self) -> Result<ExportedClass, AllocError> {
        let alloc = *self.field_offsets.allocator();
        let field_offsets = Vec::from_slice(alloc, &self.field_offsets)?;
        let method_offsets = Vec::from_slice(alloc, &self.method_offsets)?;
        Ok(ExportedClass {
            class_offset: self.class_offset,
            field_offsets,
            method_offsets,
        })
    }
}

impl Clone for Applet {
    ghost is_clone = { λ applet copy. copy ≡ applet };

    fn clone(&self) -> Result<Applet, AllocError> {
        let aid = Vec::from_slice(*self.aid.allocator(), &self.aid)?;
        Ok(Applet {
            aid,
            install_offset: self.install_offset,
        })
    }
}

impl Clone for LinkedPackage {
    ghost is_clone = { λ linked copy. copy ≡ linked };

    fn clone(&self) -> Result<LinkedPackage, AllocError> {
        let mut copy = LinkedPackage::empty(*self.methods.allocator());
        copy.fill(self)?;
        Ok(copy)
    }
}

impl LinkedPackage {
    // Copies all that is in another package into this one.
    fn fill(&mut self, other: &LinkedPackage) -> Result<(), AllocError>
        ensures { IfOk result (λ _. self.new ≡ other.now) }
    {
        let alloc = *other.methods.allocator();
        self.name = other.name.clone()?;
        self.imports = Vec::from_slice(alloc, &other.imports)?;
        self.classes = Vec::from_clones(alloc, &other.classes)?;
        self.exports = Vec::from_clones(alloc, &other.exports)?;
        self.targets = Vec::from_slice(alloc, &other.targets)?;
        self.methods = Vec::from_slice(alloc, &other.methods)?;
        self.applets = Vec::from_clones(alloc, &other.applets)?;
        self.image_size = other.image_size;
        self.image_references = other.image_references;
        Ok(())
    }
}
