//! The classes of a package, linked.
ghost use Rattle.std.specs.Prelude.{◌≡◌, ◌+◌, ◌≤◌, ◌<◌, [], length, map, IfOk};
ghost use Rattle.jc_cap.specs.ClassLists.{implemented_value};
ghost use Rattle.jc_linker.specs.Linking.{cells_above, class_by_record, class_of, classes_behind, implementation_of, superinterface_of, word_of};

use crate::class::{LinkedClass, LinkedInterface, TokenTable};
use crate::copies::{bytes, numbers, outline};
use crate::scope::Scope;
use jc_cap::class_lists::{ClassRefs, ImplementedInterface, ImplementedInterfaces};
use jc_cap::class_records::{ClassInfo, ClassRecord};
use jc_cap::class_refs::ClassRef;
use jc_cap::classes::Classes;
use jc_transient::{ClassWord, NO_CLASS};
use std::alloc::{AllocError, Global};

/// What the names of classes are looked up in: the packages that were loaded, and after them the one that is being
/// linked, of whose classes the offsets are known.
#[derive(Drop)]
pub(crate) struct Linking<'a> {
    pub(crate) loaded: &'a Scope<'a>,
    pub(crate) names: &'a Scope<'a>,
    /// The number of the package that is being linked.
    pub(crate) number: u8,
}

impl Linking<'_> {
    /// The classes of these records.
    pub(crate) fn classes(
        &self,
        alloc: Global,
        classes: &Classes<'_>,
    ) -> Result<Vec<LinkedClass>, AllocError>
        requires { length classes.now ≤ 256 }
        ensures linked { IfOk result (λ done. done.items
            ≡ classes_behind self.now.loaded.now self.now.names.now self.now.number []
            classes.now) }
        ensures few { IfOk result (λ done. length done.items ≤ 256) }
    {
        let mut done = Vec::new(alloc);
        for number in 0..classes.count() {
            let told = classes.get(number);
            let class = self.class(alloc, &done, classes.offset(number), told)?;
            done.push(class)?;
        }
        Ok(done)
    }

    fn class(
        &self,
        alloc: Global,
        done: &[LinkedClass],
        offset: u16,
        told: ClassRecord<'_>,
    ) -> Result<LinkedClass, AllocError>
        ensures { IfOk result (λ class. class ≡ class_by_record self.now.loaded.now
            self.now.names.now self.now.number done.now offset told.entry) }
    {
        match told {
            ClassRecord::Class(info) => self.class_of(alloc, done, offset, info),
            ClassRecord::Interface(info) => {
                let mut class = outline(alloc, offset);
                class.is_interface = true;
                class.interfaces = self.superinterfaces(alloc, &info.superinterfaces)?;
                Ok(class)
            }
        }
    }

    fn class_of(
        &self,
        alloc: Global,
        done: &[LinkedClass],
        offset: u16,
        info: ClassInfo<'_>,
    ) -> Result<LinkedClass, AllocError>
        ensures { IfOk result (λ class. class ≡ class_of self.now.loaded.now self.now.names.now
            self.now.number done.now offset info.entry) }
    {
        let superclass = self.word_of(info.superclass);
        let interfaces = self.implementations(alloc, info.interfaces)?;
        let public_offsets = numbers(alloc, &info.tables.public_methods)?;
        let package_offsets = numbers(alloc, &info.tables.package_methods)?;
        Ok(LinkedClass {
            offset,
            is_interface: false,
            superclass,
            interfaces,
            inherited_cells: self.cells_above(done, superclass),
            declared_cells: info.declared_instance_size,
            first_reference: info.references.first_token,
            reference_count: info.references.count,
            public_methods: TokenTable {
                base: info.tables.public_base,
                offsets: public_offsets,
            },
            package_methods: TokenTable {
                base: info.tables.package_base,
                offsets: package_offsets,
            },
        })
    }

    // The class that a reference names, 0 for none.
    fn word_of(&self, class: ClassRef) -> ClassWord
        ensures { result ≡ word_of self.now.names.now self.now.number class }
    {
        self.names
            .class_named(self.number, class)
            .unwrap_or(NO_CLASS)
    }

    fn cells_above(&self, done: &[LinkedClass], word: ClassWord) -> u32
        ensures cells { result ≡ cells_above self.now.loaded.now self.now.number done.now word }
        ensures few { result ≤ 65536 }
    {
        let cells = if word.0 / 256 == u16::from(self.number) {
            done.get((word.0 % 256) as usize)
                .map_or(0, |class| class.cells())
        } else {
            self.loaded.size_of(word)
        };
        cells.min(65536)
    }

    fn superinterfaces(
        &self,
        alloc: Global,
        list: &ClassRefs<'_>,
    ) -> Result<Vec<LinkedInterface>, AllocError>
        ensures { IfOk result (λ made. made.items ≡ map
            (superinterface_of self.now.names.now self.now.number) list.now) }
    {
        let mut made = Vec::new(alloc);
        for place in 0..list.count() {
            made.push(self.superinterface(alloc, list.get(place)))?;
        }
        Ok(made)
    }

    fn implementations(
        &self,
        alloc: Global,
        list: ImplementedInterfaces<'_>,
    ) -> Result<Vec<LinkedInterface>, AllocError>
        ensures { IfOk result (λ made. made.items ≡ map
            (implementation_of self.now.names.now self.now.number) list.entry) }
    {
        let mut made = Vec::new(alloc);
        let mut rest = list;
        while let Some((info, others)) = rest.split_first() {
            let implementation = self.implementation(alloc, info)?;
            made.push(implementation)?;
            rest = others;
        }
        Ok(made)
    }

    fn superinterface(&self, alloc: Global, class: ClassRef) -> LinkedInterface
        ensures { result ≡ superinterface_of self.now.names.now self.now.number class }
    {
        LinkedInterface {
            interface: self.word_of(class),
            tokens: Vec::new(alloc),
        }
    }

    fn implementation(
        &self,
        alloc: Global,
        info: ImplementedInterface<'_>,
    ) -> Result<LinkedInterface, AllocError>
        ensures { IfOk result (λ made. made ≡ implementation_of self.now.names.now self.now.number
            (implemented_value info.entry)) }
    {
        Ok(LinkedInterface {
            interface: self.word_of(info.interface),
            tokens: bytes(alloc, info.tokens)?,
        })
    }
}
