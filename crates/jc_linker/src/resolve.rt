//! What the entries of constant pools resolve to.
ghost use Rattle.std.specs.Prelude.{◌≡◌, option_copied};
ghost use Rattle.jc_linker.specs.Classes.{class_in};
ghost use Rattle.jc_linker.specs.Resolve.{class_at_offset, class_named, class_with_token, export_of, field_target, foreign_field, foreign_method};
ghost use Rattle.jc_linker.specs.Resolve.{import_by_token, names_interface, resolution, static_method_by, super_target, virtual_target};

use crate::package::ExportedClass;
use crate::scope::Scope;
use crate::target::{Method, Target};
use jc_cap::class_refs::ClassRef;
use jc_cap::pool::{Entry, StaticRef, VirtualToken};
use jc_platform::names::MethodKind;
use jc_transient::ClassWord;

impl Scope<'_> {
    /// What an entry in the package with this number resolves to.
    #[tactic(auto, unfolding(crate::specs::Resolve::resolution))]
    pub(crate) fn resolution(&self, number: u8, entry: Entry) -> Option<Target>
        ensures { result ≡ resolution self.now number entry }
    {
        match entry {
            Entry::Class(class) => Some(Target::Class(self.class_named(number, class)?)),
            Entry::InstanceField { class, token } => {
                self.field_target(token, self.class_named(number, class)?)
            }
            Entry::VirtualMethod { class, token } => {
                self.virtual_target(token, self.class_named(number, class)?)
            }
            Entry::SuperMethod { class, token } => {
                self.super_target(token, self.class_named(number, class)?)
            }
            Entry::StaticField(place) => self.static_field_target(number, place),
            Entry::StaticMethod(place) => self.static_method_target(number, place),
        }
    }

    // What an entry for a static field resolves to.
    #[tactic(auto, unfolding(crate::specs::Resolve::resolution))]
    fn static_field_target(&self, number: u8, place: StaticRef) -> Option<Target>
        ensures { result ≡ resolution self.now number (Entry.StaticField place) }
    {
        match place {
            StaticRef::Internal(offset) => Some(Target::StaticField {
                package_number: number,
                offset,
            }),
            StaticRef::External {
                package_token,
                class_token,
                token,
            } => self.foreign_field(
                class_token,
                token,
                self.import_by_token(number, package_token)?,
            ),
        }
    }

    // What an entry for a static method resolves to.
    #[tactic(auto, unfolding(crate::specs::Resolve::resolution))]
    fn static_method_target(&self, number: u8, place: StaticRef) -> Option<Target>
        ensures { result ≡ resolution self.now number (Entry.StaticMethod place) }
    {
        match place {
            StaticRef::Internal(offset) => Some(Target::StaticMethod {
                class: None,
                method: Method::Code {
                    package_number: number,
                    offset,
                },
            }),
            StaticRef::External {
                package_token,
                class_token,
                token,
            } => self.foreign_method(
                class_token,
                token,
                self.import_by_token(number, package_token)?,
            ),
        }
    }

    /// The class that a reference in the package with this number names.
    #[tactic(auto, unfolding(crate::specs::Resolve::class_named))]
    pub(crate) fn class_named(&self, number: u8, class: ClassRef) -> Option<ClassWord>
        ensures { result ≡ class_named self.now number class }
    {
        match class {
            ClassRef::Internal(offset) => self.class_at_offset(number, offset),
            ClassRef::External {
                package_token,
                class_token,
            } => self.class_with_token(self.import_by_token(number, package_token)?, class_token),
        }
    }

    #[tactic(auto, unfolding(crate::specs::Resolve::class_at_offset))]
    fn class_at_offset(&self, number: u8, offset: u16) -> Option<ClassWord>
        ensures { result ≡ class_at_offset self.now number offset }
    {
        let place = self.package(number)?.class_index(offset)?;
        Some(ClassWord(256 * u16::from(number) + u16::from(place)))
    }

    // The number of the package that a package imports by a token.
    #[tactic(auto, unfolding(crate::specs::Resolve::import_by_token))]
    fn import_by_token(&self, number: u8, token: u8) -> Option<u8>
        ensures { result ≡ import_by_token self.now number token }
    {
        self.package(number)?.imports.get(token as usize).copied()
    }

    #[tactic(auto, unfolding(crate::specs::Resolve::class_with_token))]
    fn class_with_token(&self, number: u8, token: u8) -> Option<ClassWord>
        ensures { result ≡ class_with_token self.now number token }
    {
        if let Some(package) = self.package(number) {
            let place = package.class_index(package.exports.get(token as usize)?.class_offset)?;
            return Some(ClassWord(256 * u16::from(number) + u16::from(place)));
        }
        let home = self.platform.package(number)?;
        let class = self.platform.class_by_token(home, token)?;
        Some(self.platform.class_word(class))
    }

    /// The class is an interface.
    #[tactic(auto, unfolding(crate::specs::Resolve::names_interface))]
    pub(crate) fn names_interface(&self, class: ClassWord) -> bool
        ensures { result ≡ names_interface self.now class }
    {
        if let Some(loaded) = self.loaded_class(class) {
            return loaded.is_interface;
        }
        match self.platform.class_by_word(class) {
            Some(named) => named.is_interface(),
            None => false,
        }
    }

    #[tactic(auto, unfolding(crate::specs::Resolve::field_target))]
    fn field_target(&self, token: u8, class: ClassWord) -> Option<Target>
        ensures { result ≡ field_target self.now token class }
    {
        let loaded = self.loaded_class(class)?;
        if token >= loaded.declared_cells {
            return None;
        }
        Some(Target::InstanceField {
            class,
            cell: loaded.inherited_cells + u32::from(token),
            is_reference: loaded.declares_reference(u32::from(token)),
        })
    }

    #[tactic(auto, unfolding(crate::specs::Resolve::virtual_target))]
    fn virtual_target(&self, token: VirtualToken, class: ClassWord) -> Option<Target>
        ensures { result ≡ virtual_target self.now token class }
    {
        if self.names_interface(class) {
            return None;
        }
        let method = self.method_at(class, (class.0 / 256) as u8, token)?;
        Some(Target::VirtualMethod {
            class,
            token,
            method,
        })
    }

    #[tactic(auto, unfolding(crate::specs::Resolve::super_target))]
    fn super_target(&self, token: VirtualToken, class: ClassWord) -> Option<Target>
        ensures { result ≡ super_target self.now token class }
    {
        let above = self.superclass(class)?;
        let method = self.method_at(above, (class.0 / 256) as u8, token)?;
        Some(Target::SuperMethod { class, method })
    }

    #[tactic(auto, unfolding(crate::specs::Resolve::export_of))]
    fn export_of(&self, number: u8, class_token: u8) -> Option<&ExportedClass>
        ensures { option_copied result ≡ export_of self.now number class_token }
    {
        self.package(number)?.exports.get(class_token as usize)
    }

    #[tactic(auto, unfolding(crate::specs::Resolve::foreign_field))]
    fn foreign_field(&self, class_token: u8, token: u8, number: u8) -> Option<Target>
        ensures { result ≡ foreign_field self.now class_token token number }
    {
        let export = self.export_of(number, class_token)?;
        let offset = export.field_offsets.get(token as usize).copied()?;
        Some(Target::StaticField {
            package_number: number,
            offset,
        })
    }

    #[tactic(auto, unfolding(crate::specs::Resolve::foreign_method))]
    fn foreign_method(&self, class_token: u8, token: u8, number: u8) -> Option<Target>
        ensures { result ≡ foreign_method self.now class_token token number }
    {
        let class = self.class_with_token(number, class_token)?;
        let method = self.static_method(number, class, class_token, token)?;
        Some(Target::StaticMethod {
            class: Some(class),
            method,
        })
    }

    fn static_method(
        &self,
        number: u8,
        class: ClassWord,
        class_token: u8,
        token: u8,
    ) -> Option<Method>
        ensures { result ≡ static_method_by self.now number class token
            (export_of self.now number class_token) }
    {
        if let Some(export) = self.export_of(number, class_token) {
            let offset = export.method_offsets.get(token as usize).copied()?;
            return Some(Method::Code {
                package_number: number,
                offset,
            });
        }
        let named = self.platform.class_by_word(class)?;
        let method = self
            .platform
            .method_by_token(named, MethodKind::Static, token)?;
        Some(Method::Native(method))
    }
}
