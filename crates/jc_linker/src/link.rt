//! Linking a package.
ghost use Rattle.std.specs.Prelude.{◌≡◌, ◌<◌, ◌≤◌, ◌++◌, [], ◌∷◌, Err, IfOk, OnOk, length};
ghost use Rattle.jc_cap.specs.Views.{package_contents};
ghost use Rattle.jc_linker.specs.Answers.{Answers, then_on};
ghost use Rattle.jc_linker.specs.Imports.{AreFound};
ghost use Rattle.jc_linker.specs.Linking.{classes_behind, if_complete, link_result, next_number, targets_from, with_package};
ghost use Rattle.jc_linker.specs.Outlines.{components_of};

use crate::class::LinkedClass;
use crate::classes_linked::Linking;
use crate::fault::LinkFault;
use crate::linked::Linked;
use crate::package::LinkedPackage;
use crate::scope::Scope;
use crate::target::Target;
use jc_cap::classes::Classes;
use jc_cap::contents::Contents;
use jc_cap::pool::ConstantPool;
use std::alloc::{AllocError, Global};

/// Links a package of these contents against those that are there. Its Method component has this info. What each entry of its
/// constant pool resolves to is found here, once.
///
/// The fault is that of the first import that fails; else the lowest index of an entry that does not resolve; else 65535
/// where the Class component names what is not there. Memory is asked for once all imports are found.
pub fn link(
    alloc: Global,
    linked: &Linked,
    contents: &Contents<'_>,
    methods: &[u8],
) -> Result<LinkedPackage, LinkFault>
    requires room { length linked.now.loaded < 32 }
    requires few { length contents.now.classes ≤ 256 }
    ensures answer { Answers (λ added. added) result (link_result linked.now
        (components_of methods.now (package_contents contents.now))) }
    ensures found { result ≡ Err LinkFault.NoMemory
        → AreFound linked.now contents.now.imports }
{
    let mut package = LinkedPackage::empty(alloc);
    package.link(alloc, linked, contents, methods)?;
    Ok(package)
}

impl LinkedPackage {
    // The same in a package without targets.
    #[tactic(auto, unfolding(crate::specs::Linking::link_result))]
    fn link(
        &mut self,
        alloc: Global,
        linked: &Linked,
        contents: &Contents<'_>,
        methods: &[u8],
    ) -> Result<(), LinkFault>
        requires room { length linked.now.loaded < 32 }
        requires few { length contents.now.classes ≤ 256 }
        requires bare { self.old.targets ≡ [] }
        ensures answer { Answers (λ _. self.new) result (link_result linked.now
            (components_of methods.now (package_contents contents.now))) }
        ensures found { result ≡ Err LinkFault.NoMemory
            → AreFound linked.now contents.now.imports }
    {
        self.imports = linked.import_numbers(alloc, &contents.imports)?;
        self.outline(alloc, contents, methods)?;
        self.classes = linked_classes(alloc, linked, self, &contents.classes)?;
        self.targets = all_targets(alloc, linked, self, &contents.pool)?;
        Ok(())
    }
}

// The classes of the records. Names are looked up in the package as it is outlined.
fn linked_classes(
    alloc: Global,
    linked: &Linked,
    outlined: &LinkedPackage,
    records: &Classes<'_>,
) -> Result<Vec<LinkedClass>, AllocError>
    requires room { length linked.now.loaded < 32 }
    requires few { length records.now ≤ 256 }
    ensures classes { IfOk result (λ made. made.items ≡ classes_behind linked.now
        (with_package linked.now outlined.now) (next_number linked.now) [] records.now) }
    ensures few { IfOk result (λ made. length made.items ≤ 256) }
{
    let loaded = linked.scope();
    let names = linked.scope_with(outlined);
    let linking = Linking {
        loaded: &loaded,
        names: &names,
        number: linked.count() as u8 + 1,
    };
    linking.classes(alloc, records)
}

// What the entries of the package resolve to, if its classes are whole.
fn all_targets(
    alloc: Global,
    linked: &Linked,
    outlined: &LinkedPackage,
    pool: &ConstantPool<'_>,
) -> Result<Vec<Target>, LinkFault>
    requires { length linked.now.loaded < 32 }
    ensures { Answers (λ targets. record outlined.now { targets = targets.items }) result (then_on
        (targets_from (with_package linked.now outlined.now) (next_number linked.now) 0 pool.now)
        (if_complete linked.now outlined.now)) }
{
    let number = linked.count() as u8 + 1;
    let scope = linked.scope_with(outlined);
    let targets = scope.targets(alloc, number, pool)?;
    if !scope.are_complete(number, &outlined.classes) {
        return Err(LinkFault::Unresolved(65535));
    }
    Ok(targets)
}

impl Scope<'_> {
    // What the entries resolve to, or the index of the first that does not.
    fn targets(
        &self,
        alloc: Global,
        number: u8,
        pool: &ConstantPool<'_>,
    ) -> Result<Vec<Target>, LinkFault>
        ensures { Answers (λ targets. targets.items) result
            (targets_from self.now number 0 pool.now) }
    {
        let mut targets = Vec::new(alloc);
        for index in 0..pool.count() {
            let target = match self.resolution(number, pool.get(index)) {
                Some(target) => target,
                None => return Err(LinkFault::Unresolved(index)),
            };
            push_item(&mut targets, target)?;
        }
        Ok(targets)
    }
}

// Adds an item. It is of any type, since the prover does not yet cover a push of a value with a class in an `Option`.
fn push_item<T: Copy>(items: &mut Vec<T>, item: T) -> Result<(), AllocError>
    ensures { OnOk result (items.new.items ≡ items.old.items ++ item ∷ []) }
{
    items.push(item)?;
    Ok(())
}
