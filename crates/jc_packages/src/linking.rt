//! Linking a package that was put together.
ghost use Rattle.std.specs.Prelude.{◌<◌, ◌≤◌, length, is_some, OnOk};
ghost use Rattle.jc_cap.specs.Views.{package_contents};
ghost use Rattle.jc_linker.specs.Lookups.{package_with_aid};
ghost use Rattle.jc_linker.specs.Linking.{link_result};
ghost use Rattle.jc_linker.specs.Answers.{Answers as AnswersLink};
ghost use Rattle.jc_packages.specs.LinkerView.{linker_view};
ghost use Rattle.jc_packages.specs.PendingPackages.{Answers, linked_as, linked_package, linked_texts};

use crate::infos::info_in;
use crate::load_refusal::LoadRefusal;
use jc_cap::assembling::Package;
use jc_cap::contents::Contents;
use jc_cap::tags::METHOD;
use jc_cap::texts::PackageBytes;
use jc_linker::fault::LinkFault;
use jc_linker::link::link;
use jc_linker::linked::{Linked, MOST_PACKAGES};
use jc_linker::package::LinkedPackage;
use std::alloc::Global;

// The package that these components are, linked against those that are there.
fn link_to(
    alloc: Global,
    linked: &Linked,
    texts: &PackageBytes,
    contents: &Contents<'_>,
) -> Result<LinkedPackage, LinkFault>
    requires room { length linked.now.loaded < 32 }
    requires few { length contents.now.classes ≤ 256 }
    ensures { AnswersLink (λ added. added) result (link_result linked.now
        (linker_view texts.now (package_contents contents.now))) }
{
    link(
        alloc,
        linked,
        contents,
        info_in(METHOD, texts.methods.bytes()),
    )
}

// The same, where its AID is new and there is a place for it.
#[tactic(auto, unfolding(crate::specs::PendingPackages::linked_package))]
fn link_contents(
    alloc: Global,
    linked: &Linked,
    texts: &PackageBytes,
    contents: &Contents<'_>,
) -> Result<LinkedPackage, LoadRefusal>
    requires few { length contents.now.classes ≤ 256 }
    ensures answer { Answers (linked_as texts.now) result (linked_package linked.now
        texts.now (package_contents contents.now)) }
    ensures room { OnOk result (length linked.now.loaded < 32) }
{
    if linked
        .package_with_aid(contents.header.this_package.aid)
        .is_some()
    {
        return Err(LoadRefusal::AidTaken);
    }
    if linked.count() >= MOST_PACKAGES {
        return Err(LoadRefusal::Full);
    }
    match link_to(alloc, linked, texts, contents) {
        Ok(addition) => Ok(addition),
        Err(fault) => Err(LoadRefusal::LinkFailed(fault)),
    }
}

/// Links a package against those that are there.
///
/// The first of these is answered: AidTaken; Full; the fault of linking. Want of memory is such a fault.
pub(crate) fn link_package(
    alloc: Global,
    linked: &Linked,
    whole: &Package,
) -> Result<LinkedPackage, LoadRefusal>
    ensures answer { Answers (linked_as whole.now) result (linked_texts linked.now whole.now) }
    ensures room { OnOk result (length linked.now.loaded < 32) }
{
    let contents = whole.contents();
    link_contents(alloc, linked, whole.texts(), &contents)
}
