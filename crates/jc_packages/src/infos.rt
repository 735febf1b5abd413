//! The infos of components.
ghost use Rattle.std.specs.Prelude.{◌≡◌};
ghost use Rattle.jc_packages.specs.LinkerView.{info_of_component};

use jc_cap::envelope::info_of;

/// The info of a component with this tag; none of its bytes, where the bytes are no such component.
pub(crate) fn info_in(tag: u8, text: &[u8]) -> &[u8]
    ensures { result.now ≡ info_of_component tag text.entry.now }
{
    match info_of(tag, text) {
        Ok(info) => info,
        Err(_) => &[],
    }
}
