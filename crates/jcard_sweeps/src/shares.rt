//! The part of a list that one of several runs has.
ghost use Rattle.std.specs.Prelude.{◌≡◌, ◌<◌};
ghost use Rattle.jcard_sweeps.specs.Shares.{share_in, share_size};

use jcard_outcomes::part::Share;

/// The items in a part: as many as in each other one, but for the last ones, which have fewer, or none.
pub fn share_in<T>(items: &[T], share: Share) -> &[T]
    requires { share.first < share.step }
    ensures { result.now ≡ share_in share items.now }
{
    let size = share_size(items.len(), usize::from(share.step));
    let start = usize::from(share.first).saturating_mul(size);
    if start >= items.len() {
        return &items[..0];
    }
    let rest = &items[start..];
    if rest.len() < size {
        return rest;
    }
    &rest[..size]
}

// How many of this many items each part has.
fn share_size(items: usize, parts: usize) -> usize
    requires { 0 < parts }
    ensures { result ≡ share_size items parts }
{
    if items % parts == 0 {
        return items / parts;
    }
    items / parts + 1
}
