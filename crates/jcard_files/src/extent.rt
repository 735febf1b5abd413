//! How large a new image is.
ghost use Rattle.std.specs.Prelude.{◌≤◌};
ghost use Rattle.jc_words.specs.Image.{IsCapacity};
ghost use Rattle.jc_words.specs.Layout.{least_size};
ghost use Rattle.jc_transient.specs.State.{AreSizes};

use jc_image::ImageRoom;

/// How many words an image has, 4096 to 65535, and what it has room for.
#[derive(Clone, Copy, Drop)]
pub struct Extent {
    pub count: u16,
    pub room: ImageRoom,
    ghost enough: { least_size ≤ count },
    ghost journal: { IsCapacity room.capacity },
    ghost cells: { AreSizes room.cells room.buffer },
}
