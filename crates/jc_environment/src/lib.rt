//! What the runtime environment keeps in the heap of an image: its own objects, by a list that follows the image's table, the registry of
//! applets, and PINs.
#![tactic(auto)]

mod aid;
mod applets;
pub mod objects;
pub mod pins;

pub use aid::{AID_CELLS, Aid, MOST_AID, aid_at};
pub use applets::{
    aid_of_applet, applet_count, applet_with_aid, entry_of_applet, has_aid, instance_of_applet,
    package_of_applet,
};
pub use objects::{
    APDU_BUFFER, APDU_OBJECT, FixedObject, MOST_OBJECTS, fixed_objects, own_place, sized_objects,
};
