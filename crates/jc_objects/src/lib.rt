//! What stands in the heap of an image: objects, their cells, keys and the tries of PINs, and texts about them.
#![tactic(auto)]

pub mod bounds;
pub mod changes;
pub mod class_texts;
pub mod holders;
pub mod image_objects;
pub mod keys;
pub mod legend;
pub mod pins;
pub mod places;
pub mod records;
