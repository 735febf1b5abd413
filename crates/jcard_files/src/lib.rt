//! The files of the program, on disk and in memory, the images that it makes in them, and why and how it ends early.
#![tactic(auto)]

pub mod closed_store;
pub mod disk;
pub mod extent;
pub mod fault;
pub mod image_file;
pub mod image_size;
pub mod mem_disk;
pub mod memory_image;
pub mod new_image;
pub mod operand;
pub mod reading;
pub mod remarks;
pub mod table_remarks;
pub mod text_file;
pub mod usual_table;
