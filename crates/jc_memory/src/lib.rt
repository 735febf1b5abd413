//! The memory of a card that is up: what code may do to it, as data, and the calls that do it, which ask room for all their changes before the
//! first one.
#![tactic(auto)]

mod adding;
mod apdu;
mod bytes;
mod cells;
mod commands;
mod commit_capacity;
mod copying;
mod filling;
mod flags;
mod images;
mod kept;
mod making;
mod marks;
mod memory;
mod notes;
mod program_laws;
mod registers;
mod shortages;
mod transaction;

pub use commands::{
    MOST_SHORT, data_of, data_offset, has_extended_length, header_length, lc_of, most_answer,
    two_bytes,
};
pub use commit_capacity::{
    has_space, lacks_capacity, make_within_capacity, register_within_capacity, set_within_capacity,
    write_within_capacity,
};
pub use kept::Kept;
pub use making::NewObject;
pub use marks::{Marks, unset_flags};
pub use memory::{MOST_COMMAND, MOST_FIXED, MOST_SENT, Memory, Rooms};
pub use notes::{
    Cause, Denial, FaultKind, MOST_AID, MOST_SPOTS, Member, MemberKind, Note, Notes, Phase,
    RefusedLoad, Shortage, Space, Spot, Step, TopCell,
};
pub use program_laws::{
    aborts_null_dead_references, calls_follow_one_another, losses_fall_before_a_move,
    new_references_are_fresh,
};
pub use registers::{ApduPhase, ApduState, Depth, Installation, Registers};
