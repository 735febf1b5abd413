//! What calls of the platform's methods answer.

use jc_frames::Cell;
use jc_transient::{AppletNumber, Ref};

/// A server that is asked for its shareable interface object.
#[derive(Clone, Copy)]
pub struct ServerCall {
    /// The server's instance.
    pub server: Ref,
    /// The server: for it its method runs.
    pub owner: AppletNumber,
    /// The client's AID object, or null.
    pub client: Ref,
    /// What the client passes on.
    pub parameter: i16,
}

/// What a call of a platform's method answers.
#[derive(Clone, Copy)]
pub enum NativeResult {
    /// It returns nothing.
    ReturnVoid,
    /// It returns this.
    ReturnValue(Cell),
    /// It returns what the server answers, which is asked now.
    CallServer(ServerCall),
    /// It took the transaction back: references to what was made in it are dead.
    Aborted,
}
