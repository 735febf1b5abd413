//! Laws of the definitions of scripts.
ghost use Rattle.law_theorems.specs.ScriptLaws.{AreSessions, AreWholeSessions, AskBytes, EndAsSessions};

/// However a script ends, the lines that were carried out are a session over its store: it is asked their commands and
/// resets, and to arm the fuse, in their order, its replies are what was written for them, and the store is the one
/// that it leaves. A bad line, a script that is too long and a reader that failed come after such lines; a power up
/// found a fault as a session's does; and where the writer failed, a beginning of that text was written. The commands
/// are of bytes, and a script ends as some session does. Where the store refused no write, a script that was carried
/// out to its end is a session of a card that keeps whole copies of its heap.
pub fn scripts_are_sessions()
    ensures sessions { AreSessions }
    ensures bytes { AskBytes }
    ensures ends { EndAsSessions }
    ensures whole { AreWholeSessions }
{}
