//! One line of a script, in fixed room.
ghost use Rattle.std.specs.Prelude.{◌≡◌, ◌≤◌, ℕ, List, [], ◌∷◌, ◌++◌, length, take, IsErr, IsSome, IfSome, MatchOption, Ok, true};
ghost use Rattle.std.specs.Str.Lines.{strip_carriage_return};
ghost use Rattle.hex.specs.Hex.{decode_of, is_hex_digit};
ghost use Rattle.jcard_script.specs.Line.{IsCommandOf, IsLineOf, IsPlain, HasDigits, AsksFor, PlainlyAsksFor};
ghost use Rattle.jcard_script.specs.Script.{form_of};
ghost use Rattle.jcard_script.specs.Session.{IsKeptOf};
ghost use Rattle.jcard_script.specs.Word.{IsWordOf};

use crate::line_text::LineText;
use crate::word::Word;
use arrayvec::ArrayVec;
use jc_card::planned_fault::PlannedFault;

/// The most digits of a line that are kept: two more than the longest command has.
const DIGITS: usize = 131_090;

/// What the bytes of a line are.
#[derive(Clone, Copy)]
pub(crate) enum Kind {
    /// There are none.
    Empty,
    /// They begin with '#'.
    Comment,
    /// They are hexadecimal digits and spaces.
    Digits,
    /// They are anything else.
    Nonsense,
}

/// What a line asks for.
#[derive(Clone, Copy)]
pub(crate) enum LineRequest<'a> {
    /// Nothing: it is empty or a comment.
    Nothing,
    /// The command of these bytes, of which 65545 at most are kept.
    Exchange(&'a [u8]),
    /// A reset.
    Reset,
    /// To let this many writes pass.
    ArmFuse(u16),
    /// That this fault comes in each command from now on, or none.
    PlanFault(Option<PlannedFault>),
    /// It has no form.
    Refused,
}

/// What is kept of a line's bytes.
#[derive(Drop)]
pub(crate) struct Content {
    kind: Kind,
    digits: ArrayVec<u8, 131090>,
    is_odd: bool,
}

/// What is kept of a line, and whether its last byte is a carriage return, which belongs to it
/// only if another byte follows.
#[derive(Drop)]
pub(crate) struct Line {
    content: Content,
    word: Word,
    text: LineText,
    carriage_return: bool,
}

impl Content {
    fn empty() -> Self
        ensures { IsLineOf result.kind result.digits.items result.is_odd [] }
    {
        Content {
            kind: Kind::Empty,
            digits: ArrayVec::new(),
            is_odd: false,
        }
    }

    fn clear(&mut self)
        ensures { IsLineOf self.new.kind self.new.digits.items self.new.is_odd [] }
    {
        self.kind = Kind::Empty;
        self.digits.clear();
        self.is_odd = false;
    }

    // One more byte.
    fn push(&mut self, byte: u8)
        ensures { (line : List ℕ) → IsLineOf self.old.kind self.old.digits.items
            self.old.is_odd line
            → IsLineOf self.new.kind self.new.digits.items self.new.is_odd (line ++ byte ∷ []) }
    {
        match self.kind {
            Kind::Comment | Kind::Nonsense => {}
            Kind::Empty => {
                if byte == b'#' {
                    self.kind = Kind::Comment;
                } else {
                    self.push_digit(byte);
                }
            }
            Kind::Digits => self.push_digit(byte),
        }
    }

    // One more byte of a line that is no comment.
    fn push_digit(&mut self, byte: u8)
        ensures { (line : List ℕ) → HasDigits self.old.digits.items self.old.is_odd line
            → IsPlain (line ++ byte ∷ [])
            → IsLineOf self.new.kind self.new.digits.items self.new.is_odd (line ++ byte ∷ []) }
    {
        if byte == b' ' {
            self.kind = Kind::Digits;
        } else if is_digit(byte) {
            self.kind = Kind::Digits;
            self.is_odd = !self.is_odd;
            let _ = self.digits.try_push(byte);
        } else {
            self.kind = Kind::Nonsense;
        }
    }

    // What a line of these bytes asks for that is no word. A command's bytes are put at the front of the room.
    fn asked<'a>(&self, room: &'a mut ArrayVec<u8, 65545>) -> LineRequest<'a>
        ensures { (line : List ℕ) → IsLineOf self.now.kind self.now.digits.items self.now.is_odd
            line → PlainlyAsksFor result line }
    {
        match self.kind {
            Kind::Empty | Kind::Comment => LineRequest::Nothing,
            Kind::Nonsense => LineRequest::Refused,
            Kind::Digits => {
                if self.is_odd {
                    return LineRequest::Refused;
                }
                match command_of(self.digits.as_slice(), room) {
                    Some(command) => LineRequest::Exchange(command),
                    None => LineRequest::Refused,
                }
            }
        }
    }
}

impl Line {
    /// A line of which no byte has come.
    pub(crate) fn empty() -> Self
        ensures { IsKeptOf result [] }
    {
        Line {
            content: Content::empty(),
            word: Word::empty(),
            text: LineText::empty(),
            carriage_return: false,
        }
    }

    /// Forgets the line: no byte has come.
    pub(crate) fn clear(&mut self)
        ensures { IsKeptOf self.new [] }
    {
        self.content.clear();
        self.word.clear();
        self.text.clear();
        self.carriage_return = false;
    }

    /// One more byte of the line, which is no line feed.
    pub(crate) fn push(&mut self, byte: u8)
        ensures { (line : List ℕ) → IsKeptOf self.old line → IsKeptOf self.new (line ++ byte ∷ []) }
    {
        self.settle();
        self.carriage_return = byte == b'\r';
        if !self.carriage_return {
            self.content.push(byte);
            self.word.push(byte);
            self.text.push(byte);
        }
    }

    /// More bytes of the line, none of which is a line feed.
    pub(crate) fn push_all(&mut self, bytes: &[u8])
        ensures { (line : List ℕ) → IsKeptOf self.old line → IsKeptOf self.new (line ++ bytes.now) }
    {
        for byte in bytes {
            self.push(*byte);
        }
    }

    /// What the line asks for if these bytes, none of which is a line feed, and a line feed follow. The room is for the bytes of a command.
    pub(crate) fn ended_by<'a>(
        &mut self,
        bytes: &[u8],
        room: &'a mut ArrayVec<u8, 65545>,
    ) -> LineRequest<'a>
        ensures { (line : List ℕ) → IsKeptOf self.old line
            → AsksFor result (strip_carriage_return (line ++ bytes.now)) }
    {
        self.push_all(bytes);
        asked_by(&self.content, &self.word, room)
    }

    /// Whether the line is a command if these digits and a line feed follow, whose bytes the room then holds. `false` where a byte has come
    /// before, and where they are any other bytes than digits of one command.
    pub(crate) fn whole_command(&self, bytes: &[u8], room: &mut ArrayVec<u8, 65545>) -> bool
        ensures new { result ≡ true → (line : List ℕ) → IsKeptOf self.now line → line ≡ [] }
        ensures command { result ≡ true → IsCommandOf room.new.items
            (form_of (strip_carriage_return bytes.now)) }
    {
        if !self.is_new() {
            return false;
        }
        command_in(bytes, room)
    }

    // Whether no byte has come.
    fn is_new(&self) -> bool
        ensures { (line : List ℕ) → IsKeptOf self.now line → result ≡ true → line ≡ [] }
    {
        matches!(self.content.kind, Kind::Empty) && !self.carriage_return
    }

    /// What the line asks for if it is the script's last, which no line feed ends. The room is for the bytes of a command.
    pub(crate) fn last<'a>(&mut self, room: &'a mut ArrayVec<u8, 65545>) -> LineRequest<'a>
        ensures { (line : List ℕ) → IsKeptOf self.old line → AsksFor result line }
    {
        self.settle();
        asked_by(&self.content, &self.word, room)
    }

    /// What is kept of it for who is shown it.
    pub(crate) fn text(&self) -> &LineText {
        &self.text
    }

    // A carriage return at the end belongs to the line.
    fn settle(&mut self)
        ensures { (line : List ℕ) → IsKeptOf self.old line
            → IsLineOf self.new.content.kind self.new.content.digits.items self.new.content.is_odd
            line × IsWordOf self.new.word line }
    {
        if self.carriage_return {
            self.content.push(b'\r');
            self.word.push(b'\r');
            self.text.push(b'\r');
        }
    }
}

// What a line asks for of which this is kept.
fn asked_by<'a>(
    content: &Content,
    word: &Word,
    room: &'a mut ArrayVec<u8, 65545>,
) -> LineRequest<'a>
    ensures { (line : List ℕ) → IsLineOf content.now.kind content.now.digits.items
        content.now.is_odd line → IsWordOf word.now line → AsksFor result line }
{
    match word.asked() {
        Some(asked) => asked,
        None => content.asked(room),
    }
}

// Whether a line of these bytes, which are hexadecimal digits alone, is a command, whose bytes the room then holds.
fn command_in(line: &[u8], room: &mut ArrayVec<u8, 65545>) -> bool
    ensures command { result ≡ true → IsCommandOf room.new.items
        (form_of (strip_carriage_return line.now)) }
{
    if line.is_empty() || line.len() > DIGITS {
        return false;
    }
    decode(line, room)
}

// The room holds this many bytes. Those that it held stay, since its callers write over all of them.
fn resize(room: &mut ArrayVec<u8, 65545>, count: usize)
    requires { count ≤ 65545 }
    ensures { length room.new.items ≡ count }
{
    room.truncate(count);
    for _k in room.len()..count {
        room.push(0);
    }
}

// Puts the bytes that digits spell into the room, and says whether they spell any.
fn decode(digits: &[u8], room: &mut ArrayVec<u8, 65545>) -> bool
    requires { length digits.now ≤ 131090 }
    ensures { result ≡ true → decode_of digits.now ≡ Ok room.new.items }
{
    resize(room, digits.len() / 2);
    hex::decode_to_slice(digits, room.as_mut_slice()).is_ok()
}

fn is_digit(byte: u8) -> bool
    ensures { result ≡ is_hex_digit byte }
{
    byte.is_ascii_hexdigit()
}

// The bytes that this many digits spell, which the room then holds.
fn command_of<'a>(digits: &[u8], room: &'a mut ArrayVec<u8, 65545>) -> Option<&'a [u8]>
    requires { length digits.now ≤ 131090 }
    ensures { MatchOption result (IsErr (decode_of digits.now))
        (λ command. decode_of digits.now ≡ Ok command.now) }
{
    resize(room, digits.len() / 2);
    hex::decode_to_slice(digits, room.as_mut_slice()).ok()?;
    Some(room.as_slice())
}
