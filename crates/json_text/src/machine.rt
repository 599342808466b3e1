//! JSON texts from their front, by bytes and by runs of them.

ghost use Rattle.std.specs.Prelude.{◌≡◌, ◌∷◌, [], ◌<◌, ◌≤◌, length, take, get_or, None, Some, IfOk, IsUtf8, option_map};
ghost use Rattle.json_text.specs.Machine as machine;
ghost use Rattle.json_text.specs.Moves.{reach};
ghost use Rattle.json_text.specs.Sane.{IsSane};
ghost use Rattle.json_text.specs.Trees.{json_of};
ghost use Rattle.json_text.specs.declared.place.Mode.TheVariants as modes;

use crate::frame::{Frame, Read, Stack};
use crate::kinds::is_blank;
use crate::making::{behind_string, is_end, quoted, takes_string, text_of, with_item};
use crate::naming::Fields;
use crate::number::{InNumber, may_end, next_in_number};
use crate::place::{InLiteral, Mode, Use};
use crate::spans::{blank_len, digits, plain, plain_in_quotes};
use crate::string::{Spot, next_in_string};
use crate::tree::{Members, Tree, Trees};
use byte_grammar::is_digit;
use std::alloc::Global;
use std::mem::replace;
use zbx_types::{Bytes, OutOfMemory, Text};

/// The most brackets that are open at one place (this project's own).
const DEEPEST: usize = 64;

/// The bytes of most numbers, for which there is room from the first on.
const NUMBER_ROOM: usize = 16;

/// A place in a JSON text, with the containers that are open there.
#[derive(Drop)]
pub(crate) struct State {
    mode: Mode,
    stack: Stack,
}

/// Whether a JSON text goes on.
type Moved = Result<bool, OutOfMemory>;

impl State {
    /// The place where no byte has come.
    pub(crate) fn start(alloc: Global) -> State
        ensures { result ≡ machine.start }
    {
        State {
            mode: Mode::Value,
            stack: Stack::new(alloc),
        }
    }

    /// Goes on in that place.
    #[inline(always)]
    fn to(&mut self, mode: Mode) -> Moved
        ensures { IfOk result (λ on. reach on self.new ≡ machine.to mode self.old.stack) }
    {
        drop(replace(&mut self.mode, mode));
        Ok(true)
    }

    /// Goes on in that place behind an opening bracket, where there may be one more.
    #[inline(always)]
    fn opened(&mut self, mode: Mode) -> Moved
        ensures { IfOk result (λ on. reach on self.new ≡ machine.opened mode self.old.stack) }
    {
        if self.stack.len() < DEEPEST {
            self.to(mode)
        } else {
            drop(mode);
            Ok(false)
        }
    }

    /// The first byte of a number.
    fn number(&mut self, alloc: Global, place: InNumber, byte: u8) -> Moved
        ensures { IfOk result (λ on. reach on self.new ≡ machine.to (modes.Number place (byte ∷ [])) self.old.stack) }
    {
        let mut text = Vec::with_capacity(alloc, NUMBER_ROOM)?;
        text.push(byte)?;
        self.to(Mode::Number(place, Bytes::from(text)))
    }

    /// The first byte of a value.
    fn begun(&mut self, alloc: Global, byte: u8) -> Moved
        ensures { IfOk result (λ on. reach on self.new ≡ machine.begun self.old.stack byte) }
    {
        match byte {
            b'"' => self.to(quoted(alloc, Use::ForValue)),
            b'[' => self.opened(Mode::FirstItem),
            b'{' => self.opened(Mode::FirstName),
            b'-' => self.number(alloc, InNumber::Minus, byte),
            b'0' => self.number(alloc, InNumber::Zero, byte),
            b't' => self.to(Mode::Literal(InLiteral::T)),
            b'f' => self.to(Mode::Literal(InLiteral::F)),
            b'n' => self.to(Mode::Literal(InLiteral::N)),
            _ if is_digit(byte) => self.number(alloc, InNumber::Whole, byte),
            _ => Ok(false),
        }
    }

    /// A comma behind a value.
    fn comma(&mut self, value: Read) -> Moved
        ensures { IfOk result (λ on. reach on self.new ≡ machine.comma value self.old.stack) }
    {
        match self.stack.pop() {
            None => {
                drop(value);
                Ok(false)
            }
            Some(Frame::Array(items)) => {
                let items = with_item(items, value)?;
                self.stack.push(Frame::Array(items))?;
                self.to(Mode::Value)
            }
            Some(Frame::Object(members, name)) => {
                let members = members.put(name, value)?;
                self.to(Mode::NextName(members))
            }
        }
    }

    /// The bracket behind the last value of an array.
    fn close_array(&mut self, value: Read) -> Moved
        ensures { IfOk result (λ on. reach on self.new ≡ machine.close_array value self.old.stack) }
    {
        match self.stack.pop() {
            Some(Frame::Array(items)) => {
                let items = with_item(items, value)?;
                self.to(Mode::Done(Read::new(Tree::List(items))))
            }
            other => {
                drop(other);
                drop(value);
                Ok(false)
            }
        }
    }

    /// The bracket behind the last value of an object.
    fn close_object(&mut self, alloc: Global, value: Read) -> Moved
        ensures { IfOk result (λ on. reach on self.new ≡ machine.close_object value self.old.stack) }
    {
        match self.stack.pop() {
            Some(Frame::Object(members, name)) => {
                let members = members.put(name, value)?.into_members(alloc)?;
                self.to(Mode::Done(Read::new(Tree::Object(members))))
            }
            other => {
                drop(other);
                drop(value);
                Ok(false)
            }
        }
    }

    /// A byte behind a value.
    fn behind(&mut self, alloc: Global, value: Read, byte: u8) -> Moved
        ensures { IfOk result (λ on. reach on self.new ≡ machine.behind value self.old.stack byte) }
    {
        match byte {
            b',' => self.comma(value),
            b']' => self.close_array(value),
            b'}' => self.close_object(alloc, value),
            _ if is_blank(byte) => self.to(Mode::Done(value)),
            _ => {
                drop(value);
                Ok(false)
            }
        }
    }

    /// Goes on in that place, where the byte is the one wanted.
    #[inline(always)]
    fn exactly(&mut self, want: u8, mode: Mode, byte: u8) -> Moved
        ensures { IfOk result (λ on. reach on self.new ≡ machine.exactly want mode self.old.stack byte) }
    {
        if byte == want {
            self.to(mode)
        } else {
            drop(mode);
            Ok(false)
        }
    }

    /// A byte of a literal.
    fn literal(&mut self, place: InLiteral, byte: u8) -> Moved
        ensures { IfOk result (λ on. reach on self.new ≡ machine.literal_on place self.old.stack byte) }
    {
        let (want, mode) = match place {
            InLiteral::T => (b'r', Mode::Literal(InLiteral::Tr)),
            InLiteral::Tr => (b'u', Mode::Literal(InLiteral::Tru)),
            InLiteral::Tru => (b'e', Mode::Done(Read::new(Tree::Bool(true)))),
            InLiteral::F => (b'a', Mode::Literal(InLiteral::Fa)),
            InLiteral::Fa => (b'l', Mode::Literal(InLiteral::Fal)),
            InLiteral::Fal => (b's', Mode::Literal(InLiteral::Fals)),
            InLiteral::Fals => (b'e', Mode::Done(Read::new(Tree::Bool(false)))),
            InLiteral::N => (b'u', Mode::Literal(InLiteral::Nu)),
            InLiteral::Nu => (b'l', Mode::Literal(InLiteral::Nul)),
            InLiteral::Nul => (b'l', Mode::Done(Read::new(Tree::Null))),
        };
        self.exactly(want, mode, byte)
    }

    /// A byte in a number or behind it.
    fn in_number(&mut self, alloc: Global, place: InNumber, text: Bytes, byte: u8) -> Moved
        requires { IsUtf8 text }
        ensures { IfOk result (λ on. reach on self.new ≡ machine.move (modes.Number place text) self.old.stack byte) }
    {
        match next_in_number(place, byte) {
            Some(next) => {
                let mut text = text;
                text.extend(&[byte])?;
                self.to(Mode::Number(next, text))
            }
            None if may_end(place) => {
                let value = Read::new(Tree::Number(text_of(text)));
                self.behind(alloc, value, byte)
            }
            None => Ok(false),
        }
    }

    /// The quote behind a string.
    fn unquoted(&mut self, string_use: Use, text: Bytes) -> Moved
        requires { IsUtf8 text }
        ensures { IfOk result (λ on. reach on self.new ≡ machine.unquoted string_use text self.old.stack) }
    {
        let text = text_of(text);
        match string_use {
            Use::ForValue => self.to(Mode::Done(Read::new(Tree::Words(text)))),
            Use::ForName(members) => self.to(Mode::Named(members, text)),
        }
    }

    /// A byte in a string or the quote behind it.
    fn in_string(&mut self, string_use: Use, spot: Spot, byte: u8) -> Moved
        requires { IsSane (modes.String string_use spot) }
        ensures { IfOk result (λ on. reach on self.new
            ≡ machine.move (modes.String string_use spot) self.old.stack byte) }
    {
        if is_end(spot.place, byte) {
            return self.unquoted(string_use, spot.text);
        }
        match next_in_string(spot, byte)? {
            Some(spot) => self.to(Mode::String(string_use, spot)),
            None => Ok(false),
        }
    }

    /// A byte behind the bracket that opens an array.
    fn first_item(&mut self, alloc: Global, byte: u8) -> Moved
        ensures { IfOk result (λ on. reach on self.new ≡ machine.move modes.FirstItem self.old.stack byte) }
    {
        let items = Trees::from_vec(Vec::new(alloc));
        if is_blank(byte) {
            self.to(Mode::FirstItem)
        } else if byte == b']' {
            self.to(Mode::Done(Read::new(Tree::List(items))))
        } else {
            self.stack.push(Frame::Array(items))?;
            self.begun(alloc, byte)
        }
    }

    /// A byte behind the bracket that opens an object.
    fn first_name(&mut self, alloc: Global, byte: u8) -> Moved
        ensures { IfOk result (λ on. reach on self.new ≡ machine.move modes.FirstName self.old.stack byte) }
    {
        if is_blank(byte) {
            self.to(Mode::FirstName)
        } else if byte == b'}' {
            let members = Members::from_vec(Vec::new(alloc));
            self.to(Mode::Done(Read::new(Tree::Object(members))))
        } else {
            let mode = quoted(alloc, Use::ForName(Fields::new(alloc)));
            self.exactly(b'"', mode, byte)
        }
    }

    /// A byte behind a comma in an object.
    fn next_name(&mut self, alloc: Global, members: Fields, byte: u8) -> Moved
        ensures { IfOk result (λ on. reach on self.new ≡ machine.move (modes.NextName members) self.old.stack byte) }
    {
        if is_blank(byte) {
            self.to(Mode::NextName(members))
        } else {
            self.exactly(b'"', quoted(alloc, Use::ForName(members)), byte)
        }
    }

    /// A byte behind a name.
    fn named(&mut self, members: Fields, name: Text, byte: u8) -> Moved
        ensures { IfOk result (λ on. reach on self.new ≡ machine.move (modes.Named members name) self.old.stack byte) }
    {
        if is_blank(byte) {
            self.to(Mode::Named(members, name))
        } else if byte == b':' {
            self.stack.push(Frame::Object(members, name))?;
            self.to(Mode::Value)
        } else {
            Ok(false)
        }
    }

    /// Goes on by one byte, and answers whether a JSON text goes on with it.
    fn next(&mut self, alloc: Global, byte: u8) -> Moved
        requires { IsSane self.old.mode }
        ensures { IfOk result (λ on. reach on self.new ≡ machine.step self.old byte) }
    {
        match replace(&mut self.mode, Mode::Value) {
            Mode::Value if is_blank(byte) => Ok(true),
            Mode::Value => self.begun(alloc, byte),
            Mode::FirstItem => self.first_item(alloc, byte),
            Mode::FirstName => self.first_name(alloc, byte),
            Mode::NextName(members) => self.next_name(alloc, members, byte),
            Mode::Named(members, name) => self.named(members, name, byte),
            Mode::Literal(place) => self.literal(place, byte),
            Mode::Number(place, text) => self.in_number(alloc, place, text, byte),
            Mode::String(string_use, spot) => self.in_string(string_use, spot, byte),
            Mode::Done(value) => self.behind(alloc, value, byte),
        }
    }

    /// Takes the bytes at the front that lead from the place to itself, and answers how many.
    fn run(&mut self, rest: &[u8]) -> Result<usize, OutOfMemory>
        ensures within { IfOk result (λ n. n ≤ length rest.now) }
        ensures goes { IfOk result (λ n. machine.after (Some self.old) (take n rest.now) ≡ Some self.new) }
    {
        match &mut self.mode {
            Mode::String(_, spot) => plain(spot, rest),
            Mode::Number(place, text) => digits(*place, text, rest),
            Mode::Literal(_) => Ok(0),
            _ => Ok(blank_len(rest)),
        }
    }

    /// Takes the plain bytes in quotes at the front, where a value or a name may begin here, and answers how many.
    fn whole_string(&mut self, alloc: Global, rest: &[u8]) -> Result<usize, OutOfMemory>
        ensures within { IfOk result (λ n. n ≤ length rest.now) }
        ensures goes { IfOk result (λ n. machine.after (Some self.old) (take n rest.now) ≡ Some self.new) }
    {
        if !takes_string(&self.mode) {
            return Ok(0);
        }
        match plain_in_quotes(alloc, rest)? {
            None => Ok(0),
            Some(text) => {
                let length = text.len() + 2;
                let mode = replace(&mut self.mode, Mode::Value);
                drop(replace(&mut self.mode, behind_string(alloc, mode, text)));
                Ok(length)
            }
        }
    }

    /// Takes a run or a string of plain bytes at the front, and answers how many bytes.
    fn several(&mut self, alloc: Global, rest: &[u8]) -> Result<usize, OutOfMemory>
        ensures within { IfOk result (λ n. n ≤ length rest.now) }
        ensures goes { IfOk result (λ n. machine.after (Some self.old) (take n rest.now) ≡ Some self.new) }
    {
        let run = self.run(rest)?;
        if run > 0 {
            Ok(run)
        } else {
            self.whole_string(alloc, rest)
        }
    }

    /// Takes bytes from the front of what is left, and answers how many: none where no text goes on with the first.
    pub(crate) fn advance(&mut self, alloc: Global, rest: &[u8]) -> Result<usize, OutOfMemory>
        requires sane { IsSane self.old.mode }
        requires more { 0 < length rest.now }
        ensures within { IfOk result (λ n. n ≤ length rest.now) }
        ensures goes { IfOk result (λ n. 0 < n → machine.after (Some self.old) (take n rest.now) ≡ Some self.new) }
        ensures stops { IfOk result (λ n. n ≡ 0 → machine.step self.old (get_or rest.now 0 0) ≡ None) }
    {
        let several = self.several(alloc, rest)?;
        if several > 0 {
            Ok(several)
        } else if self.next(alloc, rest[0])? {
            Ok(1)
        } else {
            Ok(0)
        }
    }

    /// The value, where the text may end here.
    pub(crate) fn end(self) -> Option<Tree>
        requires { IsSane self.mode }
        ensures { option_map json_of result ≡ machine.ends self }
    {
        let State { mode, stack } = self;
        let open_ones = stack.len();
        drop(stack);
        if open_ones > 0 {
            drop(mode);
            return None;
        }
        match mode {
            Mode::Number(place, text) if may_end(place) => Some(Tree::Number(text_of(text))),
            Mode::Done(value) => Some(value.into_tree()),
            other => {
                drop(other);
                None
            }
        }
    }
}
