//! Places in keys, and how bytes lead from one to the next.

ghost use Rattle.std.specs.Prelude.{◌≡◌};
ghost use Rattle.item_key.specs.Grammar.{is_name_byte};
ghost use Rattle.item_key.specs.Machine.{turn, step, ends, finish};
ghost use Rattle.item_key.specs.Meaning.{GoesOn, TellsKeys, Completes};

/// A place in a parameter.
#[derive(Clone, Copy)]
pub enum InParameter {
    /// Nothing of it has come but spaces.
    Before,
    /// In one without quotes and brackets.
    Bare,
    /// In one in quotes.
    Quoted,
    /// In one in quotes, behind a backslash: a quote wouldn't end it.
    Escaped,
    /// Behind the quote that ended it.
    Behind,
}

/// What a byte does to a parameter: it belongs to it, ends it by a comma or by a bracket, opens a list, or has no
/// place in it.
#[derive(Clone, Copy)]
enum ByteEffect {
    Stay(InParameter),
    Comma,
    Close,
    Open,
    Wrong,
}

/// A place in a key: all that its bytes so far say of those that may follow.
#[derive(Clone, Copy)]
pub enum Place {
    /// No byte has come.
    Start,
    /// In the name, which may end here.
    Name,
    /// In a parameter.
    Param(InParameter),
    /// In a parameter of a list.
    Listed(InParameter),
    /// Behind the bracket that ended a list.
    Closed,
    /// Behind the bracket that ended the key.
    Done,
}

fn is_name(byte: u8) -> bool
    ensures { result ≡ is_name_byte byte }
{
    (b'a' <= byte && byte <= b'z')
        || (b'A' <= byte && byte <= b'Z')
        || (b'0' <= byte && byte <= b'9')
        || byte == b'_'
        || byte == b'-'
        || byte == b'.'
}

fn turned(within: InParameter, byte: u8) -> ByteEffect
    ensures { result ≡ turn within byte }
{
    match within {
        InParameter::Before => {
            if byte == b' ' {
                ByteEffect::Stay(InParameter::Before)
            } else if byte == b'"' {
                ByteEffect::Stay(InParameter::Quoted)
            } else if byte == b'[' {
                ByteEffect::Open
            } else if byte == b',' {
                ByteEffect::Comma
            } else if byte == b']' {
                ByteEffect::Close
            } else {
                ByteEffect::Stay(InParameter::Bare)
            }
        }
        InParameter::Bare => {
            if byte == b',' {
                ByteEffect::Comma
            } else if byte == b']' {
                ByteEffect::Close
            } else {
                ByteEffect::Stay(InParameter::Bare)
            }
        }
        InParameter::Quoted => {
            if byte == b'"' {
                ByteEffect::Stay(InParameter::Behind)
            } else if byte == b'\\' {
                ByteEffect::Stay(InParameter::Escaped)
            } else {
                ByteEffect::Stay(InParameter::Quoted)
            }
        }
        InParameter::Escaped => {
            if byte == b'\\' {
                ByteEffect::Stay(InParameter::Escaped)
            } else {
                ByteEffect::Stay(InParameter::Quoted)
            }
        }
        InParameter::Behind => {
            if byte == b' ' {
                ByteEffect::Stay(InParameter::Behind)
            } else if byte == b',' {
                ByteEffect::Comma
            } else if byte == b']' {
                ByteEffect::Close
            } else {
                ByteEffect::Wrong
            }
        }
    }
}

fn stepped(place: Place, byte: u8) -> Option<Place>
    ensures { result ≡ step place byte }
{
    match place {
        Place::Start => {
            if is_name(byte) {
                Some(Place::Name)
            } else {
                None
            }
        }
        Place::Name => {
            if is_name(byte) {
                Some(Place::Name)
            } else if byte == b'[' {
                Some(Place::Param(InParameter::Before))
            } else {
                None
            }
        }
        Place::Param(within) => {
            match turned(within, byte) {
                ByteEffect::Stay(now) => Some(Place::Param(now)),
                ByteEffect::Comma => Some(Place::Param(InParameter::Before)),
                ByteEffect::Close => Some(Place::Done),
                ByteEffect::Open => Some(Place::Listed(InParameter::Before)),
                ByteEffect::Wrong => None,
            }
        }
        Place::Listed(within) => {
            match turned(within, byte) {
                ByteEffect::Stay(now) => Some(Place::Listed(now)),
                ByteEffect::Comma => Some(Place::Listed(InParameter::Before)),
                ByteEffect::Close => Some(Place::Closed),
                ByteEffect::Open => None,
                ByteEffect::Wrong => None,
            }
        }
        Place::Closed => {
            if byte == b',' {
                Some(Place::Param(InParameter::Before))
            } else if byte == b']' {
                Some(Place::Done)
            } else {
                None
            }
        }
        Place::Done => None,
    }
}

/// The place behind a byte, or none where no key goes on with it. The limit of bytes is not looked at: whoever reads
/// byte by byte counts them, and takes at most [`LONGEST_KEY`](zbx_types::LONGEST_KEY).
#[tactic(auto, using(crate::proofs::Meanings::goes_on))]
pub fn next(place: Place, byte: u8) -> Option<Place>
    ensures steps { result ≡ step place byte }
    ensures goes_on { GoesOn place byte result }
{
    stepped(place, byte)
}

fn ended(place: Place) -> bool
    ensures { result ≡ ends place }
{
    match place {
        Place::Name => true,
        Place::Done => true,
        _ => false,
    }
}

/// Whether the bytes that lead to this place are a key. If they aren't, bytes that complete them are always there.
#[tactic(auto, using(crate::proofs::Meanings::tells_keys, crate::proofs::Meanings::completes))]
pub fn may_end(place: Place) -> bool
    ensures answer { result ≡ ends place }
    ensures key { TellsKeys place result }
    ensures completed { Completes place (finish place) }
{
    ended(place)
}
