//! Texts part by part.

ghost use Rattle.std.specs.Prelude.{◌<◌, length};
ghost use Rattle.macro_text.specs.Parts.{IsFront};

use crate::references::{plain_len, reference_len};

/// The front of a text: a reference, or bytes that stay; and what stands behind it.
#[derive(Clone, Copy)]
pub(crate) struct Front<'a> {
    pub is_reference: bool,
    pub text: &'a str,
    pub rest: &'a str,
}

/// The front of a text that isn't empty.
pub(crate) fn front_of(text: &str) -> Front<'_>
    requires { 0 < length text.now }
    ensures front { IsFront result text.now }
    ensures shorter { length result.rest.now < length text.now }
{
    let length = reference_len(text.as_bytes());
    if length == 0 {
        let (front, rest) = text.split_at(plain_len(text.as_bytes()));
        return Front {
            is_reference: false,
            text: front,
            rest,
        };
    }
    let (front, rest) = text.split_at(length);
    Front {
        is_reference: true,
        text: front,
        rest,
    }
}
