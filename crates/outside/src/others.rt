//! Where bytes are others than those that are held.

ghost use Rattle.std.specs.Prelude.{◌≡◌, ◌≤◌, ◌+◌, ◌<◌, ◌^◌, length, drop, IfSome};
ghost use Rattle.outside.specs.Others.{first_other};

/// The first place, counted on from `at`, at which bytes are others than those held, as far as both go.
pub fn first_other(at: u64, bytes: &[u8], held: &[u8]) -> Option<u64>
    requires { at + length held.now < 2 ^ 64 }
    ensures place { result ≡ first_other at bytes.now held.now }
    ensures within { IfSome result (λ place. (at ≤ place) × (place < at + length bytes.now)) }
{
    let shorter = bytes.len().min(held.len());
    for i in 0..shorter {
        if bytes[i] != held[i] {
            return Some(at + i as u64);
        }
    }
    None
}

/// The bytes behind the first ones of this number.
#[tactic(auto, using(std::proofs::lemmas::List::drop_all))]
pub(crate) fn behind(bytes: &[u8], first: u64) -> &[u8]
    ensures { result.now ≡ drop first bytes.now }
{
    if first <= bytes.len() as u64 {
        &bytes[first as usize..]
    } else {
        &[]
    }
}
