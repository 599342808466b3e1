//! Values that are held while a call may fail.

ghost use Rattle.std.specs.Prelude.{◌≡◌, Ok, Err, IfOk, IfErr};

/// What a call made, beside a value that was held meanwhile. Where the call failed the value is dropped.
pub fn beside<T, H: Drop, E>(made: Result<T, E>, held: H) -> Result<(T, H), E>
    ensures made { IfOk result (λ both. made ≡ Ok both.0) }
    ensures held { IfOk result (λ both. both.1 ≡ held) }
    ensures failed { IfErr result (λ e. made ≡ Err e) }
{
    match made {
        Ok(made) => Ok((made, held)),
        Err(error) => Err(error),
    }
}
