// Values that are made with memory that may be wanting.

ghost use Rattle.std.specs.Prelude.{◌≡◌, ◌⊎◌, IfOk, IfErr, Ok, Err};

use std::alloc::AllocError;

/// Two values that were made, where both were; else why one was not.
// No value lives here across a `?`: what is dropped on such a way is dropped part by part.
pub fn both<T: Drop, U: Drop>(
    one: Result<T, AllocError>,
    other: Result<U, AllocError>,
) -> Result<(T, U), AllocError>
    ensures made { IfOk result (λ r. (one ≡ Ok r.0) × (other ≡ Ok r.1)) }
    ensures fails { IfErr result (λ e. (one ≡ Err e) ⊎ (other ≡ Err e)) }
{
    match (one, other) {
        (Ok(one), Ok(other)) => Ok((one, other)),
        (Err(error), _) | (_, Err(error)) => Err(error),
    }
}
