//! References of IRIs, compared by their mappings.
ghost use Rattle.std.specs.Prelude.{◌≡◌, IfOk};
ghost use Rattle.iref.specs.{Key.{are_alike}, References.{reference_buf_value, reference_value}};

use iref::{IriRef, IriRefBuf, Memory};
use std::alloc::Global;

/// Whether the mappings of two references are equal: exactly if the references are.
pub fn mappings_are_equal(a: IriRef<'_>, b: IriRef<'_>, alloc: Global) -> Result<bool, Memory>
    ensures { IfOk result (λ equal. equal
        ≡ are_alike (reference_value a.entry) (reference_value b.entry)) }
{
    Ok(a.to_uri_ref(alloc)? == b.to_uri_ref(alloc)?)
}

/// Whether the mappings of two owned values are equal: the values are taken.
pub fn owned_mappings_are_equal(a: IriRefBuf, b: IriRefBuf) -> Result<bool, Memory>
    ensures { IfOk result (λ equal. equal
        ≡ are_alike (reference_buf_value a) (reference_buf_value b)) }
{
    let a = a.into_uri_ref().or(Err(Memory))?;
    let b = b.into_uri_ref().or(Err(Memory))?;
    Ok(a == b)
}
