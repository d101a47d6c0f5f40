//! Values at their places.

use anyhow::Result;
use std::alloc::Global;

/// What is made of each value at its place.
pub(crate) fn map_with_place<T: Drop, U: Drop, F: Fn(Global, usize, T) -> Result<U>>(
    alloc: Global,
    values: Vec<T>,
    make: F,
) -> Result<Vec<U>>
    requires { F.IsAlwaysCallable make }
{
    let mut all = Vec::with_capacity(alloc, values.len())?;
    for (place, value) in values.into_iter().enumerate() {
        all.push(make(alloc, place, value)?)?;
    }
    Ok(all)
}
