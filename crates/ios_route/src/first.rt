ghost use Rattle.std.specs.Prelude.{◌≡◌, IfOk};
ghost use Rattle.std.specs.HashMap.{get};
ghost use Rattle.std.specs.Map.{lookup};

use std::alloc::{AllocError, Global};
use std::collections::HashMap;
use std::hash::Hash;

/// A map in which each key has the value that stands with it first.
pub fn first_of_each<K: Eq + Hash + Copy + Drop, V: Copy + Drop>(
    alloc: Global,
    entries: &[(K, V)],
) -> Result<HashMap<K, V>, AllocError>
    ensures { IfOk result
        (λ first. (key : K) → get K.eq first key ≡ lookup (K.eq key) entries.now) }
{
    let mut first = HashMap::new(alloc);
    let mut rest = entries;
    while let Some(((key, value), others)) = rest.split_last() {
        first.insert(*key, *value)?;
        rest = others;
    }
    Ok(first)
}
