//! Maps by name.

ghost use Rattle.std.specs.Prelude.{◌≡◌, ◌<◌, IsOk, OnErr, OnOk, bytes_eq};
ghost use Rattle.indexmap.specs.IndexMap.{insert_entry, spare};

use indexmap::IndexMap;
use rdma_types::Name;
use std::alloc::AllocError;

/// Puts a value under a name, behind the others where the name is new.
pub(crate) fn put_named<V: Drop>(
    map: &mut IndexMap<Name, V>,
    name: Name,
    value: V,
) -> Result<(), AllocError>
    ensures ok { OnOk result (map.new.entries ≡ insert_entry bytes_eq map.old.entries name value) }
    ensures err { OnErr result (map.new.entries ≡ map.old.entries) }
    ensures room { 0 < spare map.old → IsOk result }
{
    map.insert(name, value)?;
    Ok(())
}
