//! The bytes of a system file.

ghost use Rattle.qp_system_tables.specs.Document.{FromBytes};

use crate::fault::SystemFault;
use crate::objects::raw_system;
use crate::raw::RawSystem;
use std::alloc::Global;

/// Reads the tables of a system file: what each says by itself, its names not looked up.
///
/// Of several faults that tables have by themselves it answers the first in the order of the file's keys.
pub fn raw_of_bytes(alloc: Global, bytes: &[u8]) -> Result<RawSystem, SystemFault>
    ensures { FromBytes result bytes.now }
{
    match toml::table_from_slice(alloc, bytes) {
        Ok(table) => raw_system(alloc, &table),
        Err(fault) if fault.is_memory() => Err(SystemFault::Memory),
        Err(_) => Err(SystemFault::NotToml),
    }
}
