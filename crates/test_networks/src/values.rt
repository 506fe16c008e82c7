//! Tags and paths from tables.
use config_base::NO_TAG;
use input_output::NoMemory;
use net_base::{Loc, Tag};
use std::alloc::Global;

/// The tag of a location with this value. Routers have the AS numbers from 64512 on.
pub fn tag(at: u16, value: u32) -> Tag {
    if value == 0 {
        NO_TAG
    } else {
        Tag {
            asn: 64512 + u32::from(at),
            value,
        }
    }
}

/// The locations of these numbers.
pub fn path(alloc: Global, numbers: &[u16]) -> Result<Vec<Loc>, NoMemory> {
    let mut path = Vec::new(alloc);
    for number in numbers {
        path.push(Loc::new(*number))?;
    }
    Ok(path)
}
