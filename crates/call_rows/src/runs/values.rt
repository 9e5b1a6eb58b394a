//! Lists of bytes, of fields, and of anything.

use anyhow::Result;
use lists::{Field, Octets, Sequence};
use std::alloc::Global;

const BYTES: &[u8] = b"a\x00\xff";

pub fn octets(alloc: Global) -> Result<bool> {
    let octets = Octets::from(BYTES.to_vec(alloc)?);
    let copy = octets.copy()?;
    let text = format!(in alloc; "{octets:?}")?;
    let clone = octets.clone()?;
    Ok(
        octets.as_slice() == BYTES
            && octets.len() == 3
            && !octets.is_empty()
            && copy == octets
            && clone.as_slice() == BYTES
            && text.as_str() == "[97, 0, 255]"
            && Octets::from(Vec::new(alloc)).is_empty(),
    )
}

/// Bytes of the program, bytes that were made shared, and copies of both, which stay when those are
/// dropped.
pub fn shared_octets(alloc: Global) -> Result<bool> {
    let fixed = Octets::fixed(BYTES);
    let shared = Octets::from(BYTES.to_vec(alloc)?).share()?;
    let are_same = fixed == shared && shared.len() == 3;
    let of_fixed = fixed.share()?.copy()?;
    let of_shared = shared.copy()?;
    drop(shared);
    Ok(are_same && of_fixed.as_slice() == BYTES && of_shared.as_slice() == BYTES)
}

fn field(alloc: Global, value: &[u8]) -> Result<Field> {
    Ok(Field {
        name: Octets::from(b":status".to_vec(alloc)?),
        value: Octets::from(value.to_vec(alloc)?),
    })
}

pub fn fields(alloc: Global) -> Result<bool> {
    let status = field(alloc, b"200")?;
    let other = field(alloc, b"204")?;
    let mut items = Vec::new(alloc);
    items.push(status.clone()?)?;
    let fields = Sequence::from(items);
    let copy = fields.copy()?.into_vec();
    Ok(
        status != other
            && fields.len() == 1
            && !fields.is_empty()
            && copy.first() == Some(&status)
            && copy.as_slice() == fields.as_slice(),
    )
}
