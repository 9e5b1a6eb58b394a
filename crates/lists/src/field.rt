//! A field of a header block (RFC 9110, section 5; RFC 7541, section 1.3).

use crate::octets::Octets;

/// A name and a value. A clause sees a record of two lists of bytes.
#[derive(Clone, Debug, Drop, PartialEq, Eq)]
pub struct Field {
    pub name: Octets,
    pub value: Octets,
}
