//! Fields by their names.

ghost use Rattle.std.specs.Prelude.{◌≡◌, ◌++◌, [], ◌∷◌, count_by, option_copied, IfOk, OnOk};
ghost use Rattle.callhead.specs.Fields.{field_of, is_named, first_of};

use lists::{Field, Octets};
use std::alloc::{AllocError, Global};

/// Whether the field has this name.
pub fn is_named(field: &Field, name: &[u8]) -> bool
    ensures { result ≡ is_named name.now field.now }
{
    field.name.as_slice() == name
}

/// The value of the first field with this name.
pub fn first_value<'a>(fields: &'a [Field], name: &[u8]) -> Option<&'a [u8]>
    ensures { option_copied result ≡ first_of name.now fields.now }
{
    Some(first_octets(fields, name)?.as_slice())
}

/// The value of the first field with this name, as the field owns it.
pub fn first_octets<'a>(fields: &'a [Field], name: &[u8]) -> Option<&'a Octets>
    ensures { option_copied result ≡ first_of name.now fields.now }
{
    let field = fields.iter().find(|field| is_named(field, name))?;
    Some(&field.value)
}

/// How many fields have this name.
pub fn count_named(fields: &[Field], name: &[u8]) -> usize
    ensures { result ≡ count_by (is_named name.now) fields.now }
{
    fields.iter().filter(|field| is_named(field, name)).count()
}

/// A field with a name of the program's and this value. It takes no memory.
pub fn field(name: &'static [u8], value: Octets) -> Field
    ensures { result ≡ field_of name.now value }
{
    Field {
        name: Octets::fixed(name),
        value,
    }
}

/// Appends a field of the program's.
pub fn push_known(
    fields: &mut Vec<Field>,
    name: &'static [u8],
    value: &'static [u8],
) -> Result<(), AllocError>
    ensures { OnOk result
        (fields.new.items ≡ fields.old.items ++ field_of name.now value.now ∷ []) }
{
    fields.push(field(name, Octets::fixed(value)))?;
    Ok(())
}

/// Appends a field with a copy of this value.
pub fn push_copied(
    alloc: Global,
    fields: &mut Vec<Field>,
    name: &'static [u8],
    value: &[u8],
) -> Result<(), AllocError>
    ensures { OnOk result
        (fields.new.items ≡ fields.old.items ++ field_of name.now value.now ∷ []) }
{
    let value = Octets::from(Vec::from_slice(alloc, value)?);
    fields.push(field(name, value))?;
    Ok(())
}
