//! Which rule a field breaks that requests and responses share (RFC 9113, sections 8.1 to 8.3), and
//! the text of each.
//!
//! The crate `callhead` decides whether a field breaks one; this module says which.

ghost use Rattle.std.specs.Prelude.{◌≡◌, ◌||◌, is_some, true, IfSome};
ghost use Rattle.std.specs.List.{find};
ghost use Rattle.callhead.specs.MalformedHeads.{
  has_bad_name,
  has_bad_value,
  is_connection_specific,
  is_forbidden_in_names,
  is_forbidden_in_values,
};
ghost use Rattle.figures.specs.FieldRules.{breaks};

use callhead::{
    has_bad_name, has_bad_value, is_connection_specific, is_forbidden_in_names,
    is_forbidden_in_values,
};
use lists::Field;
use std::fmt;

/// A rule on a field.
#[derive(Clone, Copy, Debug, PartialEq, Eq)]
pub enum FieldRule {
    /// It has no name.
    NoName,
    /// The name has an upper-case letter.
    UpperCase,
    /// The name has another byte that it may not have.
    NameByte(u8),
    /// The value has a byte that ends the line or the text.
    ValueByte(u8),
    /// The value begins or ends with a blank.
    ValueBlank,
    /// The field is connection-specific.
    OneConnection,
    /// A pseudo-header comes after another field.
    Late,
    /// A pseudo-header in trailers.
    InTrailers,
}

/// The rule that a field breaks by itself: one on its name first, then one on its value.
pub fn field_rule(field: &Field) -> Option<FieldRule>
    ensures breaks { is_some result
        ≡ (has_bad_name field.now || has_bad_value field.now || is_connection_specific field.now) }
    ensures broken { IfSome result (λ rule. breaks field.now rule ≡ true) }
{
    if has_bad_name(field) {
        Some(name_rule(field))
    } else if has_bad_value(field) {
        Some(value_rule(field))
    } else if is_connection_specific(field) {
        Some(FieldRule::OneConnection)
    } else {
        None
    }
}

/// What is wrong with a bad name. Of its forbidden bytes the first counts.
fn name_rule(field: &Field) -> FieldRule
    requires bad { has_bad_name field.now ≡ true }
    ensures broken { breaks field.now result ≡ true }
{
    let name = field.name.as_slice();
    if name.is_empty() {
        return FieldRule::NoName;
    }
    match forbidden_in_name(name) {
        Some(byte) if byte.is_ascii_uppercase() => FieldRule::UpperCase,
        Some(byte) => FieldRule::NameByte(byte),
        None => FieldRule::NameByte(b':'),
    }
}

/// The first forbidden byte of a name.
fn forbidden_in_name(name: &[u8]) -> Option<u8>
    ensures { result ≡ find is_forbidden_in_names name.now }
{
    name.iter()
        .copied()
        .find(|byte| is_forbidden_in_names(*byte))
}

/// What is wrong with a bad value.
fn value_rule(field: &Field) -> FieldRule
    requires bad { has_bad_value field.now ≡ true }
    ensures broken { breaks field.now result ≡ true }
{
    match forbidden_in_value(field.value.as_slice()) {
        Some(byte) => FieldRule::ValueByte(byte),
        None => FieldRule::ValueBlank,
    }
}

/// The first forbidden byte of a value.
fn forbidden_in_value(value: &[u8]) -> Option<u8>
    ensures { result ≡ find is_forbidden_in_values value.now }
{
    value
        .iter()
        .copied()
        .find(|byte| is_forbidden_in_values(*byte))
}

/// The text that a field with this name breaks a rule.
#[derive(Clone, Copy)]
pub struct BrokenRule<'a>(pub FieldRule, pub &'a str);

impl<'a> fmt::Display for BrokenRule<'a> {
    fn fmt<W: fmt::Write>(&self, f: &mut fmt::Formatter<W>) -> fmt::Result {
        let name = self.1;
        match self.0 {
            FieldRule::NoName => write!(f, "a field has no name (RFC 9113, 8.2.1)"),
            FieldRule::UpperCase => write!(
                f,
                "the name {name:?} has an upper-case letter (RFC 9113, 8.2.1)"
            ),
            FieldRule::NameByte(byte) => write!(
                f,
                "the name {name:?} has the byte {byte:02x} (RFC 9113, 8.2.1)"
            ),
            FieldRule::ValueByte(byte) => write!(
                f,
                "the value of {name:?} has the byte {byte:02x} (RFC 9113, 8.2.1)"
            ),
            FieldRule::ValueBlank => write!(
                f,
                "the value of {name:?} begins or ends with a blank (RFC 9113, 8.2.1)"
            ),
            FieldRule::OneConnection => write!(
                f,
                "the field {name:?} speaks of one connection (RFC 9113, 8.2.2)"
            ),
            FieldRule::Late => write!(
                f,
                "the pseudo-header {name:?} came after another field (RFC 9113, 8.3)"
            ),
            FieldRule::InTrailers => write!(
                f,
                "the pseudo-header {name:?} in trailers, wanted none (RFC 9113, 8.1)"
            ),
        }
    }
}
