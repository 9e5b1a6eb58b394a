//! Which rule the fields of a request break (RFC 9113, sections 8.1 to 8.3), and the text of each.

use crate::text::escaped;
use callhead::{count_named, is_empty_path, is_other_te, is_pseudo_header, is_unknown};
use figures::{BrokenRule, FieldRule, field_rule, shown};
use lists::Field;
use std::alloc::{AllocError, Global};
use std::fmt;

const PSEUDO_HEADERS: [&[u8]; 4] = [b":method", b":scheme", b":path", b":authority"];

/// The pseudo-headers that each request has.
const REQUIRED: [&[u8]; 3] = [b":method", b":scheme", b":path"];

/// A rule on the fields of a request.
#[derive(Clone, Copy, Debug, PartialEq, Eq)]
pub enum RequestRule {
    /// One that responses have too.
    Field(FieldRule),
    /// `te` isn't `trailers`.
    Te,
    /// A pseudo-header that no request has.
    Unknown,
    EmptyPath,
    /// A pseudo-header that comes twice.
    Repeated,
    /// A pseudo-header that is missing.
    Missing,
}

/// A rule that a field breaks, by the fronts of its name and value.
#[derive(Drop)]
pub struct FieldFault {
    pub rule: RequestRule,
    pub name: String,
    pub value: String,
}

/// Which rule the fields that open a stream break, if they aren't a request's.
pub fn request_fault(alloc: Global, fields: &[Field]) -> Result<Option<FieldFault>, AllocError> {
    let mut is_behind = false;
    for field in fields {
        let rule = match rule_of(field) {
            None if is_behind && is_pseudo_header(field) => Some(RequestRule::Field(
                FieldRule::Late,
            )),
            None if is_unknown(field) => Some(RequestRule::Unknown),
            None if is_empty_path(field) => Some(RequestRule::EmptyPath),
            rule => rule,
        };
        if let Some(rule) = rule {
            return Ok(Some(fault(alloc, rule, field)?));
        }
        is_behind = is_behind || !is_pseudo_header(field);
    }
    for name in PSEUDO_HEADERS {
        if count_named(fields, name) > 1 {
            return Ok(Some(of_name(alloc, RequestRule::Repeated, name)?));
        }
    }
    for name in REQUIRED {
        if count_named(fields, name) == 0 {
            return Ok(Some(of_name(alloc, RequestRule::Missing, name)?));
        }
    }
    Ok(None)
}

/// Which rule the trailers of a request break, if they break one.
pub fn trailers_fault(alloc: Global, fields: &[Field]) -> Result<Option<FieldFault>, AllocError> {
    for field in fields {
        let rule = match rule_of(field) {
            None if is_pseudo_header(field) => Some(RequestRule::Field(FieldRule::InTrailers)),
            rule => rule,
        };
        if let Some(rule) = rule {
            return Ok(Some(fault(alloc, rule, field)?));
        }
    }
    Ok(None)
}

fn fault(alloc: Global, rule: RequestRule, field: &Field) -> Result<FieldFault, AllocError> {
    let name = field.name.as_slice();
    Ok(FieldFault {
        rule,
        name: if has_any_byte(rule) {
            escaped(alloc, name)?
        } else {
            shown(alloc, name)?
        },
        value: escaped(alloc, field.value.as_slice())?,
    })
}

/// Whether a name that breaks this rule may have bytes that no text has.
fn has_any_byte(rule: RequestRule) -> bool {
    matches!(
        rule,
        RequestRule::Field(FieldRule::UpperCase | FieldRule::NameByte(_))
    )
}

fn of_name(alloc: Global, rule: RequestRule, name: &[u8]) -> Result<FieldFault, AllocError> {
    Ok(FieldFault {
        rule,
        name: shown(alloc, name)?,
        value: String::new(alloc),
    })
}

/// The rule that a field breaks by itself.
fn rule_of(field: &Field) -> Option<RequestRule> {
    match field_rule(field) {
        Some(rule) => Some(RequestRule::Field(rule)),
        None if is_other_te(field) => Some(RequestRule::Te),
        None => None,
    }
}

impl fmt::Display for FieldFault {
    fn fmt<W: fmt::Write>(&self, f: &mut fmt::Formatter<W>) -> fmt::Result {
        let (name, value) = (self.name.as_str(), self.value.as_str());
        match self.rule {
            RequestRule::Field(FieldRule::UpperCase) => write!(
                f,
                "the name \"{name}\" has an upper-case letter (RFC 9113, 8.2.1)"
            ),
            RequestRule::Field(FieldRule::NameByte(byte)) => write!(
                f,
                "the name \"{name}\" has the byte {byte:02x} (RFC 9113, 8.2.1)"
            ),
            RequestRule::Field(rule) => {
                let broken = BrokenRule(rule, name);
                write!(f, "{broken}")
            }
            RequestRule::Te => write!(
                f,
                "te is \"{value}\", wanted \"trailers\" (RFC 9113, 8.2.2)"
            ),
            RequestRule::Unknown => write!(
                f,
                "the pseudo-header {name:?}, which no request has (RFC 9113, 8.3)"
            ),
            RequestRule::EmptyPath => write!(f, ":path is empty (RFC 9113, 8.3.1)"),
            RequestRule::Repeated => write!(f, "{name} came twice, wanted once (RFC 9113, 8.3)"),
            RequestRule::Missing => write!(f, "no {name}, wanted one (RFC 9113, 8.3.1)"),
        }
    }
}
