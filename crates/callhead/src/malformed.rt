//! Which fields aren't a request's, and which aren't its trailers (RFC 9113, sections 8.1, 8.2 and
//! 8.3).
//!
//! Each cause is a test of the whole list of fields. A pseudo-header is late if it comes after the
//! longest run of pseudo-headers at the beginning.

ghost use Rattle.std.specs.Prelude.{◌≡◌, ◌==◌, drop, option_copied};
ghost use Rattle.callhead.specs.MalformedHeads.{
  is_forbidden_in_names,
  has_bad_name,
  is_blank,
  is_forbidden_in_values,
  has_bad_value,
  is_connection_specific,
  is_other_te,
  is_pseudo_header,
  is_unknown,
  is_empty_path,
  has_late_pseudo_header,
  is_repeated,
  is_missing,
  is_malformed_field,
  is_malformed,
  is_malformed_trailer,
  are_malformed_trailers,
  pseudo_headers,
  required_headers,
};
ghost use Rattle.std.specs.List.{list_any};

use crate::fields::{count_named, first_value, is_named};
use lists::Field;

const METHOD: &[u8] = b":method";

const SCHEME: &[u8] = b":scheme";

const PATH: &[u8] = b":path";

const AUTHORITY: &[u8] = b":authority";

/// The one value that `te` may have.
const TRAILERS: &[u8] = b"trailers";

/// Whether the fields aren't a request's.
#[tactic(auto, unfolding(crate::specs::MalformedHeads::is_malformed))]
pub fn is_malformed(fields: &[Field]) -> bool
    ensures { result ≡ is_malformed fields.now }
{
    has_malformed_field(fields)
        || has_late_pseudo_header(fields)
        || repeats_pseudo_header(fields)
        || lacks_pseudo_header(fields)
}

fn has_malformed_field(fields: &[Field]) -> bool
    ensures { result ≡ list_any is_malformed_field fields.now }
{
    fields.iter().any(|field| is_malformed_field(field))
}

/// Whether one field alone makes a request malformed.
fn is_malformed_field(field: &Field) -> bool
    ensures { result ≡ is_malformed_field field.now }
{
    has_bad_name(field)
        || has_bad_value(field)
        || is_connection_specific(field)
        || is_other_te(field)
        || is_unknown(field)
        || is_empty_path(field)
}

/// Whether the name is empty, has a forbidden byte, or a colon that isn't its first byte (RFC 9113,
/// section 8.2.1).
pub fn has_bad_name(field: &Field) -> bool
    ensures { result ≡ has_bad_name field.now }
{
    let name = field.name.as_slice();
    name.is_empty() || has_forbidden_byte(name) || has_inner_colon(name)
}

fn has_forbidden_byte(name: &[u8]) -> bool
    ensures { result ≡ list_any is_forbidden_in_names name.now }
{
    name.iter().any(|byte| is_forbidden_in_names(*byte))
}

/// Whether a colon comes after the name's first byte.
pub fn has_inner_colon(name: &[u8]) -> bool
    ensures { result ≡ list_any (λ byte. byte == 0x3A) (drop 1 name.now) }
{
    name.iter().skip(1).any(|byte| *byte == b':')
}

/// Whether no name has this byte (RFC 9113, section 8.2.1).
pub fn is_forbidden_in_names(byte: u8) -> bool
    ensures { result ≡ is_forbidden_in_names byte }
{
    byte <= b' ' || (b'A' <= byte && byte <= b'Z') || 0x7f <= byte
}

/// Whether the value has a forbidden byte, or a blank at an end (RFC 9113, section 8.2.1).
pub fn has_bad_value(field: &Field) -> bool
    ensures { result ≡ has_bad_value field.now }
{
    let value = field.value.as_slice();
    ends_the_line(value) || is_blank(value.first()) || is_blank(value.last())
}

/// Whether a byte ends the line or the text.
fn ends_the_line(value: &[u8]) -> bool
    ensures { result ≡ list_any is_forbidden_in_values value.now }
{
    value.iter().any(|byte| is_forbidden_in_values(*byte))
}

/// Whether no value has this byte (RFC 9113, section 8.2.1).
pub fn is_forbidden_in_values(byte: u8) -> bool
    ensures { result ≡ is_forbidden_in_values byte }
{
    byte == 0 || byte == b'\n' || byte == b'\r'
}

/// Whether there is a byte, and it is a space or a tab.
pub fn is_blank(byte: Option<&u8>) -> bool
    ensures { result ≡ is_blank (option_copied byte.entry) }
{
    match byte {
        Some(byte) => *byte == b' ' || *byte == b'\t',
        None => false,
    }
}

/// Whether the field is connection-specific (RFC 9113, section 8.2.2), but for `te`, which a
/// request may have.
pub fn is_connection_specific(field: &Field) -> bool
    ensures { result ≡ is_connection_specific field.now }
{
    is_named(field, b"connection")
        || is_named(field, b"proxy-connection")
        || is_named(field, b"keep-alive")
        || is_named(field, b"transfer-encoding")
        || is_named(field, b"upgrade")
}

/// Whether it is a `te` other than `trailers` (RFC 9113, section 8.2.2).
pub fn is_other_te(field: &Field) -> bool
    ensures { result ≡ is_other_te field.now }
{
    is_named(field, b"te") && field.value.as_slice() != TRAILERS
}

/// Whether its name begins with a colon (RFC 9113, section 8.3).
pub fn is_pseudo_header(field: &Field) -> bool
    ensures { result ≡ is_pseudo_header field.now }
{
    field.name.as_slice().first() == Some(&b':')
}

/// Whether it is a pseudo-header that no request has.
pub fn is_unknown(field: &Field) -> bool
    ensures { result ≡ is_unknown field.now }
{
    is_pseudo_header(field)
        && !(is_named(field, METHOD)
            || is_named(field, SCHEME)
            || is_named(field, PATH)
            || is_named(field, AUTHORITY))
}

/// Whether it is a `:path` of no bytes (RFC 9113, section 8.3.1).
pub fn is_empty_path(field: &Field) -> bool
    ensures { result ≡ is_empty_path field.now }
{
    is_named(field, PATH) && field.value.is_empty()
}

/// Whether a pseudo-header comes after another field (RFC 9113, section 8.3).
pub fn has_late_pseudo_header(fields: &[Field]) -> bool
    ensures { result ≡ has_late_pseudo_header fields.now }
{
    fields
        .iter()
        .skip_while(|field| is_pseudo_header(field))
        .any(|field| is_pseudo_header(field))
}

/// Whether a pseudo-header comes twice.
fn repeats_pseudo_header(fields: &[Field]) -> bool
    ensures { result ≡ list_any (is_repeated fields.now) pseudo_headers }
{
    is_repeated(fields, METHOD)
        || is_repeated(fields, SCHEME)
        || is_repeated(fields, PATH)
        || is_repeated(fields, AUTHORITY)
}

fn is_repeated(fields: &[Field], name: &[u8]) -> bool
    ensures { result ≡ is_repeated fields.now name.now }
{
    1 < count_named(fields, name)
}

/// Whether a pseudo-header is missing.
fn lacks_pseudo_header(fields: &[Field]) -> bool
    ensures { result ≡ list_any (is_missing fields.now) required_headers }
{
    is_missing(fields, METHOD) || is_missing(fields, SCHEME) || is_missing(fields, PATH)
}

fn is_missing(fields: &[Field], name: &[u8]) -> bool
    ensures { result ≡ is_missing fields.now name.now }
{
    first_value(fields, name).is_none()
}

/// Whether the fields aren't trailers of a request (RFC 9113, section 8.1).
#[tactic(auto, unfolding(crate::specs::MalformedHeads::are_malformed_trailers))]
pub fn are_malformed_trailers(fields: &[Field]) -> bool
    ensures { result ≡ are_malformed_trailers fields.now }
{
    fields.iter().any(|field| is_malformed_trailer(field))
}

/// Whether one field alone makes trailers malformed.
fn is_malformed_trailer(field: &Field) -> bool
    ensures { result ≡ is_malformed_trailer field.now }
{
    has_bad_name(field)
        || has_bad_value(field)
        || is_connection_specific(field)
        || is_other_te(field)
        || is_pseudo_header(field)
}
