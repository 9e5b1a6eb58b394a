//! Texts in XML (XML 1.0, fifth edition).

ghost use Rattle.std.specs.Prelude.{◌≡◌, ◌++◌, IfOk, OnOk, string_bytes};
ghost use Rattle.std.specs.Fmt.{decimal};
ghost use Rattle.std.specs.List.{flat_map};
ghost use Rattle.results.specs.Xml.{
  attribute,
  char_text,
  declaration,
  end_tag,
  is_allowed,
  open_tag,
  xml_text,
};

use std::alloc::{AllocError, Global};

/// Whether XML allows a character (section 2.2, `Char`).
fn is_allowed(c: char) -> bool
    ensures { result ≡ is_allowed c }
{
    matches!(
        c,
        '\t' | '\n' | '\r' | ' '..='\u{d7ff}' | '\u{e000}'..='\u{fffd}' | '\u{10000}'..='\u{10ffff}'
    )
}

/// Adds a character, so that it reads back as itself in an element's content and in an attribute's
/// value: markup and line ends by references (sections 2.4, 2.11, 3.3.3), and one that XML doesn't
/// allow as U+FFFD.
fn push_char(xml: &mut String, c: char) -> Result<(), AllocError>
    ensures { OnOk result (string_bytes xml.new ≡ string_bytes xml.old ++ char_text c) }
{
    match c {
        '&' => xml.push_str("&amp;"),
        '<' => xml.push_str("&lt;"),
        '>' => xml.push_str("&gt;"),
        '"' => xml.push_str("&quot;"),
        '\t' => xml.push_str("&#9;"),
        '\n' => xml.push_str("&#10;"),
        '\r' => xml.push_str("&#13;"),
        _ if is_allowed(c) => xml.push(c),
        _ => xml.push('\u{fffd}'),
    }
}

/// Adds characters.
fn push_chars(xml: &mut String, all: &[char]) -> Result<(), AllocError>
    ensures { OnOk result (string_bytes xml.new
        ≡ string_bytes xml.old ++ flat_map char_text all.now) }
{
    for c in all {
        push_char(xml, *c)?;
    }
    Ok(())
}

/// Adds a text.
fn push_text(alloc: Global, xml: &mut String, text: &str) -> Result<(), AllocError>
    ensures { OnOk result (string_bytes xml.new ≡ string_bytes xml.old ++ xml_text text.now) }
{
    let all: Vec<char> = text.chars().collect(alloc)?;
    push_chars(xml, all.as_slice())
}

/// A text as it stands in an element's content and in an attribute's value.
pub fn escaped(alloc: Global, text: &str) -> Result<String, AllocError>
    ensures { IfOk result (λ xml. string_bytes xml ≡ xml_text text.now) }
{
    let mut xml = String::new(alloc);
    push_text(alloc, &mut xml, text)?;
    Ok(xml)
}

/// Adds what a document begins with (section 2.8).
#[tactic(auto, unfolding(crate::specs::Xml::declaration))]
pub fn push_declaration(xml: &mut String) -> Result<(), AllocError>
    ensures { OnOk result (string_bytes xml.new ≡ string_bytes xml.old ++ declaration) }
{
    xml.push_str("<?xml version=\"1.0\" encoding=\"UTF-8\"?>\n")
}

/// Adds how an element begins, up to its attributes (section 3.1).
#[tactic(auto, unfolding(crate::specs::Xml::open_tag))]
pub fn push_open(xml: &mut String, name: &str) -> Result<(), AllocError>
    ensures { OnOk result (string_bytes xml.new ≡ string_bytes xml.old ++ open_tag name.now) }
{
    write!(xml, "<{name}")
}

/// Adds an attribute, with its value as it is written.
#[tactic(auto, unfolding(crate::specs::Xml::attribute))]
pub fn push_attribute(xml: &mut String, name: &str, value: &str) -> Result<(), AllocError>
    ensures { OnOk result (string_bytes xml.new
        ≡ string_bytes xml.old ++ attribute name.now value.now) }
{
    write!(xml, " {name}=\"{value}\"")
}

/// Adds an attribute whose value is a number.
#[tactic(auto, unfolding(crate::specs::Xml::attribute))]
pub fn push_number(xml: &mut String, name: &str, value: usize) -> Result<(), AllocError>
    ensures { OnOk result (string_bytes xml.new
        ≡ string_bytes xml.old ++ attribute name.now (decimal value)) }
{
    write!(xml, " {name}=\"{value}\"")
}

/// Adds how an element ends that has content.
#[tactic(auto, unfolding(crate::specs::Xml::end_tag))]
pub fn push_end(xml: &mut String, name: &str) -> Result<(), AllocError>
    ensures { OnOk result (string_bytes xml.new ≡ string_bytes xml.old ++ end_tag name.now) }
{
    write!(xml, "</{name}>")
}
