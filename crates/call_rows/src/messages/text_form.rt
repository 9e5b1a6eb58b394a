//! The text form of a message, as the reference protobuf library prints it on one line: the fields
//! that are no defaults, with their names, by ascending number.

use anyhow::Result;
use std::alloc::Global;
use testproto::{
    BoolValue, EchoStatus, Empty, Payload, ResponseParameters, SimpleRequest, SimpleResponse,
    StreamingInputCallRequest, StreamingInputCallResponse, StreamingOutputCallRequest,
    StreamingOutputCallResponse,
};

/// The fewest equal bytes that are written as one byte and how often it stands.
const LONG_RUN: usize = 16;

/// What has a text form.
pub trait HasTextForm {
    fn show(&self, form: &mut TextForm) -> Result<()>;
}

/// Fields in their text form, each with a blank after it.
#[derive(Drop)]
pub struct TextForm {
    text: String,
}

impl TextForm {
    pub fn new(alloc: Global) -> TextForm {
        TextForm {
            text: String::new(alloc),
        }
    }

    pub fn into_text(self) -> String {
        let TextForm { text } = self;
        text
    }

    fn number(&mut self, name: &str, value: i32) -> Result<()> {
        if value != 0 {
            write!(self.text, "{name}: {value} ")?;
        }
        Ok(())
    }

    fn flag(&mut self, name: &str, value: bool) -> Result<()> {
        if value {
            write!(self.text, "{name}: true ")?;
        }
        Ok(())
    }

    fn bytes(&mut self, name: &str, bytes: &[u8]) -> Result<()> {
        if !bytes.is_empty() {
            write!(self.text, "{name}: ")?;
            push_quoted(&mut self.text, bytes)?;
            self.text.push(' ')?;
        }
        Ok(())
    }

    fn one<M: HasTextForm>(&mut self, name: &str, message: &M) -> Result<()> {
        write!(self.text, "{name} {{ ")?;
        message.show(self)?;
        self.text.push_str("} ")?;
        Ok(())
    }

    fn message<M: HasTextForm>(&mut self, name: &str, held: &Option<M>) -> Result<()> {
        match held {
            Some(message) => self.one(name, message),
            None => Ok(()),
        }
    }
}

/// A byte of a string: itself, or how it is escaped.
fn push_escaped(text: &mut String, byte: u8) -> Result<()> {
    match byte {
        b'\t' => text.push_str("\\t")?,
        b'\n' => text.push_str("\\n")?,
        b'\r' => text.push_str("\\r")?,
        b'"' => text.push_str("\\\"")?,
        b'\'' => text.push_str("\\'")?,
        b'\\' => text.push_str("\\\\")?,
        b' '..=b'~' => text.push(char::from(byte))?,
        _ => write!(text, "\\{byte:03o}")?,
    }
    Ok(())
}

/// Bytes in quotes; many of one byte are written once, with their number.
fn push_quoted(text: &mut String, bytes: &[u8]) -> Result<()> {
    text.push('"')?;
    match bytes {
        [first, ..] if LONG_RUN <= bytes.len() && bytes.iter().all(|byte| *byte == *first) => {
            push_escaped(text, *first)?;
            write!(text, "\"*{}", bytes.len())?;
        }
        _ => {
            for byte in bytes {
                push_escaped(text, *byte)?;
            }
            text.push('"')?;
        }
    }
    Ok(())
}

impl HasTextForm for Empty {
    fn show(&self, _form: &mut TextForm) -> Result<()> {
        Ok(())
    }
}

impl HasTextForm for Payload<'_> {
    fn show(&self, form: &mut TextForm) -> Result<()> {
        form.number("type", self.kind)?;
        form.bytes("body", self.body.as_slice())
    }
}

impl HasTextForm for BoolValue {
    fn show(&self, form: &mut TextForm) -> Result<()> {
        form.flag("value", self.value)
    }
}

impl HasTextForm for EchoStatus<'_> {
    fn show(&self, form: &mut TextForm) -> Result<()> {
        form.number("code", self.code)?;
        form.bytes("message", self.message.as_str().as_bytes())
    }
}

impl HasTextForm for SimpleRequest<'_> {
    fn show(&self, form: &mut TextForm) -> Result<()> {
        form.number("response_type", self.response_type)?;
        form.number("response_size", self.response_size)?;
        form.message("payload", &self.payload)?;
        form.flag("fill_username", self.fill_username)?;
        form.flag("fill_oauth_scope", self.fill_oauth_scope)?;
        form.message("response_compressed", &self.response_compressed)?;
        form.message("response_status", &self.response_status)?;
        form.message("expect_compressed", &self.expect_compressed)
    }
}

impl HasTextForm for SimpleResponse<'_> {
    fn show(&self, form: &mut TextForm) -> Result<()> {
        form.message("payload", &self.payload)?;
        form.bytes("username", self.username.as_str().as_bytes())?;
        form.bytes("oauth_scope", self.oauth_scope.as_str().as_bytes())
    }
}

impl HasTextForm for StreamingInputCallRequest<'_> {
    fn show(&self, form: &mut TextForm) -> Result<()> {
        form.message("payload", &self.payload)?;
        form.message("expect_compressed", &self.expect_compressed)
    }
}

impl HasTextForm for StreamingInputCallResponse {
    fn show(&self, form: &mut TextForm) -> Result<()> {
        form.number("aggregated_payload_size", self.aggregated_payload_size)
    }
}

impl HasTextForm for ResponseParameters {
    fn show(&self, form: &mut TextForm) -> Result<()> {
        form.number("size", self.size)?;
        form.number("interval_us", self.interval_us)?;
        form.message("compressed", &self.compressed)
    }
}

impl HasTextForm for StreamingOutputCallRequest<'_> {
    fn show(&self, form: &mut TextForm) -> Result<()> {
        form.number("response_type", self.response_type)?;
        for parameters in self.response_parameters.as_slice() {
            form.one("response_parameters", parameters)?;
        }
        form.message("payload", &self.payload)?;
        form.message("response_status", &self.response_status)
    }
}

impl HasTextForm for StreamingOutputCallResponse<'_> {
    fn show(&self, form: &mut TextForm) -> Result<()> {
        form.message("payload", &self.payload)
    }
}
