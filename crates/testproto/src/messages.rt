//! The messages. One with bytes or a text borrows them for `'a`.
//!
//! Open enums (`kind`, `response_type`) are `i32`.

ghost use Rattle.std.specs.Prelude.{◌≡◌, ◌++◌, ◌∷◌, [], OnOk, OnErr};

use crate::lists::{ByteList, Text};
use std::alloc::{AllocError, Global};
use std::marker::Model;

/// No field.
#[derive(Debug, Drop)]
pub struct Empty {}

/// A block of data.
#[derive(Debug, Drop)]
pub struct Payload<'a> {
    /// The type of the data: 0 where nothing is said.
    pub kind: i32,
    pub body: ByteList<'a>,
}

#[derive(Debug, Drop)]
pub struct BoolValue {
    pub value: bool,
}

/// A status that the server is to answer.
#[derive(Debug, Drop)]
pub struct EchoStatus<'a> {
    pub code: i32,
    pub message: Text<'a>,
}

#[derive(Debug, Drop)]
pub struct SimpleRequest<'a> {
    pub response_type: i32,
    pub response_size: i32,
    pub payload: Option<Payload<'a>>,
    pub fill_username: bool,
    pub fill_oauth_scope: bool,
    pub response_compressed: Option<BoolValue>,
    pub response_status: Option<EchoStatus<'a>>,
    pub expect_compressed: Option<BoolValue>,
}

#[derive(Debug, Drop)]
pub struct SimpleResponse<'a> {
    pub payload: Option<Payload<'a>>,
    pub username: Text<'a>,
    pub oauth_scope: Text<'a>,
}

#[derive(Debug, Drop)]
pub struct StreamingInputCallRequest<'a> {
    pub payload: Option<Payload<'a>>,
    pub expect_compressed: Option<BoolValue>,
}

#[derive(Debug, Drop)]
pub struct StreamingInputCallResponse {
    /// The sum of the lengths of the bodies.
    pub aggregated_payload_size: i32,
}

/// One response that is asked for.
#[derive(Debug, Drop)]
pub struct ResponseParameters {
    /// The length of its body.
    pub size: i32,
    /// Microseconds to wait before it.
    pub interval_us: i32,
    pub compressed: Option<BoolValue>,
}

#[derive(Debug, Drop)]
pub struct StreamingOutputCallRequest<'a> {
    pub response_type: i32,
    pub response_parameters: ParameterList,
    pub payload: Option<Payload<'a>>,
    pub response_status: Option<EchoStatus<'a>>,
}

#[derive(Debug, Drop)]
pub struct StreamingOutputCallResponse<'a> {
    pub payload: Option<Payload<'a>>,
}

/// Responses that are asked for, in order. In a contract it is their list.
#[derive(Debug, Drop)]
pub struct ParameterList {
    items: Vec<ResponseParameters>,
}

impl Model for ParameterList {
    ghost use Rattle.std.specs.Prelude.{List};
    ghost use Rattle.testproto.specs.declared.messages.ResponseParameters.{
      ResponseParameters as Parameters,
    };

    ghost Value = { List Parameters };

    ghost view = { λ list. list.items.items };
}

impl ParameterList {
    pub fn new(alloc: Global) -> ParameterList
        ensures { result ≡ [] }
    {
        ParameterList {
            items: Vec::new(alloc),
        }
    }

    pub fn from_vec(items: Vec<ResponseParameters>) -> ParameterList
        ensures { result ≡ items.items }
    {
        ParameterList { items }
    }

    pub fn as_slice(&self) -> &[ResponseParameters]
        ensures { result.now ≡ self.now }
    {
        &self.items
    }

    pub fn push(&mut self, parameters: ResponseParameters) -> Result<(), AllocError>
        ensures ok { OnOk result (self.new ≡ self.old ++ parameters ∷ []) }
        ensures err { OnErr result (self.new ≡ self.old) }
    {
        self.items.push(parameters)?;
        Ok(())
    }
}
