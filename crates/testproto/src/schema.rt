//! The fields of each message. Every impl has three lists, each with a call for each field.
//!
//! A message takes a field by asking each of its own fields in turn, not by a `match` on numbers:
//! so each kind is written and proved once. That is at most eight comparisons for each field.

ghost use Rattle.std.specs.Prelude.{
  ◌≢◌,
  ◌++◌,
  ◌∷◌,
  [],
  List,
  length,
  ◌≡◌,
  ◌+◌,
  ◌^◌,
  ◌≤◌,
  take,
  IfErr,
  IfSome,
  IfNone,
  OnOk,
};
ghost use Rattle.pbwire.specs.Spelling.{spelling_of_all, IsFieldNumber};
ghost use Rattle.pbwire.specs.Fields.{Field, field_of};
ghost use Rattle.testproto.specs.declared.fault.ProtoFault.TheVariants.{OutOfMemory};
ghost use Rattle.testproto.specs.Values.{
  contents,
  AreRepeated,
  AcceptsMessage,
  RefusesMessage,
  HasFault,
};
ghost use Rattle.testproto.specs.Messages.{
  AcceptsAll,
  RefusesNone,
  IsEmpty,
  IsPayload,
  IsBoolValue,
  IsEchoStatus,
  IsSimpleRequest,
  IsSimpleResponse,
  IsStreamingInputCallRequest,
  IsStreamingInputCallResponse,
  IsResponseParameters,
  IsStreamingOutputCallRequest,
  IsStreamingOutputCallResponse,
  AcceptsEchoStatus,
  RefusesEchoStatus,
  AcceptsSimpleRequest,
  RefusesSimpleRequest,
  AcceptsSimpleResponse,
  RefusesSimpleResponse,
  AcceptsStreamingInputCallRequest,
  RefusesStreamingInputCallRequest,
  AcceptsResponseParameters,
  RefusesResponseParameters,
  AcceptsStreamingOutputCallRequest,
  RefusesStreamingOutputCallRequest,
  AcceptsStreamingOutputCallResponse,
  RefusesStreamingOutputCallResponse,
};
ghost use Rattle.testproto.specs.Canonical.{
  empty_fields,
  payload_fields,
  bool_value_fields,
  echo_status_fields,
  simple_request_fields,
  simple_response_fields,
  streaming_input_call_request_fields,
  streaming_input_call_response_fields,
  response_parameters_fields,
  streaming_output_call_request_fields,
  streaming_output_call_response_fields,
  repeated_fields,
};
ghost use Rattle.testproto.specs.Laws.{
  apart_none,
  one_empty,
  one_payload,
  one_bool_value,
  one_echo_status,
  one_simple_request,
  one_simple_response,
  one_streaming_input_call_request,
  one_streaming_input_call_response,
  one_response_parameters,
  one_streaming_output_call_request,
  one_streaming_output_call_response,
  apart_echo_status,
  apart_simple_request,
  apart_simple_response,
  apart_streaming_input_call_request,
  apart_response_parameters,
  apart_streaming_output_call_request,
  apart_streaming_output_call_response,
};
ghost use Rattle.testproto.specs.Fits.{
  FitsAlways,
  FitsPayload,
  FitsEchoStatus,
  FitsSimpleRequest,
  FitsSimpleResponse,
  FitsStreamingInputCallRequest,
  FitsStreamingInputCallResponse,
  FitsResponseParameters,
  FitsStreamingOutputCallRequest,
  FitsStreamingOutputCallResponse,
};
ghost use Rattle.testproto.specs.Written.{
  read_empty,
  read_payload,
  read_bool_value,
  read_echo_status,
  read_simple_request,
  read_simple_response,
  read_streaming_input_call_request,
  read_streaming_input_call_response,
  read_response_parameters,
  read_streaming_output_call_request,
  read_streaming_output_call_response,
};
ghost use Rattle.testproto.specs.Totals.{
  total_empty,
  total_payload,
  total_bool_value,
  total_echo_status,
  total_simple_request,
  total_simple_response,
  total_streaming_input_call_request,
  total_streaming_input_call_response,
  total_response_parameters,
  total_streaming_output_call_request,
  total_streaming_output_call_response,
};
ghost use Rattle.std.specs.List.{AllByRecursion};

use crate::fault::ProtoFault;
use crate::lists::{ByteList, Text};
use crate::message::Message;
use crate::messages::{
    BoolValue, EchoStatus, Empty, ParameterList, Payload, ResponseParameters, SimpleRequest,
    SimpleResponse, StreamingInputCallRequest, StreamingInputCallResponse,
    StreamingOutputCallRequest, StreamingOutputCallResponse,
};
use crate::put::{
    add_bool, add_bytes, add_int32, add_message, add_one, put_bool, put_bytes, put_int32,
    put_message, put_one,
};
use crate::take::{read_message, take_bool, take_bytes, take_int32, take_message, take_text};
use pbwire::FieldItem;
use std::alloc::Global;

impl<'a> Message<'a> for Empty {
    ghost is_value = { IsEmpty };

    ghost fits = { FitsAlways };

    ghost fields_of = { empty_fields };

    ghost accepts = { AcceptsAll };

    ghost refuses = { RefusesNone };

    ghost one_value = { one_empty };

    ghost apart = { apart_none };

    ghost value_or_fault = { total_empty };

    ghost read_back = { read_empty };

    #[tactic(auto, unfolding(crate::specs::Values::int32, crate::specs::Values::boolean, crate::specs::Values::byte_string))]
    fn empty(_alloc: Global) -> Empty {
        Empty {}
    }

    fn take(&mut self, _alloc: Global, _item: &FieldItem<'a>) -> Result<(), ProtoFault> {
        Ok(())
    }

    fn size(&self) -> Option<usize> {
        Some(0)
    }

    fn put_fields(&self, _out: &mut Vec<u8>) -> Result<(), ProtoFault> {
        Ok(())
    }
}

impl<'a> Message<'a> for Payload<'a> {
    ghost is_value = { IsPayload };

    ghost fits = { FitsPayload };

    ghost fields_of = { payload_fields };

    ghost accepts = { AcceptsAll };

    ghost refuses = { RefusesNone };

    ghost one_value = { one_payload };

    ghost apart = { apart_none };

    ghost value_or_fault = { total_payload };

    ghost read_back = { read_payload };

    #[tactic(auto, unfolding(crate::specs::Values::int32, crate::specs::Values::boolean, crate::specs::Values::byte_string))]
    fn empty(_alloc: Global) -> Payload<'a> {
        Payload {
            kind: 0,
            body: ByteList::new(),
        }
    }

    fn take(&mut self, _alloc: Global, item: &FieldItem<'a>) -> Result<(), ProtoFault> {
        take_int32(&mut self.kind, 1, item);
        take_bytes(&mut self.body, 2, item);
        Ok(())
    }

    fn size(&self) -> Option<usize> {
        let size = add_int32(0, 1, self.kind)?;
        let size = add_bytes(size, 2, self.body.as_slice())?;
        Some(size)
    }

    fn put_fields(&self, out: &mut Vec<u8>) -> Result<(), ProtoFault> {
        put_int32(1, self.kind, out)?;
        put_bytes(2, self.body.as_slice(), out)?;
        Ok(())
    }
}

impl<'a> Message<'a> for BoolValue {
    ghost is_value = { IsBoolValue };

    ghost fits = { FitsAlways };

    ghost fields_of = { bool_value_fields };

    ghost accepts = { AcceptsAll };

    ghost refuses = { RefusesNone };

    ghost one_value = { one_bool_value };

    ghost apart = { apart_none };

    ghost value_or_fault = { total_bool_value };

    ghost read_back = { read_bool_value };

    #[tactic(auto, unfolding(crate::specs::Values::int32, crate::specs::Values::boolean, crate::specs::Values::byte_string))]
    fn empty(_alloc: Global) -> BoolValue {
        BoolValue { value: false }
    }

    fn take(&mut self, _alloc: Global, item: &FieldItem<'a>) -> Result<(), ProtoFault> {
        take_bool(&mut self.value, 1, item);
        Ok(())
    }

    fn size(&self) -> Option<usize> {
        let size = add_bool(0, 1, self.value)?;
        Some(size)
    }

    fn put_fields(&self, out: &mut Vec<u8>) -> Result<(), ProtoFault> {
        put_bool(1, self.value, out)?;
        Ok(())
    }
}

impl<'a> Message<'a> for EchoStatus<'a> {
    ghost is_value = { IsEchoStatus };

    ghost fits = { FitsEchoStatus };

    ghost fields_of = { echo_status_fields };

    ghost accepts = { AcceptsEchoStatus };

    ghost refuses = { RefusesEchoStatus };

    ghost one_value = { one_echo_status };

    ghost apart = { apart_echo_status };

    ghost value_or_fault = { total_echo_status };

    ghost read_back = { read_echo_status };

    #[tactic(auto, unfolding(crate::specs::Values::int32, crate::specs::Values::boolean, crate::specs::Values::byte_string))]
    fn empty(_alloc: Global) -> EchoStatus<'a> {
        EchoStatus {
            code: 0,
            message: Text::new(),
        }
    }

    fn take(&mut self, _alloc: Global, item: &FieldItem<'a>) -> Result<(), ProtoFault> {
        take_int32(&mut self.code, 1, item);
        take_text(&mut self.message, 2, item)?;
        Ok(())
    }

    fn size(&self) -> Option<usize> {
        let size = add_int32(0, 1, self.code)?;
        let size = add_bytes(size, 2, self.message.as_str().as_bytes())?;
        Some(size)
    }

    fn put_fields(&self, out: &mut Vec<u8>) -> Result<(), ProtoFault> {
        put_int32(1, self.code, out)?;
        put_bytes(2, self.message.as_str().as_bytes(), out)?;
        Ok(())
    }
}

impl<'a> Message<'a> for SimpleRequest<'a> {
    ghost is_value = { IsSimpleRequest };

    ghost fits = { FitsSimpleRequest };

    ghost fields_of = { simple_request_fields };

    ghost accepts = { AcceptsSimpleRequest };

    ghost refuses = { RefusesSimpleRequest };

    ghost one_value = { one_simple_request };

    ghost apart = { apart_simple_request };

    ghost value_or_fault = { total_simple_request };

    ghost read_back = { read_simple_request };

    #[tactic(auto, unfolding(crate::specs::Values::int32, crate::specs::Values::boolean, crate::specs::Values::byte_string))]
    fn empty(_alloc: Global) -> SimpleRequest<'a> {
        SimpleRequest {
            response_type: 0,
            response_size: 0,
            payload: None,
            fill_username: false,
            fill_oauth_scope: false,
            response_compressed: None,
            response_status: None,
            expect_compressed: None,
        }
    }

    fn take(&mut self, alloc: Global, item: &FieldItem<'a>) -> Result<(), ProtoFault> {
        take_int32(&mut self.response_type, 1, item);
        take_int32(&mut self.response_size, 2, item);
        take_message(&mut self.payload, alloc, 3, item)?;
        take_bool(&mut self.fill_username, 4, item);
        take_bool(&mut self.fill_oauth_scope, 5, item);
        take_message(&mut self.response_compressed, alloc, 6, item)?;
        take_message(&mut self.response_status, alloc, 7, item)?;
        take_message(&mut self.expect_compressed, alloc, 8, item)?;
        Ok(())
    }

    fn size(&self) -> Option<usize> {
        let size = add_int32(0, 1, self.response_type)?;
        let size = add_int32(size, 2, self.response_size)?;
        let size = add_message(size, 3, &self.payload)?;
        let size = add_bool(size, 4, self.fill_username)?;
        let size = add_bool(size, 5, self.fill_oauth_scope)?;
        let size = add_message(size, 6, &self.response_compressed)?;
        let size = add_message(size, 7, &self.response_status)?;
        let size = add_message(size, 8, &self.expect_compressed)?;
        Some(size)
    }

    fn put_fields(&self, out: &mut Vec<u8>) -> Result<(), ProtoFault> {
        put_int32(1, self.response_type, out)?;
        put_int32(2, self.response_size, out)?;
        put_message(3, &self.payload, out)?;
        put_bool(4, self.fill_username, out)?;
        put_bool(5, self.fill_oauth_scope, out)?;
        put_message(6, &self.response_compressed, out)?;
        put_message(7, &self.response_status, out)?;
        put_message(8, &self.expect_compressed, out)?;
        Ok(())
    }
}

impl<'a> Message<'a> for SimpleResponse<'a> {
    ghost is_value = { IsSimpleResponse };

    ghost fits = { FitsSimpleResponse };

    ghost fields_of = { simple_response_fields };

    ghost accepts = { AcceptsSimpleResponse };

    ghost refuses = { RefusesSimpleResponse };

    ghost one_value = { one_simple_response };

    ghost apart = { apart_simple_response };

    ghost value_or_fault = { total_simple_response };

    ghost read_back = { read_simple_response };

    #[tactic(auto, unfolding(crate::specs::Values::int32, crate::specs::Values::boolean, crate::specs::Values::byte_string))]
    fn empty(_alloc: Global) -> SimpleResponse<'a> {
        SimpleResponse {
            payload: None,
            username: Text::new(),
            oauth_scope: Text::new(),
        }
    }

    fn take(&mut self, alloc: Global, item: &FieldItem<'a>) -> Result<(), ProtoFault> {
        take_message(&mut self.payload, alloc, 1, item)?;
        take_text(&mut self.username, 2, item)?;
        take_text(&mut self.oauth_scope, 3, item)?;
        Ok(())
    }

    fn size(&self) -> Option<usize> {
        let size = add_message(0, 1, &self.payload)?;
        let size = add_bytes(size, 2, self.username.as_str().as_bytes())?;
        let size = add_bytes(size, 3, self.oauth_scope.as_str().as_bytes())?;
        Some(size)
    }

    fn put_fields(&self, out: &mut Vec<u8>) -> Result<(), ProtoFault> {
        put_message(1, &self.payload, out)?;
        put_bytes(2, self.username.as_str().as_bytes(), out)?;
        put_bytes(3, self.oauth_scope.as_str().as_bytes(), out)?;
        Ok(())
    }
}

impl<'a> Message<'a> for StreamingInputCallRequest<'a> {
    ghost is_value = { IsStreamingInputCallRequest };

    ghost fits = { FitsStreamingInputCallRequest };

    ghost fields_of = { streaming_input_call_request_fields };

    ghost accepts = { AcceptsStreamingInputCallRequest };

    ghost refuses = { RefusesStreamingInputCallRequest };

    ghost one_value = { one_streaming_input_call_request };

    ghost apart = { apart_streaming_input_call_request };

    ghost value_or_fault = { total_streaming_input_call_request };

    ghost read_back = { read_streaming_input_call_request };

    #[tactic(auto, unfolding(crate::specs::Values::int32, crate::specs::Values::boolean, crate::specs::Values::byte_string))]
    fn empty(_alloc: Global) -> StreamingInputCallRequest<'a> {
        StreamingInputCallRequest {
            payload: None,
            expect_compressed: None,
        }
    }

    fn take(&mut self, alloc: Global, item: &FieldItem<'a>) -> Result<(), ProtoFault> {
        take_message(&mut self.payload, alloc, 1, item)?;
        take_message(&mut self.expect_compressed, alloc, 2, item)?;
        Ok(())
    }

    fn size(&self) -> Option<usize> {
        let size = add_message(0, 1, &self.payload)?;
        let size = add_message(size, 2, &self.expect_compressed)?;
        Some(size)
    }

    fn put_fields(&self, out: &mut Vec<u8>) -> Result<(), ProtoFault> {
        put_message(1, &self.payload, out)?;
        put_message(2, &self.expect_compressed, out)?;
        Ok(())
    }
}

impl<'a> Message<'a> for StreamingInputCallResponse {
    ghost is_value = { IsStreamingInputCallResponse };

    ghost fits = { FitsStreamingInputCallResponse };

    ghost fields_of = { streaming_input_call_response_fields };

    ghost accepts = { AcceptsAll };

    ghost refuses = { RefusesNone };

    ghost one_value = { one_streaming_input_call_response };

    ghost apart = { apart_none };

    ghost value_or_fault = { total_streaming_input_call_response };

    ghost read_back = { read_streaming_input_call_response };

    #[tactic(auto, unfolding(crate::specs::Values::int32, crate::specs::Values::boolean, crate::specs::Values::byte_string))]
    fn empty(_alloc: Global) -> StreamingInputCallResponse {
        StreamingInputCallResponse {
            aggregated_payload_size: 0,
        }
    }

    fn take(&mut self, _alloc: Global, item: &FieldItem<'a>) -> Result<(), ProtoFault> {
        take_int32(&mut self.aggregated_payload_size, 1, item);
        Ok(())
    }

    fn size(&self) -> Option<usize> {
        let size = add_int32(0, 1, self.aggregated_payload_size)?;
        Some(size)
    }

    fn put_fields(&self, out: &mut Vec<u8>) -> Result<(), ProtoFault> {
        put_int32(1, self.aggregated_payload_size, out)?;
        Ok(())
    }
}

impl<'a> Message<'a> for ResponseParameters {
    ghost is_value = { IsResponseParameters };

    ghost fits = { FitsResponseParameters };

    ghost fields_of = { response_parameters_fields };

    ghost accepts = { AcceptsResponseParameters };

    ghost refuses = { RefusesResponseParameters };

    ghost one_value = { one_response_parameters };

    ghost apart = { apart_response_parameters };

    ghost value_or_fault = { total_response_parameters };

    ghost read_back = { read_response_parameters };

    #[tactic(auto, unfolding(crate::specs::Values::int32, crate::specs::Values::boolean, crate::specs::Values::byte_string))]
    fn empty(_alloc: Global) -> ResponseParameters {
        ResponseParameters {
            size: 0,
            interval_us: 0,
            compressed: None,
        }
    }

    fn take(&mut self, alloc: Global, item: &FieldItem<'a>) -> Result<(), ProtoFault> {
        take_int32(&mut self.size, 1, item);
        take_int32(&mut self.interval_us, 2, item);
        take_message(&mut self.compressed, alloc, 3, item)?;
        Ok(())
    }

    fn size(&self) -> Option<usize> {
        let size = add_int32(0, 1, self.size)?;
        let size = add_int32(size, 2, self.interval_us)?;
        let size = add_message(size, 3, &self.compressed)?;
        Some(size)
    }

    fn put_fields(&self, out: &mut Vec<u8>) -> Result<(), ProtoFault> {
        put_int32(1, self.size, out)?;
        put_int32(2, self.interval_us, out)?;
        put_message(3, &self.compressed, out)?;
        Ok(())
    }
}

impl<'a> Message<'a> for StreamingOutputCallRequest<'a> {
    ghost is_value = { IsStreamingOutputCallRequest };

    ghost fits = { FitsStreamingOutputCallRequest };

    ghost fields_of = { streaming_output_call_request_fields };

    ghost accepts = { AcceptsStreamingOutputCallRequest };

    ghost refuses = { RefusesStreamingOutputCallRequest };

    ghost one_value = { one_streaming_output_call_request };

    ghost apart = { apart_streaming_output_call_request };

    ghost value_or_fault = { total_streaming_output_call_request };

    ghost read_back = { read_streaming_output_call_request };

    #[tactic(auto, unfolding(crate::specs::Values::int32, crate::specs::Values::boolean, crate::specs::Values::byte_string))]
    fn empty(alloc: Global) -> StreamingOutputCallRequest<'a> {
        StreamingOutputCallRequest {
            response_type: 0,
            response_parameters: ParameterList::new(alloc),
            payload: None,
            response_status: None,
        }
    }

    fn take(&mut self, alloc: Global, item: &FieldItem<'a>) -> Result<(), ProtoFault> {
        take_int32(&mut self.response_type, 1, item);
        take_parameters(&mut self.response_parameters, alloc, 2, item)?;
        take_message(&mut self.payload, alloc, 3, item)?;
        take_message(&mut self.response_status, alloc, 7, item)?;
        Ok(())
    }

    fn size(&self) -> Option<usize> {
        let size = add_int32(0, 1, self.response_type)?;
        let size = add_parameters(size, 2, &self.response_parameters)?;
        let size = add_message(size, 3, &self.payload)?;
        let size = add_message(size, 7, &self.response_status)?;
        Some(size)
    }

    fn put_fields(&self, out: &mut Vec<u8>) -> Result<(), ProtoFault> {
        put_int32(1, self.response_type, out)?;
        put_parameters(2, &self.response_parameters, out)?;
        put_message(3, &self.payload, out)?;
        put_message(7, &self.response_status, out)?;
        Ok(())
    }
}

impl<'a> Message<'a> for StreamingOutputCallResponse<'a> {
    ghost is_value = { IsStreamingOutputCallResponse };

    ghost fits = { FitsStreamingOutputCallResponse };

    ghost fields_of = { streaming_output_call_response_fields };

    ghost accepts = { AcceptsStreamingOutputCallResponse };

    ghost refuses = { RefusesStreamingOutputCallResponse };

    ghost one_value = { one_streaming_output_call_response };

    ghost apart = { apart_streaming_output_call_response };

    ghost value_or_fault = { total_streaming_output_call_response };

    ghost read_back = { read_streaming_output_call_response };

    #[tactic(auto, unfolding(crate::specs::Values::int32, crate::specs::Values::boolean, crate::specs::Values::byte_string))]
    fn empty(_alloc: Global) -> StreamingOutputCallResponse<'a> {
        StreamingOutputCallResponse { payload: None }
    }

    fn take(&mut self, alloc: Global, item: &FieldItem<'a>) -> Result<(), ProtoFault> {
        take_message(&mut self.payload, alloc, 1, item)?;
        Ok(())
    }

    fn size(&self) -> Option<usize> {
        let size = add_message(0, 1, &self.payload)?;
        Some(size)
    }

    fn put_fields(&self, out: &mut Vec<u8>) -> Result<(), ProtoFault> {
        put_message(1, &self.payload, out)?;
        Ok(())
    }
}

/// One more of the responses that are asked for, in order.
fn take_parameters(
    held: &mut ParameterList,
    alloc: Global,
    number: u32,
    item: &FieldItem<'_>,
) -> Result<(), ProtoFault>
    ensures value { OnOk result
        ((before : List Field) → AreRepeated IsResponseParameters (contents number before) held.old
        → AreRepeated IsResponseParameters (contents number (before ++ field_of item.now ∷ []))
        held.new) }
    ensures accepted { OnOk result
        (AcceptsMessage AcceptsResponseParameters number (field_of item.now)) }
    ensures refused { IfErr result (λ fault. fault ≢ OutOfMemory →
        RefusesMessage (HasFault AcceptsResponseParameters RefusesResponseParameters) number
        (field_of item.now) fault) }
{
    if let Some(parameters) = read_message(alloc, number, item)? {
        held.push(parameters)?;
    }
    Ok(())
}

/// Adds the length of the fields of the responses that are asked for.
fn add_parameters(total: usize, number: u32, held: &ParameterList) -> Option<usize>
    ensures len { IfSome result
        (λ size. size ≡ total + length
        (spelling_of_all (repeated_fields response_parameters_fields number held.now))) }
    ensures fits { IfSome result (λ size. AllByRecursion FitsResponseParameters held.now) }
    ensures too_long { IfNone result
        (2 ^ 64 ≤ total + length
        (spelling_of_all (repeated_fields response_parameters_fields number held.now))) }
{
    let mut size = total;
    for parameters in held.as_slice() {
        size = add_one(size, number, parameters)?;
    }
    Some(size)
}

fn put_parameters(number: u32, held: &ParameterList, out: &mut Vec<u8>) -> Result<(), ProtoFault>
    requires { IsFieldNumber number }
    ensures ok { OnOk result
        (out.new.items ≡ out.old.items
        ++ spelling_of_all (repeated_fields response_parameters_fields number held.now)) }
    ensures kept { take (length out.old.items) out.new.items ≡ out.old.items }
    ensures memory { IfErr result (λ fault. fault ≡ OutOfMemory) }
{
    for parameters in held.as_slice() {
        put_one(number, parameters, out)?;
    }
    Ok(())
}
