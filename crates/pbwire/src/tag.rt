//! Tags: a field's number and the wire type of its content, as one number.

ghost use Rattle.std.specs.Prelude.{◌≡◌, ◌+◌, ◌*◌, ◌<◌, ◌^◌};
ghost use Rattle.pbwire.specs.Fields.{content_of, field_with, tag_of};
ghost use Rattle.pbwire.specs.Reading.{Gives, type_number, kind_of, type_at, tag_at};

use crate::fault::WireFault;
use crate::field::FieldValue;

// The numbers of the wire types (encoding guide, "Message Structure").

const VARINT: u32 = 0;

const EIGHT_BYTES: u32 = 1;

const BYTES: u32 = 2;

const START_GROUP: u32 = 3;

const END_GROUP: u32 = 4;

const FOUR_BYTES: u32 = 5;

/// How many wire types a tag can have: it is a field's number times this, and the number of the
/// wire type.
const WIRE_TYPES: u32 = 8;

/// How the content of a field is spelled.
#[derive(Clone, Copy, Debug, PartialEq, Eq)]
pub(crate) enum WireType {
    Varint,
    EightBytes,
    Bytes,
    FourBytes,
}

impl WireType {
    /// The number of the wire type, as the low three bits of a tag hold it.
    fn number(self) -> u32
        ensures { result ≡ type_number self }
    {
        match self {
            WireType::Varint => VARINT,
            WireType::EightBytes => EIGHT_BYTES,
            WireType::Bytes => BYTES,
            WireType::FourBytes => FOUR_BYTES,
        }
    }

    /// The wire type in the low three bits of a tag.
    fn read(number: u32) -> Result<WireType, WireFault>
        ensures { Gives (λ kind. kind) result (type_at number) }
    {
        match number {
            VARINT => Ok(WireType::Varint),
            EIGHT_BYTES => Ok(WireType::EightBytes),
            BYTES => Ok(WireType::Bytes),
            START_GROUP | END_GROUP => Err(WireFault::Group),
            FOUR_BYTES => Ok(WireType::FourBytes),
            _ => Err(WireFault::BadTag),
        }
    }
}

/// The field number and the wire type of a tag. A bad tag is answered before a group.
#[tactic(auto, unfolding(crate::specs::Reading::tag_at))]
pub(crate) fn read_tag(tag: u64) -> Result<(u32, WireType), WireFault>
    ensures { Gives (λ head. (head.0, head.1)) result (tag_at tag) }
{
    if tag >= 1 << 32 {
        return Err(WireFault::BadTag);
    }
    let tag = tag as u32;
    let number = tag / WIRE_TYPES;
    if number == 0 {
        return Err(WireFault::BadTag);
    }
    Ok((number, WireType::read(tag % WIRE_TYPES)?))
}

fn wire_type(value: &FieldValue<'_>) -> WireType
    ensures { result ≡ kind_of (content_of value.now) }
{
    match value {
        FieldValue::Varint(_) => WireType::Varint,
        FieldValue::EightBytes(_) => WireType::EightBytes,
        FieldValue::Bytes(_) => WireType::Bytes,
        FieldValue::FourBytes(_) => WireType::FourBytes,
    }
}

/// The tag of a field with this number and value.
pub(crate) fn tag(number: u32, value: &FieldValue<'_>) -> u64
    ensures { result ≡ tag_of (field_with number (content_of value.now)) }
{
    u64::from(number) * u64::from(WIRE_TYPES) + u64::from(wire_type(value).number())
}
