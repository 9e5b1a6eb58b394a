//! The content of a SETTINGS frame (RFC 9113, section 6.5).

ghost use Rattle.std.specs.Prelude.{◌≡◌, ◌%◌, length, IfOk, IfErr};
ghost use Rattle.session.specs.declared.settings.SettingsFault.TheVariants.{OutOfMemory};
ghost use Rattle.session.specs.Settings.{
  IsParameter,
  parameter_text,
  parameter_fault,
  IsSettingsFault,
  Tells,
};

use h2frame::{PeerSetting, PeerSettings, SettingId};
use reasons::Reason;
use std::alloc::{AllocError, AllocFailed, Global};
use thiserror::Error;

/// The bytes of a parameter in a frame.
const PARAMETER_LEN: usize = 6;

/// The greatest window that RFC 9113, section 6.5.2, allows a peer to set.
const MAX_WINDOW: u32 = 0x7fff_ffff;

/// The least and the greatest payload that RFC 9113, section 6.5.2, allows a peer to set.
const LEAST_PAYLOAD: u32 = 16_384;

const MOST_PAYLOAD: u32 = 16_777_215;

/// A parameter and the value that the peer gives it.
#[derive(Clone, Copy, Debug, PartialEq, Eq)]
pub struct Parameter {
    pub id: SettingId,
    pub value: u32,
}

/// Why the content of a SETTINGS frame is refused.
#[derive(Clone, Copy, Debug, PartialEq, Eq, Error)]
pub enum SettingsFault {
    /// A parameter has a value that it may not have: the connection ends for this reason.
    #[error("a setting has a value that it may not have")]
    Refused(Reason),
    #[error("out of memory")]
    OutOfMemory,
}

impl From<AllocError> for SettingsFault {
    ghost from_gives = { λ _ fault. fault ≡ OutOfMemory };

    fn from(_e: AllocError) -> SettingsFault {
        SettingsFault::OutOfMemory
    }
}

impl<T: Drop> From<AllocFailed<T>> for SettingsFault {
    ghost from_gives = { λ _ fault. fault ≡ OutOfMemory };

    fn from(_e: AllocFailed<T>) -> SettingsFault {
        SettingsFault::OutOfMemory
    }
}

impl Parameter {
    /// The parameter that six bytes spell.
    fn read(text: &[u8]) -> Parameter
        requires { length text.now ≡ 6 }
        ensures is { IsParameter result }
        ensures text { text.now ≡ parameter_text result }
    {
        let code = u16::from_be_bytes([text[0], text[1]]);
        Parameter {
            id: SettingId::from_code(code),
            value: u32::from_be_bytes([text[2], text[3], text[4], text[5]]),
        }
    }

    /// The reason for which the connection ends, if its value is faulty.
    pub fn fault(&self) -> Option<Reason>
        ensures { result ≡ parameter_fault self.now }
    {
        let (least, most) = match self.id {
            SettingId::EnablePush => (0, 1),
            SettingId::InitialWindowSize => (0, MAX_WINDOW),
            SettingId::MaxFrameSize => (LEAST_PAYLOAD, MOST_PAYLOAD),
            _ => return None,
        };
        if self.value < least || self.value > most {
            Some(Reason::Setting(self.id))
        } else {
            None
        }
    }
}

/// The settings of a SETTINGS frame, in order. One faulty parameter refuses them all.
pub fn read_settings(alloc: Global, content: &[u8]) -> Result<PeerSettings, SettingsFault>
    requires { length content.now % 6 ≡ 0 }
    ensures ok { IfOk result (λ settings. Tells content.now settings) }
    ensures err { IfErr result (λ fault. IsSettingsFault content.now fault) }
{
    let mut settings = Vec::new(alloc);
    let mut rest = content;
    while rest.len() >= PARAMETER_LEN {
        let (text, behind) = rest.split_at(PARAMETER_LEN);
        let parameter = Parameter::read(text);
        if let Some(reason) = parameter.fault() {
            return Err(SettingsFault::Refused(reason));
        }
        if let Some(setting) = PeerSetting::told(parameter.id, parameter.value) {
            settings.push(setting)?;
        }
        rest = behind;
    }
    Ok(PeerSettings::from(settings))
}
