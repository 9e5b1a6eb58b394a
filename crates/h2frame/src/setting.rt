//! The parameters of a connection.

ghost use Rattle.std.specs.Prelude.{◌≡◌};
ghost use Rattle.h2frame.specs.Setting.{setting_of, setting_code};

/// A parameter of SETTINGS (RFC 9113, section 6.5.2).
#[derive(Clone, Copy, Debug, PartialEq, Eq)]
pub enum SettingId {
    HeaderTableSize,
    EnablePush,
    MaxConcurrentStreams,
    InitialWindowSize,
    MaxFrameSize,
    MaxHeaderListSize,
    /// A parameter that the standard doesn't define, by its number.
    Unknown(u16),
}

impl SettingId {
    /// The parameter of a number, which every number has.
    pub fn from_code(code: u16) -> SettingId
        ensures value { result ≡ setting_of code }
        ensures back { setting_code result ≡ code }
    {
        match code {
            1 => SettingId::HeaderTableSize,
            2 => SettingId::EnablePush,
            3 => SettingId::MaxConcurrentStreams,
            4 => SettingId::InitialWindowSize,
            5 => SettingId::MaxFrameSize,
            6 => SettingId::MaxHeaderListSize,
            _ => SettingId::Unknown(code),
        }
    }

    /// The number in the frame.
    pub fn code(self) -> u16
        ensures { result ≡ setting_code self }
    {
        match self {
            SettingId::HeaderTableSize => 1,
            SettingId::EnablePush => 2,
            SettingId::MaxConcurrentStreams => 3,
            SettingId::InitialWindowSize => 4,
            SettingId::MaxFrameSize => 5,
            SettingId::MaxHeaderListSize => 6,
            SettingId::Unknown(code) => code,
        }
    }
}
