//! What the server announced: the values of its SETTINGS, and the amounts that rows take from them.
//!
//! An amount is a number, or the name of a setting with `/N`, `+N` or `-N` after it: `frame`,
//! `table+1`, `frame/6+1`.
//!
//! - `frame`: SETTINGS_MAX_FRAME_SIZE. `table`: SETTINGS_HEADER_TABLE_SIZE. `window`:
//!   SETTINGS_INITIAL_WINDOW_SIZE.
//! - `streams`: SETTINGS_MAX_CONCURRENT_STREAMS. `list`: SETTINGS_MAX_HEADER_LIST_SIZE. A server
//!   may announce neither.

use crate::fault::WireFault;
use crate::reaction::read_count;
use h2frame::SettingId;
use session::Parameter;
use std::alloc::{AllocError, Global};

/// The server's SETTINGS (RFC 9113, section 6.5.2); what it said nothing of has its first value.
#[derive(Clone, Copy)]
pub struct ServerSettings {
    pub table: u32,
    pub streams: Option<u32>,
    pub window: u32,
    pub frame: u32,
    pub list: Option<u32>,
}

/// A setting, as rows name it.
#[derive(Clone, Copy)]
enum Setting {
    Table,
    Streams,
    Window,
    Frame,
    List,
}

/// What a case needs of the server's SETTINGS.
#[derive(Clone, Copy)]
pub struct Need {
    setting: Setting,
    bound: Bound,
}

/// In what range a setting's value has to be.
#[derive(Clone, Copy)]
enum Bound {
    AtLeast(u64),
    AtMost(u64),
}

impl ServerSettings {
    /// The values before the server said anything.
    pub const FIRST: ServerSettings = ServerSettings {
        table: 4_096,
        streams: None,
        window: 65_535,
        frame: 16_384,
        list: None,
    };

    /// Takes a parameter of the server's SETTINGS.
    pub fn take(&mut self, parameter: &Parameter) {
        let value = parameter.value;
        match parameter.id {
            SettingId::HeaderTableSize => self.table = value,
            SettingId::MaxConcurrentStreams => self.streams = Some(value),
            SettingId::InitialWindowSize => self.window = value,
            SettingId::MaxFrameSize => self.frame = value,
            SettingId::MaxHeaderListSize => self.list = Some(value),
            SettingId::EnablePush | SettingId::Unknown(_) => {}
        }
    }

    /// The value of a setting, if it has one.
    fn value(&self, setting: Setting) -> Option<u64> {
        match setting {
            Setting::Table => Some(u64::from(self.table)),
            Setting::Window => Some(u64::from(self.window)),
            Setting::Frame => Some(u64::from(self.frame)),
            Setting::Streams => self.streams.map(u64::from),
            Setting::List => self.list.map(u64::from),
        }
    }

    /// The amount that a word names.
    ///
    /// # Errors
    ///
    /// `BadRow` where it names none, or a setting that has no value.
    pub fn amount(&self, word: &str) -> Result<u64, WireFault> {
        if let Ok(number) = word.parse::<u64>() {
            return Ok(number);
        }
        if let Some((front, more)) = word.split_once('+') {
            return Ok(
                self.amount_of_setting(front)?
                    .saturating_add(read_count(more)?),
            );
        }
        if let Some((front, less)) = word.split_once('-') {
            return Ok(
                self.amount_of_setting(front)?
                    .saturating_sub(read_count(less)?),
            );
        }
        self.amount_of_setting(word)
    }

    fn amount_of_setting(&self, word: &str) -> Result<u64, WireFault> {
        let (name, divisor) = word.split_once('/').unwrap_or((word, "1"));
        let setting = Setting::named(name).ok_or(WireFault::BadRow)?;
        let value = self.value(setting).ok_or(WireFault::BadRow)?;
        value
            .checked_div(read_count(divisor)?)
            .ok_or(WireFault::BadRow)
    }
}

impl Setting {
    fn named(name: &str) -> Option<Setting> {
        match name {
            "table" => Some(Setting::Table),
            "streams" => Some(Setting::Streams),
            "window" => Some(Setting::Window),
            "frame" => Some(Setting::Frame),
            "list" => Some(Setting::List),
            _ => None,
        }
    }

    fn name(self) -> &'static str {
        match self {
            Setting::Table => "SETTINGS_HEADER_TABLE_SIZE",
            Setting::Streams => "SETTINGS_MAX_CONCURRENT_STREAMS",
            Setting::Window => "SETTINGS_INITIAL_WINDOW_SIZE",
            Setting::Frame => "SETTINGS_MAX_FRAME_SIZE",
            Setting::List => "SETTINGS_MAX_HEADER_LIST_SIZE",
        }
    }
}

impl Need {
    /// Reads what follows `needs`: the name of a setting, `at least` or `at most`, and a number.
    pub fn read(text: &str) -> Result<Need, WireFault> {
        let (name, rest) = text.split_once(' ').ok_or(WireFault::BadRow)?;
        let setting = Setting::named(name).ok_or(WireFault::BadRow)?;
        if let Some(number) = rest.strip_prefix("at least ") {
            let bound = Bound::AtLeast(read_count(number)?);
            return Ok(Need { setting, bound });
        }
        let number = rest.strip_prefix("at most ").ok_or(WireFault::BadRow)?;
        let bound = Bound::AtMost(read_count(number)?);
        Ok(Need { setting, bound })
    }

    /// Whether the server's SETTINGS are so. A setting without a value is no limit.
    pub fn is_met(self, announced: &ServerSettings) -> bool {
        match (self.bound, announced.value(self.setting)) {
            (Bound::AtLeast(least), Some(value)) => value >= least,
            (Bound::AtLeast(_), None) => true,
            (Bound::AtMost(most), Some(value)) => value <= most,
            (Bound::AtMost(_), None) => false,
        }
    }

    /// Why a case is not applicable whose need isn't met.
    pub fn describe(self, alloc: Global, announced: &ServerSettings) -> Result<String, AllocError> {
        let name = self.setting.name();
        match (self.bound, announced.value(self.setting)) {
            (_, None) => format!(in alloc; "the server announced no {name}"),
            (Bound::AtLeast(least), Some(value)) => {
                format!(in alloc; "the server's {name} is {value}, under {least}")
            }
            (Bound::AtMost(most), Some(value)) => {
                format!(in alloc; "the server's {name} is {value}, over {most}")
            }
        }
    }
}
