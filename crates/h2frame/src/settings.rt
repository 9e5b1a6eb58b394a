//! A peer's SETTINGS, for the side that writes (RFC 9113, section 6.5.2).
//!
//! The side that reads frames and the side that writes them share this type.

ghost use Rattle.std.specs.Prelude.{◌≡◌};
ghost use Rattle.h2frame.specs.Settings.{told};

use crate::SettingId;
use std::marker::Model;

/// A setting of the peer that a server needs to write header blocks and DATA.
#[derive(Clone, Copy, Debug, PartialEq, Eq)]
pub enum PeerSetting {
    /// The largest dynamic table that its decoder keeps.
    TableSize(u32),
    /// The initial window of each stream.
    WindowSize(u32),
}

impl PeerSetting {
    /// The setting of a parameter with this value, if a server needs it.
    pub fn told(id: SettingId, value: u32) -> Option<PeerSetting>
        ensures { result ≡ told id value }
    {
        match id {
            SettingId::HeaderTableSize => Some(PeerSetting::TableSize(value)),
            SettingId::InitialWindowSize => Some(PeerSetting::WindowSize(value)),
            _ => None,
        }
    }
}

/// The settings of a SETTINGS frame, in order. A clause sees them as a list.
#[derive(Debug, Drop)]
pub struct PeerSettings {
    items: Vec<PeerSetting>,
}

impl Model for PeerSettings {
    ghost use Rattle.std.specs.Prelude.{List};
    ghost use Rattle.h2frame.specs.declared.settings.PeerSetting.{PeerSetting};

    ghost Value = { List PeerSetting };

    ghost view = { λ settings. settings.items.items };
}

impl PeerSettings {
    pub fn as_slice(&self) -> &[PeerSetting]
        ensures { result.now ≡ self.now }
    {
        self.items.as_slice()
    }
}

/// It takes no memory.
impl From<Vec<PeerSetting>> for PeerSettings {
    ghost use Rattle.std.specs.Prelude.{◌≡◌};

    ghost from_gives = { λ items settings. settings ≡ items.items };

    fn from(items: Vec<PeerSetting>) -> PeerSettings {
        PeerSettings { items }
    }
}
