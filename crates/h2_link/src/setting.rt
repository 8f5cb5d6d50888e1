// The settings of one SETTINGS frame.
ghost use Rattle.std.specs.Prelude.{◌≡◌, false, length};
ghost use Rattle.h2_frame.specs.Payloads.{settings_in};
ghost use Rattle.h2_link.specs.Settings.{with_setting, with_settings};

use crate::live::WindowSize;
use h2_frame::settings::{HEADER_TABLE_SIZE, INITIAL_WINDOW_SIZE, MAX_CONCURRENT_STREAMS};
use h2_frame::{Setting, next_setting};

/// The settings that a client obeys.
#[derive(Clone, Copy, Debug)]
pub(crate) struct Settings {
    /// SETTINGS_MAX_CONCURRENT_STREAMS.
    pub limit: Option<u32>,
    /// SETTINGS_INITIAL_WINDOW_SIZE.
    pub initial: WindowSize,
    /// Whether SETTINGS_HEADER_TABLE_SIZE was named.
    pub resizes: bool,
}

fn with_setting(old: Settings, setting: Setting) -> Settings
    ensures { result ≡ with_setting old setting }
{
    let Setting { identifier, value } = setting;
    Settings {
        limit: if identifier == MAX_CONCURRENT_STREAMS {
            Some(value)
        } else {
            old.limit
        },
        initial: match WindowSize::new(value) {
            Some(size) if identifier == INITIAL_WINDOW_SIZE => size,
            _ => old.initial,
        },
        resizes: identifier == HEADER_TABLE_SIZE || old.resizes,
    }
}

/// These settings with those of a payload, one after the other.
pub(crate) fn with_settings(old: Settings, payload: &[u8]) -> Settings
    ensures { result ≡ with_settings old (settings_in payload.now) }
{
    let mut settings = old;
    let mut rest = payload;
    while let Some((setting, afterwards)) = next_setting(rest) {
        settings = with_setting(settings, setting);
        rest = afterwards;
    }
    settings
}
