// The settings of one SETTINGS frame.
ghost use Rattle.std.specs.Prelude.{◌≡◌, false, length};
ghost use Rattle.h2_frame.specs.Payloads.{settings_in};
ghost use Rattle.h2_server.specs.Settings.{with_setting, with_settings};

use crate::live::WindowSize;
use h2_frame::settings::{HEADER_TABLE_SIZE, INITIAL_WINDOW_SIZE};
use h2_frame::{Setting, next_setting};

/// The settings that a server obeys.
#[derive(Clone, Copy, Debug)]
pub(crate) struct ClientSettings {
    /// SETTINGS_INITIAL_WINDOW_SIZE.
    pub initial: WindowSize,
    /// Whether SETTINGS_HEADER_TABLE_SIZE was named.
    pub resizes: bool,
}

fn with_setting(old: ClientSettings, setting: Setting) -> ClientSettings
    ensures { result ≡ with_setting old setting }
{
    let Setting { identifier, value } = setting;
    ClientSettings {
        initial: match WindowSize::new(value) {
            Some(size) if identifier == INITIAL_WINDOW_SIZE => size,
            _ => old.initial,
        },
        resizes: identifier == HEADER_TABLE_SIZE || old.resizes,
    }
}

/// These settings with those of a payload, one after the other.
pub(crate) fn with_settings(old: ClientSettings, payload: &[u8]) -> ClientSettings
    ensures { result ≡ with_settings old (settings_in payload.now) }
{
    let mut settings = old;
    let mut rest = payload;
    while let Some((setting, afterwards)) = next_setting(rest) {
        settings = with_setting(settings, setting);
        rest = afterwards;
    }
    settings
}
