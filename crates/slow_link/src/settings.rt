// The settings that a peer gave (RFC 9113, sections 6.5 and 6.5.2).
ghost use Rattle.std.specs.Prelude.{◌≡◌, ◌++◌, IfOk, OnOk, filter_map, flat_map, option_map};
ghost use Rattle.h2_frame.specs.Payloads.{settings_in};
ghost use Rattle.session_actions.specs.Links.{read_in, settings_of};
ghost use Rattle.session_actions.specs.Reading.{initial_window, is_setting, setting};
ghost use Rattle.session_actions.specs.Words.{find_last};

use crate::links::{first_read, is_settings};
use grpc_base::{Items, NoMemory};
use h2_frame::settings::INITIAL_WINDOW_SIZE;
use h2_frame::{Setting, next_setting};
use session_actions::{Link, Traffic, WireFrame};
use std::alloc::Global;

/// What a frame says where it is SETTINGS without ACK (section 6.5).
pub fn settings_of(alloc: Global, frame: &WireFrame) -> Result<Items<Setting>, NoMemory>
    ensures { IfOk result (λ s. s ≡ settings_of frame.now) }
{
    let mut settings = Items::new(alloc);
    if !is_settings(frame) {
        return Ok(settings);
    }
    add_settings(&mut settings, frame.payload.as_slice())?;
    Ok(settings)
}

/// Appends the settings of a payload.
fn add_settings(settings: &mut Items<Setting>, payload: &[u8]) -> Result<(), NoMemory>
    ensures { OnOk result (settings.new ≡ settings.old ++ settings_in payload.now) }
{
    match next_setting(payload) {
        Some((setting, rest)) => {
            settings.push(setting)?;
            add_settings(settings, rest)
        }
        None => Ok(()),
    }
}

/// The value that the peer last gave a setting (section 6.5.3).
pub fn setting(alloc: Global, name: u16, link: &Link) -> Result<Option<u32>, NoMemory>
    ensures { IfOk result (λ v. v ≡ setting name link.now) }
{
    let mut settings = Items::new(alloc);
    add_read_settings(&mut settings, link.traffic.as_slice())?;
    Ok(last_value(name, settings.as_slice()))
}

/// Appends the settings of all frames that were read.
fn add_read_settings(settings: &mut Items<Setting>, traffic: &[Traffic]) -> Result<(), NoMemory>
    ensures { OnOk result (settings.new ≡ settings.old ++ flat_map (λ r. settings_of r.frame) (filter_map read_in traffic.now)) }
{
    let Some((read, rest)) = first_read(traffic) else {
        return Ok(());
    };
    if !is_settings(&read.frame) {
        return add_read_settings(settings, rest);
    }
    add_settings(settings, read.frame.payload.as_slice())?;
    add_read_settings(settings, rest)
}

/// The value of the last of these settings that has this name.
pub(crate) fn last_value(name: u16, settings: &[Setting]) -> Option<u32>
    ensures { result ≡ option_map (λ x. x.value) (find_last (is_setting name) settings.now) }
{
    let (first, others) = settings.split_first()?;
    match last_value(name, others) {
        Some(value) => Some(value),
        None => {
            if is_setting(name, *first) {
                Some(first.value)
            } else {
                None
            }
        }
    }
}

/// Whether a setting has this name.
pub(crate) fn is_setting(name: u16, setting: Setting) -> bool
    ensures { result ≡ is_setting name setting }
{
    setting.identifier == name
}

/// The first size of the peer's window of a stream (section 6.5.2).
pub fn initial_window(alloc: Global, link: &Link) -> Result<u32, NoMemory>
    ensures { IfOk result (λ n. n ≡ initial_window link.now) }
{
    Ok(setting(alloc, INITIAL_WINDOW_SIZE, link)?.unwrap_or(65_535))
}
