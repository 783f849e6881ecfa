//! The settings and the shift keys of a case.

ghost use Rattle.std.specs.Prelude.{◌≡◌, ℕ, ◌+◌, ◌++◌, ◌<◌, ◌≤◌, IfOk, OnOk, string_bytes};
ghost use Rattle.case_maker.specs.Pieces.{setting_texts, series_texts};
ghost use Rattle.case_maker.specs.ZoneTexts.{settings_text, setting_text, glsk_text, block_text, series_text};

use crate::crac::put_separator;
use crate::names::zone_code;
use std::alloc::{AllocError, Global};

/// How many zones there are.
const ZONES: u32 = 16;

/// How many of them are Core zones: the first ones.
const CORE_ZONES: u32 = 12;

/// The settings: the moment and the zones.
pub(crate) fn settings_text(alloc: Global) -> Result<String, AllocError>
    ensures { IfOk result (λ text. string_bytes text ≡ settings_text) }
{
    let mut text = String::from_str(alloc, r#"{"moment":"2024-05-01T10:30:00Z","zones":["#)?;
    put_settings(alloc, &mut text)?;
    text.push_str("]}")?;
    Ok(text)
}

/// Appends the zones of the settings.
fn put_settings(alloc: Global, text: &mut String) -> Result<(), AllocError>
    ensures { OnOk result (string_bytes text.new ≡ string_bytes text.old ++ setting_texts) }
{
    for zone in 0..ZONES {
        put_separator(text, zone)?;
        put_setting(alloc, text, zone)?;
    }
    Ok(())
}

/// Appends a zone of the settings. A Core zone has bounds, in MW.
fn put_setting(alloc: Global, text: &mut String, zone: u32) -> Result<(), AllocError>
    requires { zone < 16 }
    ensures { OnOk result (string_bytes text.new ≡ string_bytes text.old ++ setting_text zone) }
{
    let code = zone_code(alloc, zone)?;
    if zone < CORE_ZONES {
        write!(text, r#"{{"id":"{code}","min":-10000,"max":10000}}"#)
    } else {
        write!(text, r#"{{"id":"{code}","core":false}}"#)
    }
}

/// The shift keys: of each Core zone a series of one day.
pub(crate) fn glsk_text(alloc: Global) -> Result<String, AllocError>
    ensures { IfOk result (λ text. string_bytes text ≡ glsk_text) }
{
    let mut text = String::from_str(alloc, r#"{"series":["#)?;
    put_all_series(alloc, &mut text)?;
    text.push_str("]}")?;
    Ok(text)
}

/// Appends the series of all Core zones.
fn put_all_series(alloc: Global, text: &mut String) -> Result<(), AllocError>
    ensures { OnOk result (string_bytes text.new ≡ string_bytes text.old ++ series_texts) }
{
    for zone in 0..CORE_ZONES {
        put_separator(text, zone)?;
        put_series(alloc, text, zone)?;
    }
    Ok(())
}

/// Appends the series of a zone: a share of 60 per cent for the generation and of 40 per cent for the load.
fn put_series(alloc: Global, text: &mut String, zone: u32) -> Result<(), AllocError>
    requires { zone < 16 }
    ensures { OnOk result (string_bytes text.new ≡ string_bytes text.old ++ series_text zone) }
{
    let code = zone_code(alloc, zone)?;
    write!(
        text,
        r#"{{"zone":"{code}","from":"2024-05-01T00:00:00Z","to":"2024-05-02T00:00:00Z","blocks":["#
    )?;
    put_block(text, "GSK", 60)?;
    text.push_str(",")?;
    put_block(text, "LSK", 40)?;
    text.push_str("]}")?;
    Ok(())
}

/// Appends a block of a key, with its share in per cent.
fn put_block(text: &mut String, business: &str, share: u32) -> Result<(), AllocError>
    ensures { OnOk result (string_bytes text.new ≡ string_bytes text.old ++ block_text business.now share) }
{
    write!(
        text,
        r#"{{"business":"{business}","share":{share},"kind":"proportional"}}"#
    )
}
