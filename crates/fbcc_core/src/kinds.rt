//! The names of faults in fault lines.

ghost use Rattle.std.specs.Prelude.{◌≡◌};
ghost use Rattle.fbcc_core.specs.Kinds.{grid_kind_text, crac_kind_text, settings_kind_text, key_kind_text, reduction_kind_text};

use crac_model::CracKind;
use glsk_keys::KeyKind;
use run_settings::{ReductionKind, SettingsKind};
use ucte_reader::GridKind;

/// The name of what is wrong with a line of a grid.
pub fn grid_kind_name(kind: GridKind) -> &'static str
    ensures { result.now ≡ grid_kind_text kind }
{
    match kind {
        GridKind::UnknownBlock => "UnknownBlock",
        GridKind::BadNumber => "BadNumber",
        GridKind::BadCode => "BadCode",
        GridKind::BadStatus => "BadStatus",
        GridKind::DuplicateNode => "DuplicateNode",
        GridKind::DuplicateBranch => "DuplicateBranch",
        GridKind::UnknownNode => "UnknownNode",
        GridKind::UnknownBranch => "UnknownBranch",
        GridKind::NegativeReactance => "NegativeReactance",
        GridKind::SusceptanceOutOfRange => "SusceptanceOutOfRange",
        GridKind::InjectionOutOfRange => "InjectionOutOfRange",
        GridKind::TooMany => "TooMany",
        GridKind::NoNodes => "NoNodes",
        GridKind::BadPhase => "BadPhase",
    }
}

/// The name of what is wrong at a place of a CRAC.
pub fn crac_kind_name(kind: CracKind) -> &'static str
    ensures { result.now ≡ crac_kind_text kind }
{
    match kind {
        CracKind::Missing => "Missing",
        CracKind::WrongType => "WrongType",
        CracKind::UnknownInstant => "UnknownInstant",
        CracKind::UnknownContingency => "UnknownContingency",
        CracKind::UnknownElement => "UnknownElement",
        CracKind::CouplerMonitored => "CouplerMonitored",
        CracKind::LimitNotPositive => "LimitNotPositive",
        CracKind::OutOfRange => "OutOfRange",
        CracKind::NoLimit => "NoLimit",
        CracKind::NoCurrent => "NoCurrent",
        CracKind::BothMargins => "BothMargins",
        CracKind::DuplicateId => "DuplicateId",
        CracKind::TooMany => "TooMany",
    }
}

/// The name of what is wrong at a place of settings.
pub fn settings_kind_name(kind: SettingsKind) -> &'static str
    ensures { result.now ≡ settings_kind_text kind }
{
    match kind {
        SettingsKind::Missing => "Missing",
        SettingsKind::WrongType => "WrongType",
        SettingsKind::BoxReversed => "BoxReversed",
        SettingsKind::OutOfRange => "OutOfRange",
        SettingsKind::UnknownNode => "UnknownNode",
        SettingsKind::BadTime => "BadTime",
        SettingsKind::Twice => "Twice",
        SettingsKind::TooMany => "TooMany",
    }
}

/// The name of what is wrong at a place of shift keys.
pub fn key_kind_name(kind: KeyKind) -> &'static str
    ensures { result.now ≡ key_kind_text kind }
{
    match kind {
        KeyKind::Missing => "Missing",
        KeyKind::WrongType => "WrongType",
        KeyKind::BadTime => "BadTime",
        KeyKind::UnknownNode => "UnknownNode",
        KeyKind::WrongZone => "WrongZone",
        KeyKind::SharesNot100 => "SharesNot100",
        KeyKind::EmptyKey => "EmptyKey",
        KeyKind::NegativeFactor => "NegativeFactor",
        KeyKind::OutOfRange => "OutOfRange",
        KeyKind::TooMany => "TooMany",
        KeyKind::NoSeries => "NoSeries",
        KeyKind::TwoSeries => "TwoSeries",
    }
}

/// The name of what is wrong with a row of reductions.
pub fn reduction_kind_name(kind: ReductionKind) -> &'static str
    ensures { result.now ≡ reduction_kind_text kind }
{
    match kind {
        ReductionKind::Missing => "Missing",
        ReductionKind::WrongType => "WrongType",
        ReductionKind::UnknownElement => "UnknownElement",
        ReductionKind::OutOfRange => "OutOfRange",
        ReductionKind::Twice => "Twice",
    }
}
