//! The profile and the level in the headers of a stream, in words.

ghost use Rattle.std.specs.Prelude.{◌≡◌, ◌++◌, ◌<◌, OnOk, codes, string_bytes};
ghost use Rattle.job_text.specs.ProfileWords as spec;

use std::alloc::{AllocError, Allocator};
use std::fmt::Write;
use stream_coding::ProfileLevel;

// Appends a name after its lead, if there is one.
#[tactic(auto, unfolding(crate::specs::ProfileWords::joined))]
fn write_joined<A: Allocator>(
    text: &mut String<A>,
    lead: &str,
    name: &str,
) -> Result<(), AllocError>
    ensures { OnOk result (string_bytes text.new ≡ string_bytes text.old ++ spec.joined lead.now name.now) }
{
    if name.is_empty() {
        return Ok(());
    }
    text.push_str(lead)?;
    text.push_str(name)
}

// Appends the tenth of a level, if it has one.
#[tactic(auto, unfolding(crate::specs::ProfileWords::tenth))]
fn write_tenth<A: Allocator>(text: &mut String<A>, number: u8) -> Result<(), AllocError>
    ensures { OnOk result (string_bytes text.new ≡ string_bytes text.old ++ spec.tenth number) }
{
    if number == 0 {
        return Ok(());
    }
    write!(text, ".{number}")
}

// Appends a level by its tenths, if it is not 0.
#[tactic(auto, unfolding(crate::specs::ProfileWords::level_words))]
fn write_level<A: Allocator>(text: &mut String<A>, lead: &str, tenths: u8) -> Result<(), AllocError>
    ensures { OnOk result (string_bytes text.new ≡ string_bytes text.old ++ spec.level_words lead.now tenths) }
{
    if tenths == 0 {
        return Ok(());
    }
    text.push_str(lead)?;
    write!(text, "{}", tenths / 10)?;
    write_tenth(text, tenths % 10)
}

// Returns the name of a profile of ISO/IEC 13818-2, empty if it has none.
#[tactic(auto, unfolding(crate::specs::ProfileWords::mpeg_profile_name))]
fn mpeg_profile_name(profile: u8) -> &'static str
    ensures { result.now ≡ spec.mpeg_profile_name profile }
{
    match profile {
        1 => "High profile",
        2 => "Spatially Scalable profile",
        3 => "SNR Scalable profile",
        4 => "Main profile",
        5 => "Simple profile",
        _ => "",
    }
}

// Returns the name of a level of ISO/IEC 13818-2, empty if it has none.
#[tactic(auto, unfolding(crate::specs::ProfileWords::mpeg_level_name))]
fn mpeg_level_name(level: u8) -> &'static str
    ensures { result.now ≡ spec.mpeg_level_name level }
{
    match level {
        4 => "High level",
        6 => "High 1440 level",
        8 => "Main level",
        10 => "Low level",
        _ => "",
    }
}

#[tactic(auto, unfolding(crate::specs::ProfileWords::mpeg_words))]
fn write_mpeg<A: Allocator>(text: &mut String<A>, indication: u8) -> Result<(), AllocError>
    ensures { OnOk result (string_bytes text.new ≡ string_bytes text.old ++ spec.mpeg_words indication) }
{
    if indication == 0x82 {
        text.push_str(", 4:2:2 profile at High level")
    } else if indication == 0x85 {
        text.push_str(", 4:2:2 profile at Main level")
    } else if indication < 128 {
        write_joined(text, ", ", mpeg_profile_name(indication / 16))?;
        write_joined(text, " at ", mpeg_level_name(indication % 16))
    } else {
        Ok(())
    }
}

// Returns the name of a profile of ISO/IEC 14496-10, empty if it has none.
#[tactic(auto, unfolding(crate::specs::ProfileWords::avc_profile_name))]
fn avc_profile_name(profile: u8, flags: u8) -> &'static str
    ensures { result.now ≡ spec.avc_profile_name profile flags }
{
    match profile {
        44 => "CAVLC 4:4:4 Intra profile",
        66 if flags / 64 % 2 == 1 => "Constrained Baseline profile",
        66 => "Baseline profile",
        77 => "Main profile",
        88 => "Extended profile",
        100 if flags / 4 % 4 == 3 => "Constrained High profile",
        100 if flags / 4 % 4 == 2 => "Progressive High profile",
        100 => "High profile",
        110 if flags / 16 % 2 == 1 => "High 10 Intra profile",
        110 => "High 10 profile",
        122 if flags / 16 % 2 == 1 => "High 4:2:2 Intra profile",
        122 => "High 4:2:2 profile",
        244 if flags / 16 % 2 == 1 => "High 4:4:4 Intra profile",
        244 => "High 4:4:4 Predictive profile",
        _ => "",
    }
}

#[tactic(auto, unfolding(crate::specs::ProfileWords::avc_level_words))]
fn write_avc_level<A: Allocator>(text: &mut String<A>, level: u8) -> Result<(), AllocError>
    ensures { OnOk result (string_bytes text.new ≡ string_bytes text.old ++ spec.avc_level_words level) }
{
    if level == 9 {
        text.push_str(", level 1b")
    } else {
        write_level(text, ", level ", level)
    }
}

#[tactic(auto, unfolding(crate::specs::ProfileWords::avc_words))]
fn write_avc<A: Allocator>(
    text: &mut String<A>,
    profile: u8,
    flags: u8,
    level: u8,
) -> Result<(), AllocError>
    ensures { OnOk result (string_bytes text.new ≡ string_bytes text.old ++ spec.avc_words profile flags level) }
{
    write_joined(text, ", ", avc_profile_name(profile, flags))?;
    write_avc_level(text, level)
}

// Returns the name of a profile of the format range extensions of ISO/IEC 23008-2.
#[tactic(auto, unfolding(crate::specs::ProfileWords::range_profile_name))]
fn range_profile_name(flags: u8) -> &'static str
    ensures { result.now ≡ spec.range_profile_name flags }
{
    match flags {
        64 => "Main 4:4:4 12 profile",
        72 => "Main 4:2:2 12 profile",
        76 => "Main 12 profile",
        96 => "Main 4:4:4 10 profile",
        104 => "Main 4:2:2 10 profile",
        105 => "Main 4:2:2 10 Intra profile",
        112 => "Main 4:4:4 profile",
        _ => "format range extensions",
    }
}

// Returns the name of a profile of ISO/IEC 23008-2, empty if it has none.
#[tactic(auto, unfolding(crate::specs::ProfileWords::hevc_profile_name))]
fn hevc_profile_name(profile: u8, flags: u8) -> &'static str
    ensures { result.now ≡ spec.hevc_profile_name profile flags }
{
    match profile {
        1 => "Main profile",
        2 => "Main 10 profile",
        3 => "Main Still Picture profile",
        4 => range_profile_name(flags),
        _ => "",
    }
}

// Returns the text before the level of ISO/IEC 23008-2 video.
#[tactic(auto, unfolding(crate::specs::ProfileWords::tier_lead))]
fn tier_lead(profile: u8) -> &'static str
    ensures { result.now ≡ spec.tier_lead profile }
{
    if profile / 32 % 2 == 1 {
        ", High tier, level "
    } else {
        ", Main tier, level "
    }
}

#[tactic(auto, unfolding(crate::specs::ProfileWords::hevc_words))]
fn write_hevc<A: Allocator>(
    text: &mut String<A>,
    profile: u8,
    depths: u8,
    formats: u8,
    level: u8,
) -> Result<(), AllocError>
    ensures { OnOk result (string_bytes text.new ≡ string_bytes text.old
        ++ spec.hevc_words profile depths formats level) }
{
    let number = if profile < 64 { profile % 32 } else { 0 };
    let tenths = if level % 3 == 0 { level / 3 } else { 0 };
    let name = hevc_profile_name(number, depths % 16 * 8 + formats / 32);
    write_joined(text, ", ", name)?;
    write_level(text, tier_lead(profile), tenths)
}

// Returns the name of a profile of ISO/IEC 13818-7 by its audio object type, empty if it has none.
#[tactic(auto, unfolding(crate::specs::ProfileWords::aac_profile_name))]
fn aac_profile_name(object_type: u8) -> &'static str
    ensures { result.now ≡ spec.aac_profile_name object_type }
{
    match object_type {
        1 => "Main profile",
        2 => "LC profile",
        3 => "SSR profile",
        _ => "",
    }
}

// Returns the channels of a channel_configuration, empty if it does not say them.
#[tactic(auto, unfolding(crate::specs::ProfileWords::channels_name))]
fn channels_name(configuration: u8) -> &'static str
    ensures { result.now ≡ spec.channels_name configuration }
{
    match configuration {
        1 => "1 channel",
        2 => "2 channels",
        3 => "3 channels",
        4 => "4 channels",
        5 => "5 channels",
        6 => "5.1 channels",
        7 => "7.1 channels",
        _ => "",
    }
}

#[tactic(auto, unfolding(crate::specs::ProfileWords::aac_words))]
fn write_aac<A: Allocator>(
    text: &mut String<A>,
    object_type: u8,
    channels: u8,
) -> Result<(), AllocError>
    ensures { OnOk result (string_bytes text.new ≡ string_bytes text.old ++ spec.aac_words object_type channels) }
{
    write_joined(text, ", ", aac_profile_name(object_type))?;
    write_joined(text, ", ", channels_name(channels))
}

/// Appends the words for a profile and a level, each part after a comma.
pub(crate) fn write_said<A: Allocator>(
    text: &mut String<A>,
    said: ProfileLevel,
) -> Result<(), AllocError>
    ensures { OnOk result (string_bytes text.new ≡ string_bytes text.old ++ spec.said_words said) }
{
    match said {
        ProfileLevel::Unsaid => Ok(()),
        ProfileLevel::Mpeg(indication) => write_mpeg(text, indication),
        ProfileLevel::Avc {
            profile,
            constraints,
            level,
        } => write_avc(text, profile, constraints, level),
        ProfileLevel::Hevc {
            profile,
            depths,
            formats,
            level,
        } => write_hevc(text, profile, depths, formats, level),
        ProfileLevel::Aac {
            object_type,
            channels,
        } => write_aac(text, object_type, channels),
    }
}
