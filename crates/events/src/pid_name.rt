//! What a PID is called.
ghost use Rattle.std.specs.Prelude.{◌≡◌};
ghost use Rattle.events.specs.PidNames as spec;

use stream_coding::Coding;

/// What a PID carries: a table by its PID, null packets, the map of a program, its clock references alone, or a stream
/// of a coding.
#[derive(Clone, Copy)]
pub enum PidName {
    Pat,
    Cat,
    Nit,
    Sdt,
    Eit,
    Tdt,
    Null,
    Pmt,
    Pcr,
    Mpeg2,
    Avc,
    Hevc,
    Audio,
    Aac,
    Ac3,
    Subtitles,
    Teletext,
    Other,
}

impl PidName {
    /// Returns what a PID carries that is always the same (ISO/IEC 13818-1, table 2-3; EN 300 468, table 1).
    pub fn fixed(pid: u16) -> Option<PidName>
        ensures { result ≡ spec.fixed pid }
    {
        match pid {
            0 => Some(PidName::Pat),
            1 => Some(PidName::Cat),
            16 => Some(PidName::Nit),
            17 => Some(PidName::Sdt),
            18 => Some(PidName::Eit),
            20 => Some(PidName::Tdt),
            8191 => Some(PidName::Null),
            _ => None,
        }
    }

    /// Returns the same, and `Other` for any other PID.
    pub fn of_pid(pid: u16) -> PidName
        ensures { result ≡ spec.of_pid pid }
    {
        PidName::fixed(pid).unwrap_or(PidName::Other)
    }

    /// Returns what a stream of a coding is called.
    #[tactic(auto, unfolding(crate::specs::PidNames::of_coding))]
    pub fn of_coding(coding: Coding) -> PidName
        ensures { result ≡ spec.of_coding coding }
    {
        match coding {
            Coding::Mpeg(_) => PidName::Mpeg2,
            Coding::Avc(_) => PidName::Avc,
            Coding::Hevc(_) => PidName::Hevc,
            Coding::Jpeg2000(_) => PidName::Other,
            Coding::Audio => PidName::Audio,
            Coding::Aac(_) => PidName::Aac,
            Coding::Ac3 => PidName::Ac3,
            Coding::Pcm(_) => PidName::Other,
            Coding::Subtitles => PidName::Subtitles,
            Coding::Teletext => PidName::Teletext,
            Coding::Other => PidName::Other,
        }
    }

    /// Returns its word in a line.
    #[tactic(auto, unfolding(crate::specs::PidNames::line_word))]
    pub fn line_word(self) -> &'static str
        ensures { result.now ≡ spec.line_word self }
    {
        match self {
            PidName::Pat => "pat",
            PidName::Cat => "cat",
            PidName::Nit => "nit",
            PidName::Sdt => "sdt",
            PidName::Eit => "eit",
            PidName::Tdt => "tdt",
            PidName::Null => "null",
            PidName::Pmt => "pmt",
            PidName::Pcr => "pcr",
            PidName::Mpeg2 => "mpeg2",
            PidName::Avc => "avc",
            PidName::Hevc => "hevc",
            PidName::Audio => "audio",
            PidName::Aac => "aac",
            PidName::Ac3 => "ac3",
            PidName::Subtitles => "subtitles",
            PidName::Teletext => "teletext",
            PidName::Other => "other",
        }
    }

    /// Returns its word in a page.
    #[tactic(auto, unfolding(crate::specs::PidNames::word))]
    pub fn word(self) -> &'static str
        ensures { result.now ≡ spec.word self }
    {
        match self {
            PidName::Pat => "PAT",
            PidName::Cat => "CAT",
            PidName::Nit => "NIT",
            PidName::Sdt => "SDT",
            PidName::Eit => "EIT",
            PidName::Tdt => "TDT",
            PidName::Null => "null",
            PidName::Pmt => "PMT",
            PidName::Pcr => "PCR",
            PidName::Mpeg2 => "MPEG-2 video",
            PidName::Avc => "H.264",
            PidName::Hevc => "H.265",
            PidName::Audio => "MPEG audio",
            PidName::Aac => "AAC",
            PidName::Ac3 => "AC-3",
            PidName::Subtitles => "subtitles",
            PidName::Teletext => "teletext",
            PidName::Other => "other",
        }
    }
}
