//! The forms of files, and what each is called.

ghost use Rattle.std.specs.Prelude.{◌≡◌};
ghost use Rattle.packet_sync.specs.FileForms as spec;

/// What an input that is no transport stream is, by its first bytes.
#[derive(Clone, Copy, Debug, PartialEq, Eq)]
pub enum FileForm {
    /// A file of the ISO base media file format, as MP4 and QuickTime have it.
    Mp4,
    /// Matroska or WebM.
    Matroska,
    /// AVI.
    Avi,
    /// WAV.
    Wave,
    /// Ogg.
    Ogg,
    /// A program stream (ISO/IEC 13818-1, 2.5).
    ProgramStream,
    /// An elementary stream of video, from a start code on.
    ElementaryStream,
    /// A capture of network packets, pcap or pcapng.
    NetworkCapture,
    /// A text in ASCII.
    Text,
    Unknown,
}

impl FileForm {
    /// Returns its word in a line.
    #[tactic(auto, unfolding(crate::specs::FileForms::line_word))]
    pub fn line_word(self) -> &'static str
        ensures { result.now ≡ spec.line_word self }
    {
        match self {
            FileForm::Mp4 => "mp4",
            FileForm::Matroska => "matroska",
            FileForm::Avi => "avi",
            FileForm::Wave => "wav",
            FileForm::Ogg => "ogg",
            FileForm::ProgramStream => "program_stream",
            FileForm::ElementaryStream => "elementary_stream",
            FileForm::NetworkCapture => "network_capture",
            FileForm::Text => "text",
            FileForm::Unknown => "unknown",
        }
    }

    /// Returns its words in a page.
    #[tactic(auto, unfolding(crate::specs::FileForms::words))]
    pub fn words(self) -> &'static str
        ensures { result.now ≡ spec.words self }
    {
        match self {
            FileForm::Mp4 => "MP4",
            FileForm::Matroska => "Matroska",
            FileForm::Avi => "AVI",
            FileForm::Wave => "WAV",
            FileForm::Ogg => "Ogg",
            FileForm::ProgramStream => "MPEG program stream",
            FileForm::ElementaryStream => "elementary stream of video",
            FileForm::NetworkCapture => "capture of network packets",
            FileForm::Text => "text",
            FileForm::Unknown => "of unknown form",
        }
    }

    /// Returns whether the first bytes show the form.
    #[tactic(auto, unfolding(crate::specs::FileForms::is_known))]
    pub(crate) fn is_known(self) -> bool
        ensures { result ≡ spec.is_known self }
    {
        match self {
            FileForm::Unknown => false,
            _ => true,
        }
    }
}
