//! Links to the pictures.
ghost use Rattle.std.specs.Prelude.{◌≡◌, ◌++◌, OnOk, string_bytes};
ghost use Rattle.page_charts.specs.Links as spec;

use crate::trace_pictures::{TracePictures, is_of};
use events::{BufferKind, TracePoint};
use std::alloc::AllocError;
use std::fmt::Write;

// Appends a link to the picture of the buffer with this word of a PID.
#[tactic(auto, unfolding(crate::specs::Links::link_text))]
fn write_link_text(text: &mut String, pid: u16, word: &str) -> Result<(), AllocError>
    ensures { OnOk result (string_bytes text.new ≡ string_bytes text.old ++ spec.link_text pid word.now) }
{
    write!(text, ",&#160;<a href=#trace-{pid}-{word}>picture</a>")
}

// Returns a link to the section of the pictures, if there is a point.
#[tactic(auto, unfolding(crate::specs::Links::section_link_if))]
fn section_link_if(last: &Option<TracePoint>) -> &'static str
    ensures { result.now ≡ spec.section_link_if last.now }
{
    match last {
        None => "",
        Some(_) => "<a href=#traces>Greatest excesses</a>",
    }
}

impl TracePictures {
    // Returns whether there is a picture of the buffer of a kind of a PID.
    fn has_picture(&self, pid: u16, kind: BufferKind) -> bool
        ensures { result ≡ spec.has_picture self.now pid kind }
    {
        self.firsts.iter().any(|first| is_of(pid, kind, first))
    }

    /// Appends a link to the picture of the buffer of a kind of a PID, if there is such a picture.
    pub fn write_link(
        &self,
        text: &mut String,
        pid: u16,
        kind: BufferKind,
    ) -> Result<(), AllocError>
        ensures { OnOk result (string_bytes text.new ≡ string_bytes text.old ++ spec.link_if self.now pid kind) }
    {
        if self.has_picture(pid, kind) {
            write_link_text(text, pid, kind.word())
        } else {
            Ok(())
        }
    }

    /// Appends a link to the section of the pictures, if there are any.
    pub fn write_section_link(&self, text: &mut String) -> Result<(), AllocError>
        ensures { OnOk result (string_bytes text.new ≡ string_bytes text.old ++ spec.section_link self.now) }
    {
        text.push_str(section_link_if(&self.last))
    }
}
