//! The request of the words.

use event_lines::LineForm;
use std::marker::Model;
use ts_report::ViewRequest;

/// The lines of events, or the page that is drawn of them.
#[derive(Drop)]
pub enum Request {
    Lines(ViewRequest, LineForm),
    Page(ViewRequest),
}

/// A request, and the file with the stream.
#[derive(Drop)]
pub struct Asked<'a> {
    pub request: Request,
    /// The name of the file with the stream; without it, or if it is `-`, the stream comes on the input.
    pub file: Option<&'a str>,
}

// A contract sees the name as its characters.
impl<'a> Model for Asked<'a> {
    ghost use Rattle.std.specs.Prelude.{option_map};
    ghost use Rattle.tsview_cli.specs.Arguments.{AskedView};

    ghost Value = { AskedView };

    ghost view = { λ a. record { request = a.request; file = option_map (λ s. s.now) a.file } };
}
