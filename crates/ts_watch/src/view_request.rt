//! The request of a view.
use crate::view_choice::ViewChoice;
use es_events::view_options::ViewOptions;
use std::marker::Model;

/// The part of a stream whose faults and windows are asked for, between two moments in ms from its first byte on: from
/// the begin on, or up to the end, if a moment is not given. Totals are still of the whole stream.
#[derive(Clone, Copy)]
pub struct ViewSpan {
    pub from: Option<u64>,
    pub to: Option<u64>,
}

/// The request of a view: how a stream is viewed, which of its streams, and which part of it.
#[derive(Drop)]
pub struct ViewRequest {
    pub options: ViewOptions,
    pub choice: ViewChoice,
    pub span: ViewSpan,
    /// Whether packets of 192 bytes arrive by the stamps before them.
    pub stamps: bool,
}

impl Model for ViewRequest {
    ghost use Rattle.ts_watch.specs.Choices.{RequestView};

    ghost Value = { RequestView };

    ghost view = { λ r. record { options = r.options; choice = r.choice; span = r.span; stamps = r.stamps } };
}
