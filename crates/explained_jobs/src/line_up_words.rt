//! Why a line-up may not take the place of the one on air, in words.

ghost use Rattle.std.specs.Prelude.{◌≡◌, ◌++◌, OnOk, string_bytes};
ghost use Rattle.explained_jobs.specs.LineUpWords as spec;

use crate::text_words::{write_part, write_text_fault};
use changed_texts::TextFault;
use line_ups::LineUpFault;
use std::alloc::AllocError;

/// Appends why a line-up may not take the place of the one on air, as a line.
#[tactic(auto, unfolding(crate::specs::LineUpWords::line_up_words))]
pub fn write_line_up_fault(fault: LineUpFault, text: &mut String) -> Result<(), AllocError>
    ensures { OnOk result (string_bytes text.new ≡ string_bytes text.old ++ spec.line_up_words fault) }
{
    match fault {
        LineUpFault::Rate => write_text_fault(TextFault::Rate, text),
        LineUpFault::Clock => write_text_fault(TextFault::Clock, text),
        LineUpFault::Stream => text.push_str(
            "stream: transport_stream_id, original_network_id and transponder have to be as in the first description\n",
        ),
        LineUpFault::Pid(pid) => write_part(
            "pid",
            pid as usize,
            "it was on air for something else, or with another declaration: choose another",
            text,
        ),
        LineUpFault::Period => text.push_str(
            "period: neither a multiple nor a part of the one on air: tsjob next --plan makes such a plan\n",
        ),
        LineUpFault::Moved(pid) => write_part(
            "moved",
            pid as usize,
            "its slots have to stay: tsjob next --plan keeps them",
            text,
        ),
        LineUpFault::Shape(table) => write_part(
            "shape",
            table,
            "it needs as many sections and packets as on air: reserve them as for texts, a program by on_air = false",
            text,
        ),
        LineUpFault::Order(program) => write_part(
            "order",
            program as usize,
            "later in the list of programs than on air: put new ones at its end",
            text,
        ),
    }
}

/// Appends that a stream goes although units of it have not been sent, as a line.
#[tactic(auto, unfolding(crate::specs::LineUpWords::waiting_words))]
pub fn write_waiting(pid: u16, text: &mut String) -> Result<(), AllocError>
    ensures { OnOk result (string_bytes text.new ≡ string_bytes text.old ++ spec.waiting_words pid) }
{
    write_part(
        "waiting",
        pid as usize,
        "units of it wait: end its feed, send a tick that settles the last one, then the record",
        text,
    )
}
