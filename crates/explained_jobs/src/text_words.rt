//! Why a description is no text of the one on air, in words.

ghost use Rattle.std.specs.Prelude.{◌≡◌, ◌++◌, OnOk, string_bytes};
ghost use Rattle.explained_jobs.specs.TextWords as spec;

use changed_texts::TextFault;
use std::alloc::AllocError;
use std::fmt::Write;

// Appends a word, a number and a sentence.
#[tactic(auto, unfolding(crate::specs::TextWords::part_words))]
pub(crate) fn write_part(
    name: &str,
    n: usize,
    sentence: &str,
    text: &mut String,
) -> Result<(), AllocError>
    ensures { OnOk result (string_bytes text.new ≡ string_bytes text.old ++ spec.part_words name.now n sentence.now) }
{
    write!(text, "{name} {n}: {sentence}\n")
}

/// Appends why a description is no text of the one on air, as a line.
#[tactic(auto, unfolding(crate::specs::TextWords::text_words))]
pub fn write_text_fault(fault: TextFault, text: &mut String) -> Result<(), AllocError>
    ensures { OnOk result (string_bytes text.new ≡ string_bytes text.old ++ spec.text_words fault) }
{
    match fault {
        TextFault::Rate => text.push_str("rate: it has to be that of the first description\n"),
        TextFault::Clock => {
            text.push_str("clock: base0 has to be that of the first description\n")
        }
        TextFault::Stream => text.push_str(
            "stream: transport_stream_id and original_network_id have to be those of the first description\n",
        ),
        TextFault::Program(p) => write_part(
            "program",
            p,
            "only its texts may differ: not number, pmt_pid, pcr_pid and pcr_limit, and no program may come or go",
            text,
        ),
        TextFault::Elementary(k) => write_part(
            "elementary",
            k,
            "only type, tag, language, descriptors and shared_with may differ, and no stream may come or go",
            text,
        ),
        TextFault::Tables => text.push_str(
            "tables: no table may come or go, and no network id, pid or limit may differ; with eit = true an EIT stays without events\n",
        ),
        TextFault::Shape(t) => write_part(
            "shape",
            t,
            "more sections or packets than the first description: its pat_packets, pmt_packets, nit_packets, sdt_packets, eit and eit_packets make room",
            text,
        ),
        TextFault::Private(t) => write_part(
            "version",
            t,
            "a section differs from the one on air and has its version_number: give it another",
            text,
        ),
    }
}
