//! The options of a job.

ghost use Rattle.std.specs.Prelude.{◌≡◌};
ghost use Rattle.job_programs.specs.JobOptions.{is_among, is_selected_program};

use es_buffers::PidBuffers;
use given_values::{ClockBase, ClockSharing, DeclareBy, NetworkName, ServiceName};
use psi_tables::Program;
use std::marker::Model;

/// The options of a job; the rest is taken from the stream.
#[derive(Drop)]
pub struct JobOptions<'a> {
    /// The rate of the new stream in bits a second; without it the least at which a plan is found.
    pub rate: Option<u64>,
    /// The moment of its first slot, as a description has it; without it the moment of the stream's time and date
    /// table.
    pub start: Option<&'a str>,
    /// The greatest time between two clock references, 1 to 100 ms.
    pub pcr_limit: u8,
    /// The longest time from the arrival of a unit to its decoding, 1 to 90,000 units of 90 kHz.
    pub lead: u32,
    /// By what the packets of units are declared.
    pub declare_by: DeclareBy,
    /// Whether DTS are made from the PTS.
    pub make_dts: bool,
    /// Whether a stream that can't be carried refuses the input.
    pub strict: bool,
    /// Whether a program is written without a picture or sound that can't be carried.
    pub lenient: bool,
    /// What the system clock shows as the run begins.
    pub base: ClockBase,
    /// Which programs share a clock.
    pub clock: ClockSharing,
    /// The network, in place of the stream's network.
    pub network: Option<NetworkName<'a>>,
    /// Names of services in place of the stream's names.
    pub names: &'a [ServiceName<'a>],
    /// The programs that are taken; none: all.
    pub programs: &'a [u16],
    /// The PIDs that are left out.
    pub without: &'a [u16],
    /// Buffers in place of the buffers by coding and level.
    pub buffers: &'a [PidBuffers],
    /// Whether the units at which a decoder may begin are marked.
    pub mark_access: bool,
    /// The PIDs whose units are aligned.
    pub aligned: &'a [u16],
    /// Whether the parts of a recording that was joined from several come one after another.
    pub joined: bool,
    /// The most frames of sound of a PES packet, 1 to 64; without it the packets are the stream's.
    pub frames: Option<u8>,
}

// A contract sees its texts and lists.
impl<'a> Model for JobOptions<'a> {
    ghost use Rattle.std.specs.Prelude.{option_map};
    ghost use Rattle.given_values.specs.GivenNames.{network_name_view};
    ghost use Rattle.job_programs.specs.JobOptions.{JobOptionsView};

    ghost Value = { JobOptionsView };

    ghost view = { λ o. record {
      rate = o.rate;
      start = option_map (λ s. s.now) o.start;
      pcr_limit = o.pcr_limit;
      lead = o.lead;
      declare_by = o.declare_by;
      make_dts = o.make_dts;
      strict = o.strict;
      lenient = o.lenient;
      base = o.base;
      clock = o.clock;
      network = option_map network_name_view o.network;
      names = o.names.now;
      programs = o.programs.now;
      without = o.without.now;
      buffers = o.buffers.now;
      mark_access = o.mark_access;
      aligned = o.aligned.now;
      joined = o.joined;
      frames = o.frames;
    } };
}

/// Returns whether a number is among `numbers`.
#[tactic(auto, unfolding(crate::specs::JobOptions::is_among))]
pub fn is_among(number: u16, numbers: &[u16]) -> bool
    ensures { result ≡ is_among number numbers.now }
{
    numbers.iter().any(|other| *other == number)
}

/// Returns whether a program is taken.
#[tactic(auto, unfolding(crate::specs::JobOptions::is_selected_program))]
pub fn is_selected_program(selected: &[u16], program: &Program) -> bool
    ensures { result ≡ is_selected_program selected.now program.now }
{
    selected.is_empty() || is_among(program.program_number, selected)
}
