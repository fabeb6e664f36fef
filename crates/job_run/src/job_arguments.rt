//! The requests about a stream.

ghost use Rattle.std.specs.Prelude.{◌≡◌, option_map};

use crate::reporting::Reporting;
use es_buffers::PidBuffers;
use given_values::{ClockBase, ClockSharing, DeclareBy, NetworkName, ServiceName};
use job_programs::JobOptions;
use std::marker::Model;

/// The kind of output.
#[derive(Clone, Copy)]
pub enum Subcommand {
    /// The whole job.
    Whole,
    /// Its description.
    Describe,
    /// Its unit records.
    Units,
    /// Why no plan serves its description.
    Why,
}

/// The subcommand and the options of a command line.
#[derive(Drop)]
pub struct JobArguments<'a> {
    pub subcommand: Subcommand,
    /// The file of a description whose units are written while the stream comes.
    pub stream: Option<&'a str>,
    /// Which lines are reported.
    pub reporting: Reporting,
    /// The rate in bits a second, 100,000 to 100,000,000; none: the least rate at which a plan is found.
    pub rate: Option<u64>,
    /// The moment of the first slot, if it is given.
    pub start: Option<&'a str>,
    /// The greatest time between two clock references, 1 to 100 ms.
    pub pcr_limit: u8,
    /// The longest time from a unit's arrival to its decoding, 1 to 90,000 units of 90 kHz.
    pub lead: u32,
    /// By what the packets of units are declared.
    pub declare_by: DeclareBy,
    /// Whether DTS are made from PTS.
    pub make_dts: bool,
    /// Whether a stream that can't be carried refuses the input.
    pub strict: bool,
    /// Whether a program is written without a picture or sound that can't be carried.
    pub lenient: bool,
    /// What the system clock shows as the run begins.
    pub base: ClockBase,
    /// Which programs share a clock.
    pub clock: ClockSharing,
    /// The network, in place of the stream's network.
    pub network: Option<NetworkName<'a>>,
    /// Names of services in place of the stream's names.
    pub names: Vec<ServiceName<'a>>,
    /// The programs that are taken; none: all.
    pub programs: Vec<u16>,
    /// The PIDs that are left out.
    pub without: Vec<u16>,
    /// Buffers in place of the buffers by coding and level.
    pub buffers: Vec<PidBuffers>,
    /// Whether the units at which a decoder may begin are marked.
    pub mark_access: bool,
    /// The PIDs whose units are aligned.
    pub aligned: Vec<u16>,
    /// Whether the parts of a recording that was joined from several come one after another.
    pub joined: bool,
    /// The most frames of sound of a PES packet, 1 to 64; without it the packets are the stream's.
    pub frames: Option<u8>,
}

// A contract sees its lists and its text.
impl<'a> Model for JobArguments<'a> {
    ghost use Rattle.std.specs.Prelude.{option_map};
    ghost use Rattle.given_values.specs.GivenNames.{network_name_view};
    ghost use Rattle.job_run.specs.JobArguments.{JobArgumentsView};

    ghost Value = { JobArgumentsView };

    ghost view = { λ a. record {
      subcommand = a.subcommand;
      stream = option_map (λ s. s.now) a.stream;
      reporting = a.reporting;
      options = record {
        rate = a.rate;
        start = option_map (λ s. s.now) a.start;
        pcr_limit = a.pcr_limit;
        lead = a.lead;
        declare_by = a.declare_by;
        make_dts = a.make_dts;
        strict = a.strict;
        lenient = a.lenient;
        base = a.base;
        clock = a.clock;
        network = option_map network_name_view a.network;
        names = a.names.items;
        programs = a.programs.items;
        without = a.without.items;
        buffers = a.buffers.items;
        mark_access = a.mark_access;
        aligned = a.aligned.items;
        joined = a.joined;
        frames = a.frames;
      };
    } };
}

impl JobArguments<'_> {
    /// Returns the file of a description, if the arguments name it.
    pub fn stream(&self) -> Option<&str>
        ensures { option_map (λ s. s.now) result ≡ self.now.stream }
    {
        self.stream
    }

    /// Returns the options of the job.
    pub fn options(&self) -> JobOptions<'_>
        ensures { result ≡ self.now.options }
    {
        JobOptions {
            rate: self.rate,
            start: self.start,
            pcr_limit: self.pcr_limit,
            lead: self.lead,
            declare_by: self.declare_by,
            make_dts: self.make_dts,
            strict: self.strict,
            lenient: self.lenient,
            base: self.base,
            clock: self.clock,
            network: self.network,
            names: &self.names,
            programs: &self.programs,
            without: &self.without,
            buffers: &self.buffers,
            mark_access: self.mark_access,
            aligned: &self.aligned,
            joined: self.joined,
            frames: self.frames,
        }
    }
}
