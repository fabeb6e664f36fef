//! A program of the description.

ghost use Rattle.std.specs.Prelude.{◌≡◌, ◌≤◌, length};
ghost use Rattle.dvb_tables.specs.RunningStates.{status_of};

use crate::event::EventDescription;
use description_values::DescriptorLoop;
use dvb_tables::RunningStatus;
use std::marker::Model;

/// A program (ISO/IEC 13818-1, 2.4.4.8) with its service (EN 300 468, 5.2.3) and the service's events.
#[derive(Drop)]
pub struct ProgramDescription {
    pub(crate) number: u16,
    pub(crate) pmt_pid: u16,
    pub(crate) pcr_pid: u16,
    pub(crate) has_clock: bool,
    pub(crate) pcr_limit: u8,
    pub(crate) pmt_packets: u8,
    pub(crate) is_on_air: bool,
    pub(crate) pmt_version: u8,
    pub(crate) eit_count: u8,
    pub(crate) descriptors: DescriptorLoop,
    pub(crate) service_descriptors: Vec<u8>,
    pub(crate) running_status: u8,
    pub(crate) free_ca: bool,
    pub(crate) eit_schedule: bool,
    pub(crate) events: Vec<EventDescription>,
}

impl Model for ProgramDescription {
    ghost use Rattle.std.specs.Prelude.{◌<◌, ◌≤◌, length};
    ghost use Rattle.description_parts.specs.Described.{DescribedProgram};

    ghost Value = { DescribedProgram };

    ghost view = { λ p. record {
      number = p.number;
      pmt_pid = p.pmt_pid;
      pcr_pid = p.pcr_pid;
      has_clock = p.has_clock;
      pcr_limit = p.pcr_limit;
      pmt_packets = p.pmt_packets;
      is_on_air = p.is_on_air;
      pmt_version = p.pmt_version;
      eit_count = p.eit_count;
      descriptors = p.descriptors;
      service_descriptors = p.service_descriptors.items;
      running_status = p.running_status;
      free_ca = p.free_ca;
      eit_schedule = p.eit_schedule;
      events = p.events.items;
    } };

    ghost invariant = { λ p. (length p.service_descriptors.items ≤ 1004) × (p.running_status < 8) };
}

impl ProgramDescription {
    /// Returns program_number.
    pub fn number(&self) -> u16
        ensures { result ≡ self.now.number }
    {
        self.number
    }

    /// Returns the PID of its PMT.
    pub fn pmt_pid(&self) -> u16
        ensures { result ≡ self.now.pmt_pid }
    {
        self.pmt_pid
    }

    /// Returns the PID of its clock references, PCR_PID in its PMT.
    pub fn pcr_pid(&self) -> u16
        ensures { result ≡ self.now.pcr_pid }
    {
        self.pcr_pid
    }

    /// Returns whether its clock references are its own, and not those that programs share.
    pub fn has_clock(&self) -> bool
        ensures { result ≡ self.now.has_clock }
    {
        self.has_clock
    }

    /// Returns the greatest time between two clock references, in ms.
    pub fn pcr_limit(&self) -> u8
        ensures { result ≡ self.now.pcr_limit }
    {
        self.pcr_limit
    }

    /// Returns the least number of packets of the section of its PMT.
    pub fn pmt_packets(&self) -> u8
        ensures { result ≡ self.now.pmt_packets }
    {
        self.pmt_packets
    }

    /// Returns whether its streams are in its PMT, and its service runs.
    pub fn is_on_air(&self) -> bool
        ensures { result ≡ self.now.is_on_air }
    {
        self.is_on_air
    }

    /// Returns version_number of its PMT.
    pub fn pmt_version(&self) -> u8
        ensures { result ≡ self.now.pmt_version }
    {
        self.pmt_version
    }

    /// Returns the number from which version_number of its sections of the EIT is counted.
    pub fn eit_count(&self) -> u8
        ensures { result ≡ self.now.eit_count }
    {
        self.eit_count
    }

    /// Returns its descriptors in its PMT.
    pub fn descriptors(&self) -> &DescriptorLoop
        ensures { result.now ≡ self.now.descriptors }
    {
        &self.descriptors
    }

    /// Returns the loop of descriptors of its service.
    pub fn service_descriptors(&self) -> &[u8]
        ensures value { result.now ≡ self.now.service_descriptors }
        ensures fits { length self.now.service_descriptors ≤ 1004 }
    {
        self.service_descriptors.as_slice()
    }

    /// Returns running_status of its service, if the program is on air.
    pub fn running_status(&self) -> RunningStatus
        ensures { result ≡ status_of self.now.running_status }
    {
        RunningStatus::of_code(self.running_status)
    }

    /// Returns free_CA_mode of its service.
    pub fn free_ca(&self) -> bool
        ensures { result ≡ self.now.free_ca }
    {
        self.free_ca
    }

    /// Returns EIT_schedule_flag of its service.
    pub fn eit_schedule(&self) -> bool
        ensures { result ≡ self.now.eit_schedule }
    {
        self.eit_schedule
    }

    /// Returns the events of its service, in order.
    pub fn events(&self) -> &[EventDescription]
        ensures { result.now ≡ self.now.events }
    {
        self.events.as_slice()
    }
}
