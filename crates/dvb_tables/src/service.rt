//! A service in a service description section (EN 300 468, 5.2.3).

ghost use Rattle.std.specs.Prelude.{◌≡◌, length, is_some, true};
ghost use Rattle.psi_tables.specs.Loops.{loop_at};

use crate::running_status::RunningStatus;
use arrayvec::ArrayVec;
use bit_fields::append;
use psi_tables::{Entry, SectionError, entry_at, is_whole_loop};

/// One service of a service description section. The descriptors are kept as bytes, whole descriptors or
/// not.
#[derive(Clone, Copy)]
pub struct Service<'a> {
    pub service_id: u16,
    /// Whether event schedules for the service are in this transport stream.
    pub eit_schedule: bool,
    /// Whether present and following events of the service are in this transport stream.
    pub eit_present_following: bool,
    pub running_status: RunningStatus,
    /// Whether a component may be scrambled.
    pub free_ca_mode: bool,
    pub descriptors: &'a [u8],
}

/// The services of a section, in order: an iterator over the bytes of the loop.
#[derive(Clone, Copy)]
pub struct Services<'a> {
    bytes: &'a [u8],
    ghost whole: { is_some (loop_at 5 bytes.now) ≡ true },
}

impl<'a> Services<'a> {
    ghost use Rattle.bit_fields.specs.Reading.{Gives};
    ghost use Rattle.dvb_tables.specs.Services.{services_at, services_in, services_of};

    // Returns the services of a whole loop.
    #[tactic(auto, unfolding(crate::specs::Services::services_of))]
    pub(crate) fn of_whole(bytes: &'a [u8]) -> Services<'a>
        requires { is_some (loop_at 5 bytes.now) ≡ true }
        ensures { services_of result ≡ services_in bytes.entry.now }
    {
        Services { bytes }
    }

    /// Returns the services that bytes are; `Body` if they end within an entry.
    #[tactic(auto, unfolding(crate::specs::Services::services_at, crate::specs::Services::services_of))]
    pub fn read(bytes: &'a [u8]) -> Result<Services<'a>, SectionError>
        ensures { Gives services_of result (services_at bytes.now) }
    {
        if is_whole_loop(5, bytes) {
            Ok(Services { bytes })
        } else {
            Err(SectionError::Body)
        }
    }
}

impl Services<'_> {
    ghost use Rattle.std.specs.Prelude.{◌+◌, ◌≤◌, ◌++◌};
    ghost use Rattle.arrayvec.specs.ArrayVec.{array_vec_len};
    ghost use Rattle.dvb_tables.specs.Services.{services_of, services_bytes};

    /// Returns how many bytes are written for them.
    pub fn byte_length(&self) -> usize
        ensures { result ≡ length (services_bytes (services_of self.now)) }
    {
        self.bytes.len()
    }

    // Appends them as they are written.
    pub(crate) fn append_all_to(self, out: &mut ArrayVec<u8, 4096>)
        requires { array_vec_len out.old + length (services_bytes (services_of self)) ≤ 4096 }
        ensures items { out.new.items ≡ out.old.items ++ services_bytes (services_of self.entry) }
        ensures len { array_vec_len out.new ≡ array_vec_len out.old + length (services_bytes (services_of self.entry)) }
    {
        for service in self {
            service.append_to(out);
        }
    }
}

impl<'a> Iterator for Services<'a> {
    ghost use Rattle.std.specs.Iterator.{YieldsFirstBy, item_count};
    ghost use Rattle.dvb_tables.specs.Services.{service_view, services_of};

    type Item = Service<'a>;

    ghost next_gives = { YieldsFirstBy service_view services_of };

    ghost remaining = { item_count services_of };

    #[tactic(auto, unfolding(crate::specs::Services::services_of, crate::specs::Services::services_in))]
    fn next(&mut self) -> Option<Service<'a>> {
        match entry_at(5, self.bytes) {
            None => None,
            Some((entry, rest)) => {
                self.bytes = rest;
                Some(Service::of_entry(entry))
            }
        }
    }
}

impl<'a> Service<'a> {
    ghost use Rattle.std.specs.Prelude.{◌+◌, ◌<◌, ◌≤◌, ◌++◌};
    ghost use Rattle.arrayvec.specs.ArrayVec.{array_vec_len};
    ghost use Rattle.psi_tables.specs.Loops.{entry_view};
    ghost use Rattle.dvb_tables.specs.Services.{service_view, service_of, service_front, service_bytes};

    // Returns the service that an entry of the loop encodes.
    #[tactic(auto, unfolding(crate::specs::Services::service_of))]
    fn of_entry(from: Entry<'a>) -> Service<'a>
        requires { length from.head.now ≡ 5 }
        ensures { service_view result ≡ service_of (entry_view from.entry) }
    {
        let head = from.head;
        let flags = head[2];
        let status = head[3];
        Service {
            service_id: u16::from_be_bytes([head[0], head[1]]),
            eit_schedule: flags >> 1 & 1 == 1,
            eit_present_following: flags & 1 == 1,
            running_status: RunningStatus::of_code(status >> 5),
            free_ca_mode: status >> 4 & 1 == 1,
            descriptors: from.descriptors,
        }
    }

    /// Appends the service to the loop of a service description section.
    #[tactic(auto, unfolding(crate::specs::Services::service_bytes))]
    pub fn append_to<const N: usize>(&self, out: &mut ArrayVec<u8, N>)
        requires length { length self.now.descriptors.now < 4096 }
        requires room { array_vec_len out.old + 5 + length self.now.descriptors.now ≤ N }
        ensures items { out.new.items ≡ out.old.items ++ service_bytes (service_view self.now) }
        ensures len { array_vec_len out.new ≡ array_vec_len out.old + 5 + length self.now.descriptors.now }
    {
        append(out, &self.front());
        append(out, self.descriptors);
    }

    // Returns the five bytes before the descriptors.
    #[tactic(auto, unfolding(crate::specs::Services::service_front))]
    fn front(&self) -> [u8; 5]
        requires { length self.now.descriptors.now < 4096 }
        ensures { result ≡ service_front (service_view self.now) }
    {
        let [a, b] = self.service_id.to_be_bytes();
        let schedule = if self.eit_schedule { 2 } else { 0 };
        let present_following = if self.eit_present_following { 1 } else { 0 };
        let scrambled = if self.free_ca_mode { 1 } else { 0 };
        let status = self.running_status.code() << 1 | scrambled;
        let [high, low] = (self.descriptors.len() as u16).to_be_bytes();
        [
            a,
            b,
            0xfc + (schedule + present_following),
            status << 4 | high,
            low,
        ]
    }
}
