//! The loop of services that a service description section holds, as it is built.

ghost use Rattle.std.specs.Prelude.{◌≡◌, is_some, true};
ghost use Rattle.psi_tables.specs.Loops.{loop_at};
ghost use Rattle.dvb_tables.specs.declared.service_loop.TheConstants.{GREATEST_SERVICE_LOOP};

use crate::service::{Service, Services};
use arrayvec::ArrayVec;
use psi_tables::SectionError;

/// The bytes that a section has room for after the front of a service description table.
pub const GREATEST_SERVICE_LOOP: usize = 1009;

/// Services that are being built: whole entries, kept as their bytes one after another, without
/// memory; as many as fit in one section.
#[derive(Drop)]
pub struct ServiceLoop {
    bytes: ArrayVec<u8, 1009>,
    ghost whole: { is_some (loop_at 5 bytes.items) ≡ true },
}

impl ServiceLoop {
    ghost use Rattle.std.specs.Prelude.{◌↔◌, ◌≤◌, [], ◌∷◌, ◌++◌, length, IsOk, OnOk, OnErr, IfErr};
    ghost use Rattle.dvb_tables.specs.Services.{service_view, services_of, services_bytes, service_loop_of};

    /// Returns no services.
    #[tactic(auto, unfolding(crate::specs::Services::service_loop_of))]
    pub fn new() -> ServiceLoop
        ensures { service_loop_of result ≡ [] }
    {
        ServiceLoop {
            bytes: ArrayVec::new(),
        }
    }

    /// Returns the services, in order.
    #[tactic(auto, unfolding(crate::specs::Services::service_loop_of))]
    pub fn services(&self) -> Services<'_>
        ensures { services_of result ≡ service_loop_of self.now }
    {
        Services::of_whole(self.bytes.as_slice())
    }

    /// Adds a service at the end, or refuses it as `TooLong` if the section has no room for it.
    #[tactic(auto, unfolding(crate::specs::Services::service_loop_of))]
    pub fn push(&mut self, service: &Service<'_>) -> Result<(), SectionError>
        ensures variant { IsOk result ↔ (length (services_bytes (service_loop_of self.old ++ service_view service.now
            ∷ [])) ≤ GREATEST_SERVICE_LOOP) }
        ensures ok { OnOk result (service_loop_of self.new
            ≡ service_loop_of self.old ++ service_view service.now ∷ []) }
        ensures too_long { IfErr result (λ e. e ≡ SectionError.TooLong) }
        ensures unchanged { OnErr result (self.new ≡ self.old) }
    {
        let room = GREATEST_SERVICE_LOOP - self.bytes.len();
        if room < 5 + service.descriptors.len() {
            return Err(SectionError::TooLong);
        }
        service.append_to(&mut self.bytes);
        Ok(())
    }
}
