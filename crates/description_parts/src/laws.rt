//! Laws of the parts, over the definitions alone. Each function does nothing: its contract is the law.

ghost use Rattle.description_parts.specs.NitParts.{NitPartsLaw};
ghost use Rattle.description_parts.specs.SdtParts.{SdtPartsLaw};

/// States that the sections of the SDT have all services, in order: one section if all fit in it, and for a transponder
/// as many as the services need.
pub fn sdt_parts()
    ensures { SdtPartsLaw }
{}

/// States that the sections of the NIT have all transport streams, in order: one section if all fit in it, and for a transponder
/// as many as the transport streams need.
pub fn nit_parts()
    ensures { NitPartsLaw }
{}
