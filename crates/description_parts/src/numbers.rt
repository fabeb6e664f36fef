//! Other versions in a description: these change the numbers of one table alone.

ghost use Rattle.std.specs.Prelude.{◌≡◌};
ghost use Rattle.description_parts.specs.Numbers as spec;

use crate::contents::Contents;
use crate::program::ProgramDescription;
use crate::versions::Versions;

impl ProgramDescription {
    /// Changes version_number of its PMT.
    pub fn set_pmt_version(&mut self, version: u8)
        ensures { self.new ≡ spec.with_pmt_version version self.old }
    {
        self.pmt_version = version;
    }

    /// Changes the number from which version_number of its sections of the EIT is counted.
    pub fn set_eit_count(&mut self, count: u8)
        ensures { self.new ≡ spec.with_eit_count count self.old }
    {
        self.eit_count = count;
    }
}

fn set_pmt_version_in(programs: &mut Vec<ProgramDescription>, place: usize, version: u8)
    ensures { programs.new.items ≡ spec.numbered_at (spec.with_pmt_version version) place programs.old.items }
{
    if let Some(program) = programs.get_mut(place) {
        program.set_pmt_version(version);
    }
}

fn set_eit_count_in(programs: &mut Vec<ProgramDescription>, place: usize, count: u8)
    ensures { programs.new.items ≡ spec.numbered_at (spec.with_eit_count count) place programs.old.items }
{
    if let Some(program) = programs.get_mut(place) {
        program.set_eit_count(count);
    }
}

impl Contents {
    /// Changes the versions of PAT, SDT and NIT.
    pub fn set_versions(&mut self, versions: Versions)
        ensures { self.new ≡ spec.with_versions self.old versions }
    {
        self.versions = versions;
    }

    /// Changes version_number of the PMT of the program at a place, if there is one.
    pub fn set_pmt_version(&mut self, place: usize, version: u8)
        ensures { self.new ≡ spec.with_programs self.old
            (spec.numbered_at (spec.with_pmt_version version) place self.old.programs) }
    {
        set_pmt_version_in(&mut self.programs, place, version);
    }

    /// Changes the number from which version_number of the sections of the EIT is counted, of the program at a place, if there
    /// is one.
    pub fn set_eit_count(&mut self, place: usize, count: u8)
        ensures { self.new ≡ spec.with_programs self.old
            (spec.numbered_at (spec.with_eit_count count) place self.old.programs) }
    {
        set_eit_count_in(&mut self.programs, place, count);
    }
}
