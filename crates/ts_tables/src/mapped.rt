//! Programs of an association table that have maps.
ghost use Rattle.std.specs.Prelude.{◌≡◌, ◌==◌, ◌≤◌, true, length, map, take};
ghost use Rattle.pid_findings.specs.Shown.{finding_view};
ghost use Rattle.program_tables.specs.KnownTables.{known_in};
ghost use Rattle.ts_tables.specs.NamedStreams.{have_maps};
ghost use Rattle.ts_tables.specs.Mapped.{AreMapped, AreTables};

use pid_findings::Finding;
use program_tables::KnownTables;
use psi_tables::Program;

// How many programs from the first on have maps: all before a place have one.
fn mapped_from(
    place: usize,
    programs: &[Program],
    tables: &KnownTables,
    findings: &[Finding<'_>],
) -> usize
    requires known { tables.now ≡ known_in (map finding_view findings.now) }
    requires within { place ≤ length programs.now }
    requires before { have_maps (map finding_view findings.now) (take place programs.now) ≡ true }
    ensures { AreMapped (map finding_view findings.now) programs.now result }
{
    for at in place..programs.len() {
        let program = programs[at];
        if !tables.has_map(program, findings) {
            return at;
        }
    }
    programs.len()
}

/// Returns how many programs that tables name have maps, from the first on: all before a place have one.
pub fn mapped_programs(place: usize, tables: &KnownTables, findings: &[Finding<'_>]) -> usize
    requires { AreTables tables.now (map finding_view findings.now) place }
    ensures tables { AreTables tables.now (map finding_view findings.now) result }
    ensures all { (result == length tables.now.programs)
        ≡ have_maps (map finding_view findings.now) tables.now.programs }
{
    mapped_from(place, tables.programs(), tables, findings)
}
