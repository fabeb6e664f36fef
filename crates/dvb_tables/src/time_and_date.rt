//! The time and date table (EN 300 468, 5.2.5).

ghost use Rattle.std.specs.Prelude.{◌≡◌, IsOk, OnOk, IfOk, IfErr, Ok};
ghost use Rattle.psi_tables.specs.Views.{section_view};
ghost use Rattle.psi_tables.specs.Encoding.{section_bytes};
ghost use Rattle.dvb_tables.specs.declared.time_and_date.Tdt.{Tdt};
ghost use Rattle.dvb_tables.specs.TimeAndDate.{IsTdt, tdt_at, tdt_of_form, tdt_section};

use arrayvec::ArrayVec;
use psi_tables::{LongHeader, Section, SectionError, SectionHeader, WriteError, to_vec};
use std::alloc::Allocator;

/// The table_id of a time and date section.
pub const TDT_TABLE_ID: u8 = 0x70;

/// A time and date section.
#[derive(Clone, Copy, PartialEq, Eq)]
pub struct Tdt {
    /// The Modified Julian Date and hhmmss, as `utc_time` writes them; read as the bytes that they are.
    pub utc_time: [u8; 5],
}

impl Tdt {
    /// Reads a section as a TDT.
    ///
    /// Refusals: `Syntax` for another table_id or the long form; `Body` for a section_length other than
    /// 5. The bit after section_syntax_indicator is not looked at.
    pub fn read(section: &Section<'_>) -> Result<Tdt, SectionError>
        // The section encodes this TDT.
        ensures found { IfOk result (λ tdt. IsTdt (section_view section.now) tdt) }

        // Any TDT that the section encodes is returned.
        ensures only { (t : Tdt) → IsTdt (section_view section.now) t → result ≡ Ok t }

        // Which refusal it is.
        ensures exact { result ≡ tdt_at (section_view section.now) }
    {
        Tdt::of_section(section)
    }

    #[tactic(auto, unfolding(crate::specs::TimeAndDate::tdt_at))]
    fn of_section(section: &Section<'_>) -> Result<Tdt, SectionError>
        ensures { result ≡ tdt_at (section_view section.now) }
    {
        if section.header.table_id == TDT_TABLE_ID {
            Tdt::of_form(section.header.long, section.body)
        } else {
            Err(SectionError::Syntax)
        }
    }

    /// Leaves exactly the section in `out`: it is never too long. It takes no memory.
    #[tactic(auto, unfolding(crate::specs::TimeAndDate::tdt_section))]
    pub fn write_to(&self, out: &mut ArrayVec<u8, 4096>) -> Result<(), SectionError>
        ensures succeeds { IsOk result }
        ensures ok { OnOk result (out.new.items ≡ section_bytes (tdt_section self.now)) }
    {
        let section = Section {
            header: SectionHeader {
                table_id: TDT_TABLE_ID,
                private_indicator: true,
                long: None,
            },
            body: &self.utc_time,
        };
        section.write_to(out)
    }

    /// Returns the bytes of the section in a vector of their own.
    pub fn write<A: Allocator>(&self, alloc: A) -> Result<Vec<u8, A>, WriteError>
        ensures ok { IfOk result (λ bytes. bytes.items ≡ section_bytes (tdt_section self.now)) }
        ensures memory { IfErr result (λ e. e ≡ WriteError.Memory) }
    {
        let mut bytes = ArrayVec::new();
        self.write_to(&mut bytes)?;
        to_vec(alloc, bytes.as_slice())
    }

    #[tactic(auto, unfolding(crate::specs::TimeAndDate::tdt_of_form))]
    fn of_form(long: Option<LongHeader>, body: &[u8]) -> Result<Tdt, SectionError>
        ensures { result ≡ tdt_of_form long body.now }
    {
        match long {
            None => match body {
                [a, b, c, d, e] => Ok(Tdt {
                    utc_time: [*a, *b, *c, *d, *e],
                }),
                _ => Err(SectionError::Body),
            },
            Some(_) => Err(SectionError::Syntax),
        }
    }
}
