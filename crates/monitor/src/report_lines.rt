//! The lines of a report.
ghost use Rattle.std.specs.Prelude.{◌≡◌, ◌++◌, IfOk, OnOk, string_bytes};
ghost use Rattle.monitor.specs.ReportLines.{packet_counts_text, fault_line, fault_lines, finding_counts_text};
ghost use Rattle.monitor.specs.ReportLines.{number_text, pid_line, pid_lines, pid_text, report_text, rule_name};
ghost use Rattle.monitor.specs.ReportLines.{total_line};

use crate::fault::{Rule, StreamFault};
use crate::reports::{PidCounts, Report};
use std::alloc::{AllocError, Allocator};
use std::fmt::Write;

impl Rule {
    /// Returns the word for the rule in a line.
    #[tactic(auto, unfolding(crate::specs::ReportLines::rule_name))]
    pub fn name(self) -> &'static str
        ensures { result.now ≡ rule_name self }
    {
        match self {
            Rule::Sync => "sync",
            Rule::Packet => "packet",
            Rule::Error => "error",
            Rule::Counter => "counter",
            Rule::Crc => "crc",
            Rule::Section => "section",
            Rule::Pat => "pat",
            Rule::Pmt => "pmt",
            Rule::Nit => "nit",
            Rule::Sdt => "sdt",
            Rule::Eit => "eit",
            Rule::Tdt => "tdt",
            Rule::Pcr => "pcr",
            Rule::Pts => "pts",
            Rule::Cut => "cut",
        }
    }
}

fn write_total<B: Allocator>(
    text: &mut String<B>,
    name: &str,
    number: u64,
) -> Result<(), AllocError>
    ensures { OnOk result (string_bytes text.new ≡ string_bytes text.old ++ total_line name.now number) }
{
    write!(text, "{name} {number}\n")
}

fn write_number<B: Allocator>(
    text: &mut String<B>,
    name: &str,
    number: u64,
) -> Result<(), AllocError>
    ensures { OnOk result (string_bytes text.new ≡ string_bytes text.old ++ number_text name.now number) }
{
    write!(text, "{name}{number}")
}

fn write_packet_counts<B: Allocator>(
    text: &mut String<B>,
    counts: &PidCounts,
) -> Result<(), AllocError>
    ensures { OnOk result (string_bytes text.new ≡ string_bytes text.old ++ packet_counts_text counts.now) }
{
    write_number(text, "pid ", u64::from(counts.pid))?;
    write_number(text, " packets ", counts.packets)?;
    write_number(text, " starts ", counts.starts)
}

fn write_finding_counts<B: Allocator>(
    text: &mut String<B>,
    counts: &PidCounts,
) -> Result<(), AllocError>
    ensures { OnOk result (string_bytes text.new ≡ string_bytes text.old ++ finding_counts_text counts.now) }
{
    write_number(text, " duplicates ", counts.duplicates)?;
    write_number(text, " scrambled ", counts.scrambled)?;
    Ok(())
}

fn write_counts<B: Allocator>(text: &mut String<B>, counts: &PidCounts) -> Result<(), AllocError>
    ensures { OnOk result (string_bytes text.new ≡ string_bytes text.old ++ pid_line counts.now) }
{
    write_packet_counts(text, counts)?;
    write_finding_counts(text, counts)?;
    text.push_str("\n")
}

#[tactic(auto, unfolding(crate::specs::ReportLines::pid_text))]
fn write_pid<B: Allocator>(text: &mut String<B>, pid: Option<u16>) -> Result<(), AllocError>
    ensures { OnOk result (string_bytes text.new ≡ string_bytes text.old ++ pid_text pid) }
{
    match pid {
        None => text.push_str("-"),
        Some(pid) => write!(text, "{pid}"),
    }
}

fn write_fault<B: Allocator>(text: &mut String<B>, fault: &StreamFault) -> Result<(), AllocError>
    ensures { OnOk result (string_bytes text.new ≡ string_bytes text.old ++ fault_line fault.now) }
{
    let packet = fault.packet;
    let name = fault.rule.name();
    write!(text, "fault {packet} ")?;
    write_pid(text, fault.pid)?;
    write!(text, " {name}\n")
}

fn write_all_counts<B: Allocator>(
    text: &mut String<B>,
    pids: &[PidCounts],
) -> Result<(), AllocError>
    ensures { OnOk result (string_bytes text.new ≡ string_bytes text.old ++ pid_lines pids.now) }
{
    for counts in pids {
        write_counts(text, counts)?;
    }
    Ok(())
}

fn write_faults<B: Allocator>(
    text: &mut String<B>,
    faults: &[StreamFault],
) -> Result<(), AllocError>
    ensures { OnOk result (string_bytes text.new ≡ string_bytes text.old ++ fault_lines faults.now) }
{
    for fault in faults {
        write_fault(text, fault)?;
    }
    Ok(())
}

impl<A: Allocator> Report<A> {
    /// Returns the lines of the report.
    #[tactic(auto, unfolding(crate::specs::ReportLines::report_text))]
    pub fn write_text<B: Allocator>(&self, alloc: B) -> Result<String<B>, AllocError>
        ensures { IfOk result (λ text. string_bytes text ≡ report_text self.now) }
    {
        let mut text = String::new(alloc);
        write_total(&mut text, "packets", self.packets())?;
        write_all_counts(&mut text, self.pids())?;
        write_faults(&mut text, self.faults())?;
        write_total(&mut text, "faults", self.faults().len() as u64)?;
        Ok(text)
    }
}
