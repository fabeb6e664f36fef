//! The sections of tables, packet by packet.
ghost use Rattle.std.specs.Prelude.{◌≡◌, ◌==◌, [], ◌++◌, OnOk, Some, map};
ghost use Rattle.bit_fields.specs.Reading.{Gives};
ghost use Rattle.ts_packet.specs.Packets.{null_packet};
ghost use Rattle.ts_packet.specs.Reading.{packet_at};
ghost use Rattle.ts_packet.specs.Views.{packet_view};
ghost use Rattle.pid_findings.specs.Shown.{finding_view};
ghost use Rattle.ts_watch.specs.TableEvents as spec;
ghost use Rattle.ts_watch.specs.TableNames.{with_each};

use crate::check_words::{is_bad, push_check_word_if};
use crate::table_names::TableNames;
use arrival::Arrival;
use demux::HeaderDemux;
use es_events::clocks::first_byte;
use es_events::view_options::ViewOptions;
use events::{Event, FaultKind, OtherTable, RuleEvent, TableFault, TableTotals};
use pid_findings::Finding;
use std::alloc::{AllocError, Global};
use std::marker::Model;
use tr101290::{
    SectionBegin, SectionDistances, SectionPlaces, TableError, TableIntervals, TableTiming,
    WholeSection, belongs, key_of, limit_of, pid_of, section_begin, table_id_of, time_between,
    whole_section,
};
use ts_packet::{Packet, PacketError};

/// The sections of each table, where the last ones end, and the number of sections that are late or have a wrong check
/// word, which stops at 2^64 - 1.
#[derive(Drop)]
pub struct TableTimes {
    intervals: TableIntervals<Global>,
    distances: SectionDistances<Global>,
    errors: u64,
}

impl Model for TableTimes {
    ghost use Rattle.ts_watch.specs.TableEvents.{TimesState};

    ghost Value = { TimesState };

    ghost view = { λ t. record { intervals = t.intervals; distances = t.distances; errors = t.errors } };
}

/// The sections of tables as far as they have come, and what they name.
#[derive(Drop)]
pub struct TableWatch {
    alloc: Global,
    demux: HeaderDemux,
    times: TableTimes,
    named: TableNames,
}

impl Model for TableWatch {
    ghost use Rattle.ts_watch.specs.TableEvents.{TablesState, TakesPackets};

    ghost Value = { TablesState };

    ghost view = { λ t. record { demux = t.demux; times = t.times; named = t.named } };

    ghost invariant = { λ t. TakesPackets t.demux };
}

fn fault_of(error: &TableError) -> TableFault
    ensures { result ≡ spec.fault_of error.now }
{
    TableFault {
        pid: error.section.pid,
        table: error.section.table_id,
        packet: error.section.packet,
        value: error.value,
        limit: error.limit,
    }
}

/// Returns the event of a section that begins too late.
pub fn error_event(error: &TableError) -> Event
    ensures { result ≡ spec.error_event error.now }
{
    Event::TableFault(FaultKind::TableRepetition, fault_of(error))
}

#[tactic(auto, unfolding(crate::specs::TableEvents::soon_events))]
fn push_soon_if(events: &mut Vec<Event>, error: &Option<TableError>) -> Result<(), AllocError>
    ensures { OnOk result (events.new.items ≡ events.old.items ++ spec.soon_events error.now) }
{
    if let Some(error) = error {
        let kind = FaultKind::SectionDistance;
        events.push(Event::TableFault(kind, fault_of(error)))?;
    }
    Ok(())
}

// Appends a whole section of a table that does not belong on its PID.
#[tactic(auto, unfolding(crate::specs::TableEvents::other_events))]
fn push_other_if(events: &mut Vec<Event>, section: &Option<WholeSection>) -> Result<(), AllocError>
    ensures { OnOk result (events.new.items ≡ events.old.items ++ spec.other_events section.now) }
{
    let Some(section) = section else {
        return Ok(());
    };
    let begin = section.begin;
    if !belongs(begin.pid, begin.table_id) {
        events.push(Event::Rule(RuleEvent::OtherTable(OtherTable {
            pid: begin.pid,
            table: begin.table_id,
            packet: begin.packet,
        })))?;
    }
    Ok(())
}

#[tactic(auto, unfolding(crate::specs::TableEvents::error_events))]
fn push_error_if(events: &mut Vec<Event>, error: &Option<TableError>) -> Result<(), AllocError>
    ensures { OnOk result (events.new.items ≡ events.old.items ++ spec.error_events error.now) }
{
    if let Some(error) = error {
        events.push(error_event(error))?;
    }
    Ok(())
}

#[tactic(auto, unfolding(crate::specs::TableEvents::more_errors))]
fn more_errors(errors: u64, error: &Option<TableError>) -> u64
    ensures { result ≡ spec.more_errors errors error.now }
{
    match error {
        None => errors,
        Some(_) => errors.saturating_add(1),
    }
}

// Takes a section with its place in time.
#[tactic(auto, unfolding(crate::specs::TableEvents::placed))]
fn placed(arrival: &Arrival, section: SectionBegin) -> Option<SectionBegin>
    ensures { result ≡ spec.placed arrival.now section }
{
    match arrival {
        Arrival::Unknown => None,
        Arrival::AtRate(_) => Some(section),
        Arrival::OnLines(lines) => Some(SectionBegin {
            place: lines.moment(first_byte(section.packet)),
            ..section
        }),
    }
}

// Takes a whole section with its places in time.
#[tactic(auto, unfolding(crate::specs::TableEvents::placed_whole))]
fn placed_whole(arrival: &Arrival, section: WholeSection) -> Option<WholeSection>
    ensures { result ≡ spec.placed_whole arrival.now section }
{
    match arrival {
        Arrival::Unknown => None,
        Arrival::AtRate(_) => Some(section),
        Arrival::OnLines(lines) => Some(WholeSection {
            begin: SectionBegin {
                place: lines.moment(first_byte(section.begin.packet)),
                ..section.begin
            },
            extension: section.extension,
            end: lines.moment(first_byte(section.end)),
        }),
    }
}

#[tactic(auto, unfolding(crate::specs::TableEvents::placed_if))]
fn placed_if(arrival: &Arrival, section: Option<WholeSection>) -> Option<WholeSection>
    ensures { result ≡ spec.placed_if arrival.now section }
{
    match section {
        None => None,
        Some(section) => placed_whole(arrival, section),
    }
}

// Returns the section of a finding, if it counts.
fn section_in(options: &ViewOptions, finding: &Finding<'_>) -> Option<SectionBegin>
    ensures { result ≡ spec.section_in options.now (finding_view finding.now) }
{
    let section = section_begin(finding)?;
    placed(&options.arrival, section)
}

impl TableTimes {
    /// Returns the state before the first section.
    pub fn new(alloc: Global, timing: TableTiming) -> TableTimes
        ensures { result ≡ spec.no_times timing }
    {
        let intervals = TableIntervals::new(alloc, timing);
        let distances = SectionDistances::new(alloc, intervals.timing());
        TableTimes {
            intervals,
            distances,
            errors: 0,
        }
    }

    /// Returns where the sections of each table begin.
    pub fn intervals(&self) -> &TableIntervals<Global>
        ensures { result.now ≡ self.now.intervals }
    {
        &self.intervals
    }

    // Takes a whole section with its places.
    #[tactic(auto, unfolding(crate::specs::TableEvents::distances_after, crate::specs::TableEvents::distance_events))]
    fn take_whole(
        &mut self,
        section: &Option<WholeSection>,
        events: &mut Vec<Event>,
    ) -> Result<(), AllocError>
        ensures times { OnOk result (self.new ≡ spec.with_whole self.old section.now) }
        ensures found { OnOk result (events.new.items
            ≡ events.old.items ++ spec.distance_events self.old.distances section.now) }
    {
        match section {
            None => Ok(()),
            Some(section) => {
                let error = self.distances.take(section)?;
                push_soon_if(events, &error)
            }
        }
    }

    #[tactic(auto, unfolding(crate::specs::TableEvents::begin_events))]
    fn take_section(
        &mut self,
        section: SectionBegin,
        events: &mut Vec<Event>,
    ) -> Result<(), AllocError>
        ensures times { OnOk result (self.new ≡ spec.with_section self.old section) }
        ensures found { OnOk result (events.new.items
            ≡ events.old.items ++ spec.begin_events self.old (Some section)) }
    {
        let error = self.intervals.take(section)?;
        push_error_if(events, &error)?;
        self.errors = more_errors(self.errors, &error);
        Ok(())
    }

    #[tactic(auto, unfolding(crate::specs::TableEvents::with_begin, crate::specs::TableEvents::begin_events))]
    fn take(
        &mut self,
        options: &ViewOptions,
        finding: &Finding<'_>,
        events: &mut Vec<Event>,
    ) -> Result<(), AllocError>
        ensures times { OnOk result (self.new ≡ spec.with_finding options.now self.old (finding_view finding.now)) }
        ensures found { OnOk result (events.new.items
            ≡ events.old.items ++ spec.finding_events options.now self.old (finding_view finding.now)) }
    {
        push_check_word_if(events, finding)?;
        self.errors = self.errors.saturating_add(u64::from(is_bad(finding)));
        let whole = whole_section(finding);
        push_other_if(events, &whole)?;
        self.take_whole(&placed_if(&options.arrival, whole), events)?;
        match section_in(options, finding) {
            None => Ok(()),
            Some(section) => self.take_section(section, events),
        }
    }

    /// Takes findings, and appends sections that are late or wrong.
    pub fn take_all(
        &mut self,
        options: &ViewOptions,
        findings: &[Finding<'_>],
        events: &mut Vec<Event>,
    ) -> Result<(), AllocError>
        ensures times { OnOk result (self.new
            ≡ spec.with_findings options.now self.old (map finding_view findings.now)) }
        ensures found { OnOk result (events.new.items
            ≡ events.old.items ++ spec.findings_events options.now self.old (map finding_view findings.now)) }
    {
        for finding in findings {
            self.take(options, finding, events)?;
        }
        Ok(())
    }
}

// Takes the findings of a packet: their sections, and what these name.
fn take_found(
    options: &ViewOptions,
    findings: &[Finding<'_>],
    times: &mut TableTimes,
    named: &mut TableNames,
    events: &mut Vec<Event>,
) -> Result<(), AllocError>
    ensures times { OnOk result (times.new
        ≡ spec.with_findings options.now times.old (map finding_view findings.now)) }
    ensures named { OnOk result (named.new ≡ with_each named.old (map finding_view findings.now)) }
    ensures found { OnOk result (events.new.items
        ≡ events.old.items ++ spec.findings_events options.now times.old (map finding_view findings.now)) }
{
    named.take_each(findings)?;
    times.take_all(options, findings, events)
}

fn table_event(timing: TableTiming, key: u32, places: &SectionPlaces) -> Event
    ensures { result ≡ spec.table_event timing (key, places.now) }
{
    let pid = (pid_of(key) % 65536) as u16;
    let table = table_id_of(key);
    Event::Table(TableTotals {
        pid,
        table,
        sections: places.sections,
        interval: time_between(timing, places.greatest),
        packet: places.at,
        limit: limit_of(pid, table).unwrap_or(0),
    })
}

impl TableWatch {
    /// Returns the state before the first packet.
    pub fn new(alloc: Global, timing: TableTiming) -> TableWatch
        ensures { result ≡ spec.no_tables timing }
    {
        TableWatch {
            alloc,
            demux: HeaderDemux::new(alloc),
            times: TableTimes::new(alloc, timing),
            named: TableNames::new(alloc),
        }
    }

    /// Returns the demultiplexer of the tables.
    pub fn demux(&self) -> &HeaderDemux
        ensures { result.now ≡ self.now.demux }
    {
        &self.demux
    }

    /// Returns the sections so far.
    pub fn times(&self) -> &TableTimes
        ensures { result.now ≡ self.now.times }
    {
        &self.times
    }

    /// Takes the next packet, which was read, and appends sections that are late or wrong, once these are found.
    pub fn take<'a>(
        &mut self,
        options: &ViewOptions,
        bytes: &'a [u8; 188],
        read: &Result<Packet<'a>, PacketError>,
        events: &mut Vec<Event>,
    ) -> Result<(), AllocError>
        requires { Gives packet_view read.now (packet_at bytes.now) }
        ensures tables { OnOk result (self.new ≡ spec.with_packet options.now self.old bytes.now) }
        ensures found { OnOk result (events.new.items
            ≡ events.old.items ++ spec.packet_events options.now self.old bytes.now) }
    {
        let mut found = Vec::new(self.alloc);
        let Ok(()) = self.demux.take_read(bytes, read, &mut found) else {
            // It describes no stream any more.
            self.demux = HeaderDemux::new(self.alloc);
            return Err(AllocError);
        };
        take_found(
            options,
            found.as_slice(),
            &mut self.times,
            &mut self.named,
            events,
        )
    }

    /// Takes the null packet: no section begins in it.
    pub fn pass_null(&mut self)
        ensures tables { (options : ViewOptions) → self.new ≡ spec.with_packet options self.old null_packet }
        ensures found { (options : ViewOptions) → spec.packet_events options self.old null_packet ≡ [] }
    {
        self.demux.skip();
    }

    /// Returns whether no section began too late or has a wrong check word.
    pub fn is_good(&self) -> bool
        ensures { result ≡ (self.now.times.errors == 0) }
    {
        self.times.errors == 0
    }

    /// Returns whether sections of a table_id are on a PID.
    pub fn has_table(&self, pid: u16, table_id: u8) -> bool
        ensures { result ≡ spec.has_table self.now pid table_id }
    {
        self.times
            .intervals
            .entries()
            .get(&key_of(pid, table_id))
            .is_some()
    }

    /// Returns whether a whole PMT of a program came on a PID.
    pub fn has_map(&self, pid: u16, number: u16) -> bool
        ensures { result ≡ spec.has_map self.now pid number }
    {
        self.times.intervals.has_part(pid, 0x02, number)
    }

    /// Returns what the sections of PAT, CAT and PMT name.
    pub fn names(&self) -> &TableNames
        ensures { result.now ≡ self.now.named }
    {
        &self.named
    }

    /// Appends what the sections of each table came to.
    pub fn push_end(&self, events: &mut Vec<Event>) -> Result<(), AllocError>
        ensures { OnOk result (events.new.items ≡ events.old.items ++ spec.table_events self.now) }
    {
        let intervals = &self.times.intervals;
        for (key, places) in intervals.entries() {
            events.push(table_event(intervals.timing(), *key, places))?;
        }
        Ok(())
    }
}
