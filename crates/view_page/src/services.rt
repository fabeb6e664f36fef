//! The bit rates of programs, as the lines of windows come.
ghost use Rattle.std.specs.Prelude.{◌≡◌, ◌==◌, OnOk, nat_eq, unwrap_or};
ghost use Rattle.std.specs.Map.{lookup};
ghost use Rattle.view_page.specs.Services as spec;
ghost use Rattle.view_page.specs.Services.{AreServiceCurves, AreServices, KeptServiceCurves, KeptServices};

use events::{Event, PidName, WindowFigures};
use indexmap::IndexMap;
use page_curves::PidCurves;
use std::alloc::{AllocError, Global};
use std::hash::{BuildHasherDefault, FoldHasher};
use view_rows::short;

/// The bit rate of a program in the last window with a packet of it.
#[derive(Clone, Copy)]
pub struct ProgramRate {
    pub number: u64,
    pub rate: u64,
}

/// The rates of programs, in the order of the first line of each.
pub type ProgramRates = IndexMap<u16, ProgramRate, BuildHasherDefault<FoldHasher>, Global>;

/// Curves by the number of a program: its bit rate by window, and its rate with the rates of all programs after it.
#[derive(Drop)]
pub struct ServiceCurves {
    pub rates: PidCurves,
    pub sums: PidCurves,
}

/// The window of the last line, the rates of programs in it, and their curves in all windows before it. Program 0 has
/// the PIDs of no program.
///
/// After an `AllocError` it describes no stream: drop it.
#[derive(Drop)]
pub struct Services {
    pub number: u64,
    pub programs: ProgramRates,
    pub curves: ServiceCurves,
}

// The rate in a window; 0 if it is of another one.
#[tactic(auto, unfolding(crate::specs::Services::rate_in))]
fn rate_in(number: u64, rate: Option<ProgramRate>) -> u64
    ensures { result ≡ spec.rate_in number rate }
{
    match rate {
        None => 0,
        Some(known) => {
            if known.number == number {
                known.rate
            } else {
                0
            }
        }
    }
}

// The program of a PID; 0 is none.
fn program_of(window: &WindowFigures) -> u16
    ensures { result ≡ unwrap_or window.now.program 0 }
{
    window.program.unwrap_or(0)
}

fn number_of(window: &WindowFigures) -> u64
    ensures { result ≡ window.now.number }
{
    window.number
}

// The rate of a program in a window so far.
fn rate_before(programs: &ProgramRates, number: u64, program: u16) -> u64
    ensures { result ≡ spec.rate_in number (lookup (nat_eq program) programs.now.entries) }
{
    rate_in(number, programs.get(&program).copied())
}

// The rate of the program of a PID, the rate of the PID added.
fn rate_after(programs: &ProgramRates, window: &WindowFigures) -> ProgramRate
    ensures { result ≡ spec.rate_after programs.now.entries window.now }
{
    let before = rate_before(programs, window.number, program_of(window));
    ProgramRate {
        number: window.number,
        rate: before.saturating_add(short(window.rate)),
    }
}

// The rate of a PID in a window.
fn take_rate(programs: &mut ProgramRates, window: &WindowFigures) -> Result<(), AllocError>
    ensures { OnOk result (programs.new.entries ≡ spec.programs_after programs.old.entries window.now) }
{
    let rate = rate_after(programs, window);
    programs.insert(program_of(window), rate)?;
    Ok(())
}

impl ServiceCurves {
    // The rate of a program in a window, and the sum of this rate and all rates after it.
    fn take(&mut self, number: u64, program: u16, rate: u64, sum: u64) -> Result<(), AllocError>
        ensures { (kept : KeptServiceCurves) → AreServiceCurves self.old kept →
            OnOk result (AreServiceCurves self.new (spec.with_program number program rate sum kept)) }
    {
        self.rates.open(program, PidName::Other, 0)?;
        self.rates.take(program, number, rate)?;
        self.sums.open(program, PidName::Other, 0)?;
        self.sums.take(program, number, sum)
    }
}

// The sum of all rates in a window.
fn total_in(programs: &ProgramRates, number: u64) -> u64
    ensures { result ≡ spec.total_from number 0 programs.now.entries }
{
    let mut sum: u64 = 0;
    for (program, known) in programs {
        sum = sum.saturating_add(rate_in(number, Some(*known)));
    }
    sum
}

// The rates of all programs in a window that has ended.
fn settle(
    programs: &ProgramRates,
    number: u64,
    curves: &mut ServiceCurves,
) -> Result<(), AllocError>
    ensures { (kept : KeptServiceCurves) → AreServiceCurves curves.old kept →
        OnOk result (AreServiceCurves curves.new (spec.settled_all number programs.now.entries kept)) }
{
    let mut left = total_in(programs, number);
    for (program, known) in programs {
        let rate = rate_in(number, Some(*known));
        curves.take(number, *program, rate, left)?;
        left = left.saturating_sub(rate);
    }
    Ok(())
}

impl Services {
    /// Returns the state before the first line.
    pub fn new(alloc: Global) -> Services
        ensures { AreServices result spec.no_services }
    {
        Services {
            number: 0,
            programs: IndexMap::new(alloc),
            curves: ServiceCurves {
                rates: PidCurves::new(alloc),
                sums: PidCurves::new(alloc),
            },
        }
    }

    // Ends the window of the last line.
    fn end_window(&mut self) -> Result<(), AllocError>
        ensures { (kept : KeptServices) → AreServices self.old kept →
            OnOk result (AreServices self.new (spec.ended kept)) }
    {
        settle(&self.programs, self.number, &mut self.curves)
    }

    // Whether the last line was of a window.
    fn is_now(&self, number: u64) -> bool
        ensures { (kept : KeptServices) → AreServices self.now kept → result ≡ (number == kept.number) }
    {
        number == self.number
    }

    // Ends the window of the last line, unless it is this one.
    fn end_other(&mut self, number: u64) -> Result<(), AllocError>
        ensures { (kept : KeptServices) → AreServices self.old kept →
            OnOk result (AreServices self.new (spec.ended_unless number kept)) }
    {
        if self.is_now(number) {
            return Ok(());
        }
        self.end_window()
    }

    // The rate of a PID in this window.
    fn add(&mut self, window: &WindowFigures) -> Result<(), AllocError>
        ensures { (kept : KeptServices) → AreServices self.old kept →
            OnOk result (AreServices self.new (spec.with_rate kept window.now)) }
    {
        take_rate(&mut self.programs, window)?;
        let number = number_of(window);
        self.number = number;
        Ok(())
    }

    // The line of a PID in a window.
    fn take_line(&mut self, window: &WindowFigures) -> Result<(), AllocError>
        ensures { (kept : KeptServices) → AreServices self.old kept →
            OnOk result (AreServices self.new (spec.with_line kept window.now)) }
    {
        let number = number_of(window);
        self.end_other(number)?;
        self.add(window)
    }

    /// Takes an event.
    #[tactic(auto, unfolding(crate::specs::Services::with_event))]
    pub fn take(&mut self, event: &Event) -> Result<(), AllocError>
        ensures { (kept : KeptServices) → AreServices self.old kept →
            OnOk result (AreServices self.new (spec.with_event kept event.now)) }
    {
        match event {
            Event::Window(window) => self.take_line(window),
            Event::End(_) => self.end_window(),
            _ => Ok(()),
        }
    }
}
