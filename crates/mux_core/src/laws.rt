//! Laws of the definitions. Each function does nothing: its contract is the law.

ghost use Rattle.slot_plan.specs.Promised.{Promised};
ghost use Rattle.mux_core.specs.Headline.{HeadlineLaw, AnyStateLaw};
ghost use Rattle.mux_core.specs.MeasuredRuns.{MeasuredLaw, MeasurableLaw};
ghost use Rattle.mux_core.specs.Decoder.{PutLaw};
ghost use Rattle.mux_core.specs.DecodedRuns.{DecodedLaw};
ghost use Rattle.mux_core.specs.Events.{WrittenStays, OrderIsFree};
ghost use Rattle.mux_core.specs.TextLaws.{OthersUntouchedLaw, SameTableLaw, WholeSectionsLaw, VersionLaw, EventVersionLaw};
ghost use Rattle.mux_core.specs.WholeJobs.{RoomForAll};
ghost use Rattle.mux_core.specs.TimingLaws.{UnitsArrive, TransportFits, MainFits, SystemFits, PcrsRecur, SectionsRecur};
ghost use Rattle.mux_core.specs.TimingLaws.{OfPlan, OfSwitch};

pub use crate::driving::{Event, drive};

/// States that over a plan whose conditions hold, each unit that is due has left its transport buffer whole by its
/// decoding time.
pub fn deadlines()
    ensures { OfPlan UnitsArrive }
{
    slot_plan::timing_laws::accepted_plan();
}

/// States that over such a plan no transport buffer of a stream holds more than 512 bytes.
pub fn transport()
    ensures { OfPlan TransportFits }
{
    slot_plan::timing_laws::accepted_plan();
}

/// States that over such a plan no main buffer holds more than its size.
pub fn main_buffer()
    ensures { OfPlan MainFits }
{
    slot_plan::timing_laws::accepted_plan();
}

/// States that over such a plan neither of a program's two buffers in tandem, transport buffer and system buffer,
/// overflows.
pub fn tandem()
    ensures { OfPlan SystemFits }
{
    slot_plan::timing_laws::accepted_plan();
}

/// States that over such a plan PCRs and sections recur within their limits, round each period's end.
pub fn gaps()
    ensures pcrs { OfPlan PcrsRecur }
    ensures sections { OfPlan SectionsRecur }
{
    slot_plan::timing_laws::accepted_plan();
}

/// States that a plan whose conditions hold over one period keeps all of these promises for all time, and so do two
/// plans in turn.
pub fn all_time()
    ensures plan { OfPlan Promised }
    ensures switch { OfSwitch Promised }
{
    slot_plan::timing_laws::accepted_plan();
    slot_plan::timing_laws::accepted_switch();
}

/// States that over two plans in turn PCRs and sections recur within their limits, across the switch too.
pub fn switch_gaps()
    ensures pcrs { OfSwitch PcrsRecur }
    ensures sections { OfSwitch SectionsRecur }
{
    slot_plan::timing_laws::accepted_switch();
}

/// States that over two plans in turn the work that the first leaves finds room in the second: no transport buffer and
/// no system buffer overflows.
pub fn switch_work()
    ensures streams { OfSwitch TransportFits }
    ensures programs { OfSwitch SystemFits }
{
    slot_plan::timing_laws::accepted_switch();
}

/// States that over two plans in turn each unit that is due has left its transport buffer whole by its decoding time.
pub fn switch_deadlines()
    ensures { OfSwitch UnitsArrive }
{
    slot_plan::timing_laws::accepted_switch();
}

/// States that over two plans in turn no main buffer holds more than its size.
pub fn switch_main()
    ensures { OfSwitch MainFits }
{
    slot_plan::timing_laws::accepted_switch();
}

/// States that the finished bytes of a run keep every promise, if the schedule keeps the conditions and each stream's
/// units are within its declaration; and that each history that a multiplexer represents does so.
pub fn headline()
    ensures whole { HeadlineLaw }
    ensures any_state { AnyStateLaw }
{}

/// States that `tstd::measure` finds, in bytes that keep every promise, no late unit and no buffer over its size.
pub fn measured()
    ensures { MeasuredLaw }
{}

/// States that `tstd::measure` does not refuse such bytes, if each unit names a stream and has from one byte to its
/// greatest size.
pub fn measurable()
    ensures { MeasurableLaw }
{}

/// States that a decoder of such bytes, whoever wrote them, by ISO/IEC 13818-1 reads a packet in the clear in each slot,
/// finds no counter that breaks, gets the clock of each program and each section of a table within their limits, and
/// puts together each unit that is due in the run, whole, with its DTS, and by its DTS.
pub fn decoded()
    ensures put { PutLaw }
    ensures decoded { DecodedLaw }
{}

/// States that what was written stays, whatever units and slots follow.
pub fn written_stays()
    ensures { WrittenStays }
{}

/// States that two lists of events after which the units of each stream and the number of slots are the same give the
/// same bytes.
pub fn order_is_free()
    ensures { OrderIsFree }
{}

/// States that a whole job takes room for as many units of a stream as it has. That room is enough: its units are
/// refused just where 1,048,576 of each stream may wait.
pub fn room_for_all()
    ensures { RoomForAll }
{}

/// States that texts that change leave each packet of a stream and each clock reference as it is, and each table whose
/// sections stay; that each section of the texts in force has places for all its parts; and that two sections of one
/// number that show one version are the same bytes.
pub fn texts()
    ensures others { OthersUntouchedLaw }
    ensures same { SameTableLaw }
    ensures whole { WholeSectionsLaw }
    ensures versions { VersionLaw }
    ensures events { EventVersionLaw }
{}
