//! The packet of a slot of each kind, written over the bytes of a packet.

ghost use Rattle.std.specs.Prelude.{◌≡◌, ◌<◌, ◌^◌, slice_get};
ghost use Rattle.slot_contents.specs.Contents.{PcrContent, NullContent, packet_of};
ghost use Rattle.description_parts.specs.Ranges.{IsInRange};
ghost use Rattle.slot_plan.specs.SlotPids.{slot_pid};
ghost use Rattle.slot_plan.specs.declared.slot.Slot.TheVariants.{Pcr as PcrSlot};
ghost use Rattle.mux_core.specs.Histories.{pcr_content};
ghost use Rattle.mux_core.specs.SlotSteps.{section_bytes, queue_sends, queues_after, carousel_sends, carousels_after, sent_after, texts_in};

use crate::described_sections::DescribedSections;
use crate::texts_in_force::TextsInForce;
use clock27::Pcr;
use slot_plan::Description;
use std::alloc::Allocator;
use table_rounds::TableCarousel;
use ts_packet::{write_null_packet_into, write_pcr_into};
use unit_queue::UnitQueue;

/// Writes the next packet of a stream, from its queue.
#[tactic(auto, unfolding(crate::specs::SlotSteps::queue_sends, crate::specs::SlotSteps::queues_after))]
pub(crate) fn write_stream<A: Allocator>(
    queues: &mut Vec<UnitQueue<A>, A>,
    k: u8,
    slot: u64,
    packet: &mut [u8; 188],
)
    ensures packet { packet.new ≡ packet_of (queue_sends slot (slice_get queues.old.items k)) }
    ensures queues { queues.new.items ≡ queues_after slot queues.old.items k (slice_get queues.old.items k) }
{
    let Some(queue) = queues.get_mut(k as usize) else {
        return write_null(packet);
    };
    queue.write_next(slot, packet);
}

// Returns the moment of slot 0, by a description.
fn start_of(description: &Description) -> u32
    ensures { result ≡ description.now.start }
{
    description.keeps_ranges();
    description.start() as u32
}

/// Writes the next packet of a table, from its carousel. It stays a call of its own: otherwise every slot would
/// prepare the stack that a section's text needs.
#[inline(never)]
#[tactic(auto, unfolding(crate::specs::SlotSteps::carousel_sends, crate::specs::SlotSteps::carousels_after, crate::specs::SlotSteps::sent_after))]
pub(crate) fn write_table<A: Allocator>(
    carousels: &mut Vec<TableCarousel, A>,
    texts: &mut TextsInForce,
    description: &Description,
    t: u8,
    slot: u64,
    packet: &mut [u8; 188],
)
    requires { slot < 2 ^ 40 }
    ensures packet { packet.new ≡ packet_of
        (carousel_sends (section_bytes (texts_in texts.old.changed description.now) t)
        (texts_in texts.old.changed description.now).start slot (slice_get carousels.old.items t)) }
    ensures carousels { carousels.new.items ≡ carousels_after
        (section_bytes (texts_in texts.old.changed description.now) t)
        (texts_in texts.old.changed description.now).start slot carousels.old.items t
        (slice_get carousels.old.items t) }
    ensures sent { texts.new.sent ≡ sent_after (texts_in texts.old.changed description.now) t
        texts.old.sent (slice_get carousels.old.items t) }
    ensures texts { texts.new.changed ≡ texts.old.changed }
{
    let Some(carousel) = carousels.get_mut(t as usize) else {
        return write_null(packet);
    };
    texts.mark(description, t as usize, carousel.next_section());
    let description = texts.texts(description);
    let sections = DescribedSections {
        description,
        table: t as usize,
    };
    carousel.write_next(&sections, start_of(description), slot, packet);
}

/// Writes the clock reference of a program: the time of byte 10 of the packet (ISO/IEC 13818-1, 2.4.3.5). Writes the
/// null packet if the program has no clock references, or those of another one.
#[tactic(auto, unfolding(crate::specs::Histories::pcr_content, slot_plan::specs::SlotPids::slot_pid))]
pub(crate) fn write_program_pcr(description: &Description, p: u8, slot: u64, packet: &mut [u8; 188])
    requires ranges { IsInRange description.now }
    requires slot { slot < 2 ^ 40 }
    ensures { packet.new ≡ packet_of (pcr_content description.now slot (slot_pid description.now (PcrSlot p))) }
{
    if !description.has_references(p as usize) {
        return write_null(packet);
    }
    let Some(program) = description.programs().get(p as usize) else {
        return write_null(packet);
    };
    let pcr = Pcr::at(description.rate(), description.base0(), 188 * slot + 10);
    write_pcr(packet, program.pcr_pid(), pcr);
}

#[tactic(auto, unfolding(slot_contents::specs::Contents::packet_of))]
fn write_pcr(packet: &mut [u8; 188], pid: u16, pcr: Pcr)
    requires { pid < 2 ^ 13 }
    ensures { packet.new ≡ packet_of (PcrContent pid pcr) }
{
    write_pcr_into(packet, pid, pcr);
}

/// Writes the null packet.
#[tactic(auto, unfolding(slot_contents::specs::Contents::packet_of))]
pub(crate) fn write_null(packet: &mut [u8; 188])
    ensures { packet.new ≡ packet_of NullContent }
{
    write_null_packet_into(packet);
}
