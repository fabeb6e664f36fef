//! Tables, written and read.

use crate::tests::wire::psi::are_written;
use crate::tests::wire::sections::SINGLE;
use crate::tests::wire::vectors::{EIT, EMPTY_EIT, NIT, SDT, STATION_SDT, TDT};
use arrayvec::ArrayVec;
use dvb_tables::{
    EitPf, EventEntry, EventLoop, Nit, RunningStatus, Sdt, Service, ServiceLoop, Tdt,
    TransportStream, TransportStreamLoop, duration_digits, utc_time,
};
use psi_tables::{LongHeader, Section};
use std::alloc::Global;

/// Returns the section of these bytes, which are one.
fn section(bytes: &[u8]) -> Option<Section<'_>> {
    match Section::read(bytes) {
        Ok((section, _)) => Some(section),
        Err(_) => None,
    }
}

const NETWORK_NAME: &[u8] = b"\x40\x03Net";

/// Transport stream 1 of network 1.
const STREAM: TransportStream<'static> = TransportStream {
    transport_stream_id: 1,
    original_network_id: 1,
    descriptors: &[],
};

/// Returns whether both writers of the network's NIT give its bytes.
fn is_nit_written(alloc: Global) -> bool {
    let mut streams = TransportStreamLoop::new();
    let pushed = streams.push(&STREAM);
    let nit = Nit {
        header: SINGLE,
        network_descriptors: NETWORK_NAME,
        transport_streams: streams.transport_streams(),
    };
    let mut out = ArrayVec::new();
    let answers = [pushed, nit.write_to(&mut out)];
    answers == [Ok(()); 2]
        && are_written(&out, nit.write(alloc), NIT)
        && nit.transport_streams.byte_length() == 6
}

/// Returns whether the NIT is read as it was written.
fn is_network(bytes: &[u8]) -> Option<bool> {
    let section = section(bytes)?;
    let nit = Nit::read(&section).ok()?;
    let mut left = nit.transport_streams;
    let first = left.next()?;
    let answers = [
        nit.header == SINGLE,
        nit.network_descriptors == NETWORK_NAME,
        first.transport_stream_id == 1,
        first.original_network_id == 1,
        first.descriptors.is_empty(),
        left.next().is_none(),
    ];
    Some(answers == [true; 6])
}

#[test]
fn network_information(rt: HostRuntime) {
    assert!(rt; is_nit_written(rt.alloc()));
    assert!(rt; is_network(NIT) == Some(true));
}

/// A radio service.
const RADIO: Service<'static> = Service {
    service_id: 1,
    eit_schedule: false,
    eit_present_following: true,
    running_status: RunningStatus::Running,
    free_ca_mode: false,
    descriptors: b"\x48\x06\x02\x00\x03One",
};

/// Returns whether both writers of its SDT give its bytes.
fn is_sdt_written(alloc: Global) -> bool {
    let mut services = ServiceLoop::new();
    let pushed = services.push(&RADIO);
    let sdt = Sdt {
        header: SINGLE,
        original_network_id: 1,
        services: services.services(),
    };
    let mut out = ArrayVec::new();
    let answers = [pushed, sdt.write_to(&mut out)];
    answers == [Ok(()); 2]
        && are_written(&out, sdt.write(alloc), SDT)
        && sdt.services.byte_length() == 13
}

/// Returns whether a service is read as ffmpeg's.
fn is_station(service: &Service<'_>) -> bool {
    [
        service.service_id == 3,
        !service.eit_schedule,
        !service.eit_present_following,
        service.running_status == RunningStatus::Running,
        !service.free_ca_mode,
        service.descriptors == b"\x48\x0d\x01\x07Station\x03One".as_slice(),
    ] == [true; 6]
}

/// Returns whether ffmpeg's service is the only one in its SDT; none if the SDT is not read.
fn has_station(bytes: &[u8]) -> Option<bool> {
    let section = section(bytes)?;
    let sdt = Sdt::read(&section).ok()?;
    let mut left = sdt.services;
    let first = left.next()?;
    let answers = [
        sdt.header == LongHeader::single(7, 0),
        sdt.original_network_id == 9,
        is_station(&first),
        left.next().is_none(),
    ];
    Some(answers == [true; 4])
}

#[test]
fn service_description(rt: HostRuntime) {
    assert!(rt; is_sdt_written(rt.alloc()));
    assert!(rt; has_station(STATION_SDT) == Some(true));
}

/// The header of the present and following table of service 1.
const PRESENT: LongHeader = LongHeader {
    table_id_extension: 1,
    version_number: 1,
    current_next: true,
    section_number: 0,
    last_section_number: 1,
};

const FOLLOWING: LongHeader = LongHeader {
    section_number: 1,
    ..PRESENT
};

const NEWS: &[u8] = b"\x4d\x09eng\x04News\x00";

/// Returns the news, in 23 bytes.
fn news() -> EventLoop {
    let mut events = EventLoop::new();
    let _ = events.push(&EventEntry {
        event_id: 7,
        start_time: utc_time(750_516_300),
        duration: duration_digits(5_400),
        running_status: RunningStatus::Running,
        free_ca_mode: false,
        descriptors: NEWS,
    });
    events
}

/// Returns whether both writers of a section of the table over this loop give these bytes.
fn is_eit_written(alloc: Global, is_following: bool, events: EventLoop, wanted: &[u8]) -> bool {
    let eit = EitPf {
        header: if is_following { FOLLOWING } else { PRESENT },
        transport_stream_id: 1,
        original_network_id: 1,
        segment_last_section_number: 1,
        last_table_id: 0x4e,
        events,
    };
    let mut out = ArrayVec::new();
    eit.write_to(&mut out).is_ok() && are_written(&out, eit.write(alloc), wanted)
}

/// Returns whether the news alone is read of it.
fn has_news(bytes: &[u8]) -> Option<bool> {
    let section = section(bytes)?;
    let eit = EitPf::read(&section).ok()?;
    let mut left = eit.events();
    let first = left.next()?;
    let answers = [
        eit.header == PRESENT,
        eit.events.byte_length() == 23,
        first.event_id == 7,
        first.start_time == *b"\xc0\x79\x12\x45\x00",
        first.duration == *b"\x01\x30\x00",
        first.running_status == RunningStatus::Running,
        first.descriptors == NEWS,
        left.next().is_none(),
    ];
    Some(answers == [true; 8])
}

#[test]
fn event_information(rt: HostRuntime) {
    assert!(rt; is_eit_written(rt.alloc(), false, news(), EIT));
    assert!(rt; is_eit_written(rt.alloc(), true, EventLoop::new(), EMPTY_EIT));
    assert!(rt; has_news(EIT) == Some(true));
}

/// Returns whether both writers give the TDT, and it is read as it was written.
fn is_tdt_written(alloc: Global) -> bool {
    let tdt = Tdt {
        utc_time: utc_time(750_516_300),
    };
    let mut out = ArrayVec::new();
    let answer = tdt.write_to(&mut out);
    let read = match section(TDT) {
        Some(section) => Tdt::read(&section),
        None => return false,
    };
    answer.is_ok() && read == Ok(tdt) && are_written(&out, tdt.write(alloc), TDT)
}

#[test]
fn time_and_date(rt: HostRuntime) {
    assert!(rt; is_tdt_written(rt.alloc()));
}
