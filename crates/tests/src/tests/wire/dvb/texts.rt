//! Texts, events and the descriptors that have them.
ghost use Rattle.std.specs.Prelude.{◌<◌};

use arrayvec::ArrayVec;
use dvb_tables::{
    Event, Text, TextError, present_following, push_iso_639_language, push_network_name,
    push_service, push_short_event, push_stream_identifier,
};

/// Letters, and their bytes: in the default table, in UTF-8, for a dash.
static CODED: [(&str, &[u8]); 4] = [
    ("", b""),
    ("Ab 9", b"Ab 9"),
    ("f\u{ea}", b"\x15f\xc3\xaa"),
    ("A-B", b"\x15A-B"),
];

/// Returns whether these letters are coded so.
fn is_coded(letters: &str, wanted: &[u8]) -> bool {
    match Text::<4>::new(letters) {
        Ok(text) => text.as_bytes() == wanted,
        Err(_) => false,
    }
}

/// Returns the number of the refusal of letters for three bytes.
fn refusal(letters: &str) -> u8 {
    match Text::<3>::new(letters) {
        Ok(_) => 0,
        Err(refusal) => refusal.code(),
    }
}

#[test]
fn texts(rt: HostRuntime) {
    for (letters, wanted) in &CODED {
        assert!(rt; is_coded(letters, wanted));
    }
    assert!(rt; [refusal("New"), refusal("News"), refusal("A-B")] == [0, 1, 1]);
    assert!(rt; Text::<0>::new("").is_ok());
}

/// Returns an event of the name "News" at this time.
fn news(start: u64, duration: u32) -> Result<Event, TextError>
    requires { duration < 360_000 }
{
    Ok(Event {
        id: 7,
        start,
        duration,
        language: *b"eng",
        name: Text::new("News")?,
        text: Text::new("")?,
    })
}

/// Moments, with the present and the following of three events.
static MOMENTS: [(u64, Option<usize>, Option<usize>); 7] = [
    (99, None, Some(0)),
    (100, Some(0), Some(1)),
    (149, Some(0), Some(1)),
    (150, Some(1), Some(2)),
    (160, None, Some(2)),
    (209, Some(2), None),
    (210, None, None),
];

#[test]
fn present_and_following_events(rt: HostRuntime) -> Result<(), TextError> {
    let events = [news(100, 50)?, news(150, 10)?, news(200, 10)?];
    for (moment, present, following) in &MOMENTS {
        assert!(rt; present_following(&events, *moment) == (*present, *following));
    }
    Ok(())
}

/// Returns whether a language is written so, and a stream's tag.
fn are_tags_pushed() -> bool {
    let mut language = ArrayVec::<u8, 300>::new();
    let mut tag = ArrayVec::<u8, 300>::new();
    push_iso_639_language(&mut language, *b"eng", 0);
    push_stream_identifier(&mut tag, 5);
    [language.as_slice(), tag.as_slice()]
        == [b"\x0a\x04eng\x00".as_slice(), b"\x52\x01\x05".as_slice()]
}

/// Returns the descriptor of an event.
fn is_event_pushed() -> Result<bool, TextError> {
    let event = news(100, 50)?;
    let _name = event.name.as_bytes();
    let _text = event.text.as_bytes();
    let mut out = ArrayVec::<u8, 300>::new();
    push_short_event(&mut out, &event);
    Ok(out.as_slice() == b"\x4d\x09eng\x04News\x00".as_slice())
}

/// Returns whether the descriptors of a service and of a network are written so.
fn are_names_pushed() -> Result<bool, TextError> {
    let provider = Text::<100>::new("")?;
    let name = Text::<100>::new("One")?;
    let _provider = provider.as_bytes();
    let _name = name.as_bytes();
    let mut service = ArrayVec::<u8, 300>::new();
    let mut network = ArrayVec::<u8, 300>::new();
    push_service(&mut service, 2, &provider, &name);
    push_network_name(&mut network, &name);
    Ok(
        [service.as_slice(), network.as_slice()]
            == [
                b"\x48\x06\x02\x00\x03One".as_slice(),
                b"\x40\x03One".as_slice(),
            ],
    )
}

#[test]
fn descriptors(rt: HostRuntime) -> Result<(), TextError> {
    assert!(rt; are_tags_pushed());
    assert!(rt; is_event_pushed()?);
    assert!(rt; are_names_pushed()?);
    Ok(())
}
