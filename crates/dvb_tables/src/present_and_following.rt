//! The present and the following event of a service (EN 300 468, 5.2.4).

ghost use Rattle.std.specs.Prelude.{◌≡◌, position};
ghost use Rattle.dvb_tables.specs.Schedule.{is_present, is_following};

use crate::schedule::Event;

/// Returns the places of the present event, the first with `start <= moment < start + duration`, and of
/// the following event, the first with `start > moment`. The moment counts seconds since 1 January 1970
/// UTC.
pub fn present_following(events: &[Event], moment: u64) -> (Option<usize>, Option<usize>)
    ensures present { result.0 ≡ position (is_present moment) events.now }
    ensures following { result.1 ≡ position (is_following moment) events.now }
{
    (
        present_place(events, moment),
        following_place(events, moment),
    )
}

fn present_place(events: &[Event], moment: u64) -> Option<usize>
    ensures { result ≡ position (is_present moment) events.now }
{
    events.iter().position(|event| is_present(moment, event))
}

fn following_place(events: &[Event], moment: u64) -> Option<usize>
    ensures { result ≡ position (is_following moment) events.now }
{
    events.iter().position(|event| is_following(moment, event))
}

// Returns whether an event is on at a moment.
#[tactic(auto, unfolding(crate::specs::Schedule::is_present))]
fn is_present(moment: u64, event: &Event) -> bool
    ensures { result ≡ is_present moment event.now }
{
    event.start <= moment && moment - event.start < event.duration as u64
}

// Returns whether an event begins after a moment.
#[tactic(auto, unfolding(crate::specs::Schedule::is_following))]
fn is_following(moment: u64, event: &Event) -> bool
    ensures { result ≡ is_following moment event.now }
{
    moment < event.start
}
