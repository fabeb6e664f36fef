//! What the command line asks for.
ghost use Rattle.std.specs.Prelude.{◌≡◌, IfOk, IfSome, ◌<◌, ◌≤◌};
ghost use Rattle.clap.specs.Words.{found_of, rows_of, subcommand_rows_of};
ghost use Rattle.tsmux_cli.specs.Request as asked;

use crate::command_line;
use crate::options::{CARRY, MONITOR, MUX};
use checked_jobs::MuxOptions;
use clap::ArgMatches;
use clap::error::ErrorKind;
use clock27::Rate;
use devices::{is_given, number_option, text_of};
use pes_packet::is_unit_id;
use std::alloc::{AllocError, Global};
use word_faults::{number_if, number_of};

/// The options of `carry`: it writes the packets of one PID.
#[derive(Clone, Copy)]
pub struct CarryOptions {
    /// the packets are written as lines of hexadecimal digits, and not as bytes
    pub hex: bool,
    /// the PID of the packets, 32 to 8190
    pub pid: u16,
    /// the stream_id of the PES packets: 189, or 192 to 239
    pub id: u8,
}

/// The options of `monitor`.
#[derive(Clone, Copy)]
pub struct MonitorOptions {
    /// the rate of the stream
    pub rate: Rate,
    /// the greatest time between program clock references, in milliseconds: 1 to 100
    pub pcr_limit: u32,
}

/// A subcommand with its options.
#[derive(Clone, Copy)]
pub enum Request {
    /// unit records to packets
    Carry(CarryOptions),
    /// a description to the text of a plan
    Plan,
    /// packets to the lines of their findings
    Demux,
    /// whether a plan serves a description, and a second plan may follow it
    Check { switch: bool },
    /// a job to its packets
    Mux(MuxOptions),
    /// packets to a monitoring report
    Monitor(MonitorOptions),
}

#[tactic(auto, unfolding(crate::specs::Request::carry_of))]
fn carry_of(hex: bool, pid: Option<u64>, id: Option<u64>) -> Option<Request>
    requires pid { IfSome pid (λ n. n < 8192) }
    requires id { IfSome id (λ n. n < 256) }
    ensures value { result ≡ asked.carry_of hex pid id }
    ensures fits { asked.Fits result }
{
    let Some(pid) = pid else {
        return None;
    };
    let Some(id) = id else {
        return None;
    };
    let (pid, id) = (pid as u16, id as u8);
    if is_unit_id(id) {
        Some(Request::Carry(CarryOptions { hex, pid, id }))
    } else {
        None
    }
}

#[tactic(auto, unfolding(crate::specs::Request::carry_request))]
fn carry_request(matches: &ArgMatches<'_>) -> Option<Request>
    ensures value { result ≡ asked.carry_request (rows_of (found_of matches.now)) }
    ensures fits { asked.Fits result }
{
    let hex = is_given(text_of(matches, "hex"));
    let pid = number_of(&CARRY, matches, "pid");
    let id = number_option(text_of(matches, "id"), 0, 255, 192);
    carry_of(hex, pid, id)
}

#[tactic(auto, unfolding(crate::specs::Request::mux_of))]
fn mux_of(hex: bool, slots: Option<Option<u64>>, periods: Option<Option<u64>>) -> Option<Request>
    ensures value { result ≡ asked.mux_of hex slots periods }
    ensures fits { asked.Fits result }
{
    let Some(slots) = slots else {
        return None;
    };
    let Some(periods) = periods else {
        return None;
    };
    Some(Request::Mux(MuxOptions {
        hex,
        slots,
        periods,
    }))
}

#[tactic(auto, unfolding(crate::specs::Request::mux_request))]
fn mux_request(matches: &ArgMatches<'_>) -> Option<Request>
    ensures value { result ≡ asked.mux_request (rows_of (found_of matches.now)) }
    ensures fits { asked.Fits result }
{
    let hex = is_given(text_of(matches, "hex"));
    let slots = number_if(&MUX, matches, "slots");
    let periods = number_if(&MUX, matches, "switch");
    mux_of(hex, slots, periods)
}

#[tactic(auto, unfolding(crate::specs::Request::monitor_of))]
fn monitor_of(rate: Option<u64>, pcr_limit: Option<u64>) -> Option<Request>
    requires lower { IfSome rate (λ n. 100000 ≤ n) }
    requires upper { IfSome rate (λ n. n ≤ 100000000) }
    requires limit { IfSome pcr_limit (λ n. n ≤ 100) }
    ensures value { result ≡ asked.monitor_of rate pcr_limit }
    ensures fits { asked.Fits result }
{
    let Some(rate) = rate else {
        return None;
    };
    let Some(pcr_limit) = pcr_limit else {
        return None;
    };
    let Ok(rate) = Rate::new(rate) else {
        return None;
    };
    let pcr_limit = pcr_limit as u32;
    Some(Request::Monitor(MonitorOptions { rate, pcr_limit }))
}

#[tactic(auto, unfolding(crate::specs::Request::monitor_request))]
fn monitor_request(matches: &ArgMatches<'_>) -> Option<Request>
    ensures value { result ≡ asked.monitor_request (rows_of (found_of matches.now)) }
    ensures fits { asked.Fits result }
{
    let rate = number_of(&MONITOR, matches, "rate");
    let pcr_limit = number_of(&MONITOR, matches, "pcr");
    monitor_of(rate, pcr_limit)
}

#[tactic(auto, unfolding(crate::specs::Request::request_of))]
fn request_of(name: &str, matches: &ArgMatches<'_>) -> Option<Request>
    ensures value { result ≡ asked.request_of name.now (rows_of (found_of matches.now)) }
    ensures fits { asked.Fits result }
{
    match name {
        "carry" => carry_request(matches),
        "plan" => Some(Request::Plan),
        "demux" => Some(Request::Demux),
        "check" => {
            let switch = is_given(text_of(matches, "switch"));
            Some(Request::Check { switch })
        }
        "mux" => mux_request(matches),
        "monitor" => monitor_request(matches),
        _ => None,
    }
}

fn subcommand_request(matches: &ArgMatches<'_>) -> Option<Request>
    ensures value { result ≡ asked.subcommand_request (subcommand_rows_of matches.now) }
    ensures fits { asked.Fits result }
{
    match matches.subcommand() {
        None => None,
        Some((name, found)) => request_of(name, found),
    }
}

/// Returns what the command line asks for; `None` if it is a usage error. Without words, it is `carry --hex`.
pub fn requested(alloc: Global, words: &[&str]) -> Result<Option<Request>, AllocError>
    ensures value { IfOk result (λ r. r ≡ asked.asked words.now) }
    ensures fits { IfOk result (λ r. asked.Fits r) }
{
    if words.is_empty() {
        let options = CarryOptions {
            hex: true,
            pid: 256,
            id: 192,
        };
        return Ok(Some(Request::Carry(options)));
    }
    match command_line::matches_for(alloc, words) {
        Ok(matches) => Ok(subcommand_request(&matches)),
        Err(error) => match error.kind() {
            ErrorKind::OutOfMemory => Err(AllocError),
            _ => Ok(None),
        },
    }
}
