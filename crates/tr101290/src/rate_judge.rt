//! Whether clock references say of a stream that its rate is constant.
ghost use Rattle.std.specs.Prelude.{◌≡◌, ◌==◌, ◌++◌, OnOk, length};
ghost use Rattle.tr101290.specs.RateJudges as spec;

use crate::report::{PcrError, PcrReport};
use std::alloc::{AllocError, Global};
use std::marker::Model;

/// How many pairs of rates in a row are compared before it is decided.
pub const PAIRS: u64 = 32;

/// The accuracy error of a reference of a PID.
#[derive(Clone, Copy)]
pub struct PidError {
    pub pid: u16,
    pub error: PcrError,
}

/// The rates that references give, one after another, until 32 pairs are compared; and the accuracy errors so far,
/// which say nothing if the rate varies.
#[derive(Drop)]
pub struct RateJudge {
    alloc: Global,
    rate: Option<u128>,
    pairs: u64,
    apart: u64,
    held: Vec<PidError>,
}

impl Model for RateJudge {
    ghost use Rattle.tr101290.specs.RateJudges.{JudgeState};

    ghost Value = { JudgeState };

    ghost view = { λ j. record { rate = j.rate; pairs = j.pairs; apart = j.apart; held = j.held.items } };
}

// Returns whether the lesser of two rates is more than a fiftieth below the greater.
fn are_apart(a: u128, b: u128) -> bool
    ensures { result ≡ spec.are_apart a b }
{
    b < a - a / 50 || a < b - b / 50
}

// Returns the last rate after a reference, which may give none.
#[tactic(auto, unfolding(crate::specs::RateJudges::rate_after))]
fn rate_after(before: Option<u128>, rate: Option<u128>) -> Option<u128>
    ensures { result ≡ spec.rate_after before rate }
{
    match rate {
        None => before,
        Some(rate) => Some(rate),
    }
}

// Returns 1 if two rates are a pair to be compared, otherwise 0.
#[tactic(auto, unfolding(crate::specs::RateJudges::pair_more))]
fn pair_more(before: Option<u128>, rate: Option<u128>) -> u64
    ensures { result ≡ spec.pair_more before rate }
{
    match (before, rate) {
        (Some(_), Some(_)) => 1,
        _ => 0,
    }
}

// Returns 1 if two rates are a pair that is apart, otherwise 0.
#[tactic(auto, unfolding(crate::specs::RateJudges::apart_more))]
fn apart_more(before: Option<u128>, rate: Option<u128>) -> u64
    ensures { result ≡ spec.apart_more before rate }
{
    match (before, rate) {
        (Some(before), Some(rate)) => u64::from(are_apart(before, rate)),
        _ => 0,
    }
}

impl RateJudge {
    /// Returns the state before the first reference.
    pub fn new(alloc: Global) -> RateJudge
        ensures { result ≡ spec.no_rate }
    {
        RateJudge {
            alloc,
            rate: None,
            pairs: 0,
            apart: 0,
            held: Vec::new(alloc),
        }
    }

    /// Returns how many pairs of rates are compared.
    pub fn pairs(&self) -> u64
        ensures { result ≡ self.now.pairs }
    {
        self.pairs
    }

    /// Returns how many of these pairs are apart.
    pub fn apart(&self) -> u64
        ensures { result ≡ self.now.apart }
    {
        self.apart
    }

    /// Returns whether enough pairs are compared.
    pub fn is_decided(&self) -> bool
        ensures { result ≡ spec.is_decided self.now }
    {
        self.pairs >= PAIRS
    }

    /// Returns whether more than half of the pairs are apart.
    pub fn varies(&self) -> bool
        ensures { result ≡ spec.varies self.now }
    {
        self.apart > self.pairs / 2
    }

    /// Returns whether no error is held.
    pub fn is_empty(&self) -> bool
        ensures { result ≡ (length self.now.held == 0) }
    {
        self.held.is_empty()
    }

    // Compares a rate with the one before it.
    fn compare(&mut self, rate: Option<u128>)
        ensures { self.new ≡ spec.with_rate self.old rate }
    {
        self.pairs = self.pairs.saturating_add(pair_more(self.rate, rate));
        self.apart = self.apart.saturating_add(apart_more(self.rate, rate));
        self.rate = rate_after(self.rate, rate);
    }

    // Appends errors that count: none if the rate varies.
    fn give(&self, errors: &[PidError], out: &mut Vec<PidError>) -> Result<(), AllocError>
        ensures { OnOk result (out.new.items ≡ out.old.items ++ spec.if_constant self.now errors.now) }
    {
        if self.varies() {
            return Ok(());
        }
        out.extend_from_slice(errors)
    }

    // Appends the errors that are held, if it is decided now.
    fn settle(&mut self, out: &mut Vec<PidError>) -> Result<(), AllocError>
        ensures judge { OnOk result (self.new ≡ spec.settled self.old) }
        ensures found { OnOk result (out.new.items ≡ out.old.items ++ spec.settled_errors self.old) }
    {
        if !self.is_decided() {
            return Ok(());
        }
        self.give(&self.held, out)?;
        self.held.clear();
        Ok(())
    }

    // Holds the error of a reference, if it has one.
    #[tactic(auto, unfolding(crate::specs::RateJudges::error_list))]
    fn hold(&mut self, pid: u16, error: Option<PcrError>) -> Result<(), AllocError>
        ensures { OnOk result (self.new ≡ spec.holding self.old pid error) }
    {
        if let Some(error) = error {
            self.held.push(PidError { pid, error })?;
        }
        Ok(())
    }

    // Appends the error of a reference, if it has one, once it is decided.
    #[tactic(auto, unfolding(crate::specs::RateJudges::error_list))]
    fn pass(
        &self,
        pid: u16,
        error: Option<PcrError>,
        out: &mut Vec<PidError>,
    ) -> Result<(), AllocError>
        ensures { OnOk result (out.new.items ≡ out.old.items ++ spec.if_constant self.now (spec.error_list pid error)) }
    {
        match error {
            None => Ok(()),
            Some(error) => self.give(&[PidError { pid, error }], out),
        }
    }

    /// Takes the report on the next reference, and appends the accuracy errors that count now: all so far if it is
    /// decided with it that the rate is constant.
    ///
    /// After an `AllocError` the judge describes no stream: drop it and `out`.
    pub fn take(
        &mut self,
        pid: u16,
        report: &PcrReport,
        out: &mut Vec<PidError>,
    ) -> Result<(), AllocError>
        ensures judge { OnOk result (self.new ≡ spec.taken self.old pid report.now) }
        ensures found { OnOk result (out.new.items ≡ out.old.items ++ spec.errors_at self.old pid report.now) }
    {
        let error = report.accuracy_error();
        if self.is_decided() {
            return self.pass(pid, error, out);
        }
        self.compare(report.rate);
        self.hold(pid, error)?;
        self.settle(out)
    }

    /// Appends the accuracy errors that are held at the end, if the rate is not said to vary.
    pub fn end(&self, out: &mut Vec<PidError>) -> Result<(), AllocError>
        ensures { OnOk result (out.new.items ≡ out.old.items ++ spec.last_errors self.now) }
    {
        self.give(&self.held, out)
    }
}
