//! A job that is taken as its bytes come: its plans, and what takes the bytes after them.
ghost use Rattle.std.specs.Prelude.{◌≡◌, ◌++◌, Bool, List, [], ℕ, OnOk, IfErr};
ghost use Rattle.checked_jobs.specs.Jobs.{job_of};
ghost use Rattle.checked_jobs.specs.JobTaking.{Concludes, TakesJob};
ghost use Rattle.checked_jobs.specs.declared.job_taker.FrontState.TheVariants.{Open};

use crate::job_fault::{JobFault, JobReadError, is_final};
use crate::jobs::{JobPlans, plans_at_front};
use crate::rest_taker::RestTaker;
use devices::{Halt, PieceTaker};
use std::alloc::Global;
use std::mem;

/// The size of a piece in bytes: more than most descriptions with their plans have.
pub const PIECE: usize = 1 << 18;

/// What the bytes of a job so far are read as.
#[derive(Drop)]
pub enum FrontState {
    /// a text that may go on
    Open,
    /// plans: more bytes come after them
    Plans(JobPlans),
    /// a fault that more bytes can't change
    Fault(JobFault),
}

/// A job whose bytes arrive in pieces. Its texts are read again whenever they are twice as long, until the plans are
/// whole; bytes after the plans go to a taker of their own, and bytes after a fault are dropped.
#[derive(Drop)]
pub struct JobTaker<T> {
    alloc: Global,
    /// with a second plan
    switch: bool,
    state: FrontState,
    /// the bytes so far, while a text may continue
    text: Vec<u8>,
    /// the text is read again when it has this size
    again: usize,
    rest: T,
}

impl<T: RestTaker + Drop> JobTaker<T> {
    /// Returns a job without a byte yet.
    pub fn new(alloc: Global, switch: bool, rest: T) -> JobTaker<T>
        ensures switch { result.switch ≡ switch }
        ensures text { result.text.items ≡ [] }
        ensures state { result.state ≡ Open }
        ensures rest { result.rest ≡ rest }
    {
        JobTaker {
            alloc,
            switch,
            state: FrontState::Open,
            text: Vec::new(alloc),
            again: 0,
            rest,
        }
    }

    /// Reads the plans in the text, if they are whole, and gives their taker the bytes after them.
    fn read_text(&mut self) -> Result<(), Halt>
        ensures taken { (switch : Bool) (bytes : List ℕ) → self.old.state ≡ Open
            → TakesJob (T.has_taken self.old.rest) switch bytes self.old.switch self.old.text.items self.old.state
            → OnOk result (TakesJob (T.has_taken self.new.rest) switch bytes self.new.switch
            self.new.text.items self.new.state) }
        ensures memory { IfErr result (λ halt. halt ≡ Halt.Memory) }
    {
        match plans_at_front(self.alloc, self.switch, &self.text) {
            Ok((plans, at)) => {
                self.state = FrontState::Plans(plans);
                let text = mem::replace(&mut self.text, Vec::new(self.alloc));
                let (_, after) = text.split_at(at);
                self.rest.take_rest(after)
            }
            Err(JobReadError::Fault(fault)) => {
                if !is_final(fault) {
                    return Ok(());
                }
                self.state = FrontState::Fault(fault);
                Ok(())
            }
            Err(JobReadError::Memory) => Err(Halt::Memory),
        }
    }

    /// Takes more bytes of the text.
    #[tactic(auto, using(crate::proofs::JobTaking::text_longer))]
    fn take_text(&mut self, bytes: &[u8]) -> Result<(), Halt>
        ensures taken { (switch : Bool) (before : List ℕ) → self.old.state ≡ Open
            → TakesJob (T.has_taken self.old.rest) switch before self.old.switch self.old.text.items self.old.state
            → OnOk result (TakesJob (T.has_taken self.new.rest) switch
            (before ++ bytes.now) self.new.switch self.new.text.items self.new.state) }
        ensures memory { IfErr result (λ halt. halt ≡ Halt.Memory) }
    {
        let Ok(()) = self.text.extend_from_slice(bytes) else {
            return Err(Halt::Memory);
        };
        let size = self.text.len();
        if size < self.again {
            return Ok(());
        }
        self.again = size.saturating_mul(2);
        self.read_text()
    }

    /// Returns the plans, and the taker of all bytes after them; or the fault of the bytes that came.
    pub fn finish(self) -> Result<(JobPlans, T), JobReadError>
        ensures { (switch : Bool) (bytes : List ℕ)
            → TakesJob (T.has_taken self.rest) switch bytes self.switch self.text.items self.state
            → Concludes T.has_taken (job_of switch bytes) result }
    {
        let JobTaker {
            alloc,
            switch,
            state,
            text,
            again: _,
            mut rest,
        } = self;
        match state {
            FrontState::Plans(plans) => Ok((plans, rest)),
            FrontState::Fault(fault) => Err(JobReadError::Fault(fault)),
            FrontState::Open => {
                let (plans, at) = plans_at_front(alloc, switch, &text)?;
                let (_, after) = text.split_at(at);
                match rest.take_rest(after) {
                    Ok(()) => Ok((plans, rest)),
                    Err(_) => Err(JobReadError::Memory),
                }
            }
        }
    }
}

impl<T: RestTaker + Drop> PieceTaker for JobTaker<T> {
    ghost unit = { 1 };

    ghost has_taken = { λ first bytes now.
        TakesJob (T.has_taken now.rest) first.switch bytes now.switch now.text.items now.state };

    #[tactic(auto, using(crate::proofs::JobTaking::plans_longer, crate::proofs::JobTaking::fault_longer))]
    fn take_piece(&mut self, piece: &[u8]) -> Result<(), Halt> {
        match self.state {
            FrontState::Plans(_) => self.rest.take_rest(piece),
            FrontState::Fault(_) => Ok(()),
            FrontState::Open => self.take_text(piece),
        }
    }
}
