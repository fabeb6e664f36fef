//! Whether a description may take the place of the texts of a job on air.

ghost use Rattle.std.specs.Prelude.{◌≡◌, IfOk, string_bytes};
ghost use Rattle.changed_texts.specs.Reading.{description_in};
ghost use Rattle.explained_jobs.specs.TextAnswers as spec;

use crate::explaining::description_part;
use crate::text_words::write_text_fault;
use crate::unit_words::write_refused_texts;
use changed_texts::{TextFault, read_description, text_fault};
use description::Description;
use description_keys::{DescError, DescFault};
use on_air::TextsRefusal;
use std::alloc::{AllocError, Global};

/// Returns why a description is refused, after these words.
#[tactic(auto, unfolding(crate::specs::TextAnswers::refused_words))]
pub(crate) fn refused_text(
    alloc: Global,
    front: &str,
    fault: DescFault,
) -> Result<String, AllocError>
    ensures { IfOk result (λ text. string_bytes text ≡ spec.refused_words front.now (DescError.Refused fault)) }
{
    let mut text = String::new(alloc);
    text.push_str(front)?;
    write_refused_texts(TextsRefusal::Unread(fault), &mut text)?;
    Ok(text)
}

// Returns the words for a fault of texts, or that they have none.
#[tactic(auto, unfolding(crate::specs::TextAnswers::fault_words))]
fn fault_text(alloc: Global, fault: Option<TextFault>) -> Result<String, AllocError>
    ensures { IfOk result (λ text. string_bytes text ≡ spec.fault_words fault) }
{
    let mut text = String::new(alloc);
    match fault {
        None => text.push_str("texts: yes\n")?,
        Some(fault) => write_text_fault(fault, &mut text)?,
    }
    Ok(text)
}

// Returns the answer to new texts.
#[tactic(auto, unfolding(crate::specs::TextAnswers::texts_words))]
fn texts_text(alloc: Global, frame: &Description, texts: &[u8]) -> Result<String, AllocError>
    ensures { IfOk result (λ text. string_bytes text ≡ spec.texts_words frame.now (description_in texts.now)) }
{
    match read_description(alloc, texts) {
        Ok(texts) => fault_text(alloc, text_fault(frame, frame, &texts)),
        Err(DescError::Refused(fault)) => refused_text(alloc, "", fault),
        Err(DescError::Memory) => Err(AllocError),
    }
}

/// Returns whether a description may take the place of the texts of a job, or of a description, that is on air: a line
/// that says yes, or why not.
#[tactic(auto, unfolding(crate::specs::TextAnswers::answer_words))]
pub fn text_answer(alloc: Global, job: &[u8], texts: &[u8]) -> Result<String, AllocError>
    ensures { IfOk result (λ text. string_bytes text ≡ spec.text_answer job.now texts.now) }
{
    match read_description(alloc, description_part(job)) {
        Ok(frame) => texts_text(alloc, &frame, texts),
        Err(DescError::Refused(fault)) => refused_text(alloc, "first ", fault),
        Err(DescError::Memory) => Err(AllocError),
    }
}
