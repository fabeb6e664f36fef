//! The texts of the tables that are in force, and what was sent of them.

ghost use Rattle.std.specs.Prelude.{◌≡◌, ◌<◌, Some, IfSome, option_map, false, slice_index_or};
ghost use Rattle.description.specs.SubTables.{sub_table_count, sub_table_number};
ghost use Rattle.description_parts.specs.Tables.{stream_on_air};
ghost use Rattle.mux_core.specs.TextChanges.{sub_table_there};
ghost use Rattle.mux_core.specs.SlotSteps.{texts_in, marked, number_there, still_at, sent_still};

use arrayvec::ArrayVec;
use slot_plan::Description;

/// The texts after the last change, none before the first, and for each sub-table, by its number, whether a section of it
/// was sent since it changed last.
#[derive(Drop)]
pub(crate) struct TextsInForce {
    pub(crate) changed: Option<Description>,
    pub(crate) sent: [bool; 131],
}

impl TextsInForce {
    /// Returns the texts, if the run began with these.
    pub fn texts<'a>(&'a self, first: &'a Description) -> &'a Description
        ensures { result.now ≡ texts_in self.now.changed first.now }
    {
        match &self.changed {
            None => first,
            Some(texts) => texts,
        }
    }

    /// Returns whether a program on air has a stream, if the run began with these texts.
    pub fn stream_on_air(&self, first: &Description, stream: u8) -> bool
        ensures { result ≡ stream_on_air (texts_in self.now.changed first.now) stream }
    {
        self.texts(first).stream_on_air(stream as usize)
    }

    // Returns the number of the sub-table of a section.
    fn sub_table(&self, first: &Description, table: usize, section: usize) -> Option<usize>
        ensures value { result ≡ option_map sub_table_number
            (sub_table_there (texts_in self.now.changed first.now) table section) }
        ensures below { IfSome result (λ n. n < sub_table_count) }
    {
        let texts = self.texts(first);
        if table >= texts.tables() || section >= texts.sections(table) {
            return None;
        }
        match texts.sub_table(table, section) {
            None => None,
            Some(sub_table) => Some(sub_table.number()),
        }
    }

    /// Notes the section of a table that begins in a slot, if one begins.
    pub fn mark(&mut self, first: &Description, table: usize, section: Option<u8>)
        ensures { self.new ≡ record {
          changed = self.old.changed;
          sent = marked self.old.sent (number_there (texts_in self.old.changed first.now) table section);
        } }
    {
        let Some(section) = section else {
            return;
        };
        let Some(number) = self.sub_table(first, table, section as usize) else {
            return;
        };
        self.sent[number] = true;
    }

    /// Puts other texts in force, and forgets what was sent of the sub-tables that change.
    pub fn put(&mut self, next: Description, changed: &[bool; 131])
        ensures changed { self.new.changed ≡ Some next }
        ensures sent { self.new.sent ≡ sent_still self.old.sent (λ n. slice_index_or changed.now n false) }
    {
        self.sent = sent_still(&self.sent, changed);
        drop(self.changed.replace(next));
    }
}

fn is_still_sent(sent: &[bool; 131], changed: &[bool; 131], number: usize) -> bool
    requires { number < 131 }
    ensures { result ≡ still_at sent.now (λ n. slice_index_or changed.now n false) number }
{
    sent[number] && !changed[number]
}

// Returns what was sent, but for the sub-tables that change.
fn sent_still(sent: &[bool; 131], changed: &[bool; 131]) -> [bool; 131]
    ensures { result ≡ sent_still sent.now (λ n. slice_index_or changed.now n false) }
{
    let mut still = ArrayVec::<bool, 131>::new();
    for number in 0..131 {
        still.push(is_still_sent(sent, changed, number));
    }
    match still.into_inner() {
        Ok(still) => still,
        Err(_) => unreachable!(),
    }
}
