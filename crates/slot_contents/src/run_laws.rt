//! Laws of the bytes of a run of slots, by what each slot carries. Each function does nothing: its contract is the law.
ghost use Rattle.slot_contents.specs.RunLaws.{ContentAgainLaw, RunLengthLaw, RunListLaw, RunIndicesLaw, RunTwoLaw};
ghost use Rattle.slot_contents.specs.RunLaws.{PayloadCountLaw, RunPayloadEntriesLaw, PayloadEntriesAgainLaw};
ghost use Rattle.slot_contents.specs.RunLaws.{RunJoinedLaw, RunByNumberLaw};

/// States that the packet of what a slot carries has 188 bytes, and is read again.
pub fn content_again()
    ensures { ContentAgainLaw }
{}

/// States that a run of n slots has 188 * n bytes.
pub fn run_length()
    ensures { RunLengthLaw }
{}

/// States the list of a PID in the bytes of a run, slot by slot.
pub fn run_pid_list()
    ensures { RunListLaw }
{}

/// States that the indices of a PID's packets are an item's own slots, if the packets are in these slots.
pub fn run_indices()
    ensures { RunIndicesLaw }
{}

/// States the same fact for two PIDs together, as for the tables that enter one system buffer.
pub fn run_two()
    ensures { RunTwoLaw }
{}

/// States a count of the payloads on a PID before each slot numbers them.
pub fn payload_count()
    ensures { PayloadCountLaw }
{}

/// States that numbered payloads are the whole list of their PID, and their counters go up by one modulo 16 from 0.
pub fn run_payload_entries()
    ensures { RunPayloadEntriesLaw }
{}

/// States that a payload comes back from its packet, with the packet's index and what begins with it.
pub fn payload_entries_again()
    ensures { PayloadEntriesAgainLaw }
{}

/// States that the payloads of a PID in the bytes of a run, joined, are the payloads of its slots, joined.
pub fn run_joined()
    ensures { RunJoinedLaw }
{}

/// States that, if an item's own slots alone carry payloads on a PID, by their numbers, the payloads of the PID are
/// theirs.
pub fn run_by_number()
    ensures { RunByNumberLaw }
{}
