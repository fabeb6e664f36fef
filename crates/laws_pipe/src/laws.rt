//! One job, written and read. Each function does nothing: its contract is the law.
ghost use Rattle.laws_pipe.specs.PipedFiles.{JoinedIsRead, TheFilePipe};
ghost use Rattle.laws_pipe.specs.PipedJobs.{ThePipe, WrittenIsRead};
ghost use Rattle.laws_pipe.specs.StreamedUnits.{AskAlike, TheSameUnits};

/// States that a job that `tsjob` writes, whatever the stream and the options of its command line, `mux` reads as that
/// description, that plan and these units: nothing is wrong with it, no record is refused as one, and no byte is left
/// after the last.
pub fn written_is_read()
    ensures { WrittenIsRead }
{}

/// States that, if `tsjob` ran to its end and wrote a job, and `mux`, asked for all its packets over one plan, ran to
/// its end over these bytes, `mux` refused nothing and reported nothing: its status is 0, and it wrote the packets of
/// that job's units, which keep every promise. If the DTS are the stream's own, a demultiplexer finds in these packets,
/// on the PID of each stream of the job, all units that it finds there in the input, and no further unit: in order,
/// their bytes the same, with the marks that the options ask for, their stamps later by a constant, modulo 2^33, which
/// all programs of a clock of the input share. If units of a data stream in a row have one DTS, all but the last are
/// decoded a little earlier. Teletext without stamps has in the input the moments at which it arrived; with `--joined`,
/// the parts of a joined recording have there the stamps that they have one after another.
///
/// If a device fails or memory runs out, either program ends earlier, with status 3. The writer held nothing before,
/// and its bytes are known; the units found are described for jobs whose units are due within 2^40 units of 90 kHz.
pub fn goes_through()
    ensures { ThePipe }
{
    laws_job::laws::accepted();
    laws_job::laws::found_again();
}

/// States that `mux` reads a job that `tsjob` writes of streams in files (one or several, whatever they are and
/// whatever options precede their names) as that description, that plan and these units, as it reads a job of an input.
pub fn joined_is_read()
    ensures { JoinedIsRead }
{}

/// States that, if `tsjob -- FILE..` wrote a job of the streams in these files, and its status was not 3, and `mux`,
/// asked for all its packets over one plan, ran to its end over these bytes, `mux` refused nothing and reported
/// nothing: its status is 0, and it wrote the packets of that job's units, which keep every promise. If the DTS are the
/// streams' own, a demultiplexer finds in these packets, on the PID of each stream of the job, all units that it finds
/// in the input where the stream was found, on the PID that it had there, and no further unit: in order, their bytes
/// the same, with the marks that the options ask for, their stamps later by a constant, modulo 2^33, which all programs
/// of a clock of that input share. If units of a data stream in a row have one DTS, all but the last are decoded a
/// little earlier. Teletext without stamps has in the input the moments at which it arrived; with `--joined`, the parts
/// of a joined recording have there the stamps that they have one after another.
///
/// If a device fails, a file can't be opened or read, or memory runs out, `tsjob` ends with status 3. The writer held
/// nothing before, and its bytes are known, the files' need not be; the units found are described for jobs whose units
/// are due within 2^40 units of 90 kHz.
pub fn joined_goes_through()
    ensures { TheFilePipe }
{
    laws_job::laws::joined_accepted();
    laws_job::laws::joined_again();
}

/// States that `tsjob units` and `tsjob units --stream` write the same units, stream by stream and in order, due later
/// by one time for all streams: if `tsjob units` ran to its end over the bytes of a stream and wrote records, and
/// `tsjob units --stream` went by a description of the job's streams over the same bytes to their end and reported
/// nothing (`same`).
///
/// This is so for a job whose DTS are the stream's own (none are made; no `--joined`) and whose programs are on one
/// clock, if its streams begin within three seconds of one another, none is teletext without stamps, each of their
/// units is one PES packet that nothing interrupts, and both ways ask for the same marks. They do if neither asks for
/// `--mark-access` and both ask for the same `--aligned`, or for none (`marks`).
pub fn streamed_as_whole()
    ensures same { TheSameUnits }
    ensures marks { AskAlike }
{}
