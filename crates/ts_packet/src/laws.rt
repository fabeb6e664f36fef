//! Laws of the definitions. Each function does nothing: its contract is the law.
ghost use Rattle.ts_packet.specs.PcrBytes.{PcrBytesLaw};
ghost use Rattle.ts_packet.specs.Laws.{ReadOnce, PacketsAgain, PayloadsAgain, PcrsAgain, NullAgain};
ghost use Rattle.ts_packet.specs.Laws.{StartAgain, WithoutAccess, FirstCut, PiecesListed};

/// States that the bytes of a packet say one thing, and it is read.
pub fn read_once()
    ensures { ReadOnce }
{}

/// States that a writable packet is written in 188 bytes, which say it, and is read again.
pub fn packets_again()
    ensures { PacketsAgain }
{}

/// States that the packet of a payload is read again as that payload, with a plain header and the adaptation field
/// before it.
pub fn payloads_again()
    ensures { PayloadsAgain }
{}

/// States that what begins with a payload is read again from its packet.
pub fn start_again()
    ensures { StartAgain }
{}

/// States that a payload where no decoder may begin has only stuffing before it.
pub fn without_access()
    ensures { WithoutAccess }
{}

/// States that the packet of a program clock reference is read again as that reference, without a payload and with
/// counter 15.
pub fn pcrs_again()
    ensures { PcrsAgain }
{}

/// States that the null packet is read again.
pub fn null_again()
    ensures { NullAgain }
{}

/// States that a byte stream is cut into packets of 188 bytes from its first byte on: a whole packet in front is
/// its first.
pub fn first_cut()
    ensures { FirstCut }
{}

/// States that packets of payloads on one PID, read back from their bytes, give these payloads in order.
pub fn pieces_listed()
    ensures { PiecesListed }
{}

/// States that in a packet with a program clock reference, it is bytes 6 to 11.
pub fn pcr_in_bytes()
    ensures { PcrBytesLaw }
{}
