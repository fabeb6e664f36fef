//! Laws of the definitions. Each function does nothing: its contract is the law.

ghost use Rattle.pid_findings.specs.Bodies.{BodiesDecideNothing, FewAreKept};
ghost use Rattle.demux.specs.StreamBodies.{HeadersAlone, HeadersAreFound, NoHeadersAtFirst};
ghost use Rattle.demux.specs.KeptBodies.{OthersDecideNothing};
ghost use Rattle.demux.specs.Laws.{EachPidAlone, PacketsDecide, PiecesJoin, TakenAsPushed};
ghost use Rattle.pid_findings.specs.Machine.{RunFindsAll};
ghost use Rattle.demux.specs.FoundSoFar.{AllAreFound, NothingAtFirst, PacketAdds, PacketsAdd, PidFoundSoFar, PieceAdds};

/// States that the findings packet by packet, with a state of the last packet and the open unit, are the findings of
/// all packets of the PID together, with the end of the stream and without it.
pub fn packet_by_packet()
    ensures { RunFindsAll }
{}

/// States that however the bytes of a stream are cut into pieces, they are taken as one piece.
pub fn pieces_join()
    ensures { PiecesJoin }
{}

/// States that, if no part of a packet is held, a packet that is taken leaves and finds what its 188 bytes would if
/// they were pushed.
pub fn taken_as_pushed()
    ensures { TakenAsPushed }
{}

/// States that the findings of a PID, except the null packets' PID, are the findings of its packets alone, in a stream
/// of fewer than 2^64 - 1 packets, with the end of the stream and without it.
pub fn each_pid_alone()
    ensures { EachPidAlone }
{}

/// States that streams that agree on a PID's packets and their places agree on its findings; with the end of the
/// stream, if they also agree on the number of packets.
pub fn packets_decide()
    ensures { PacketsDecide }
{}

/// States that a caller who takes the findings away as they come, after a packet or several that were taken or a piece
/// that was pushed, has all that are found, joined in their order; at the end the last ones follow.
pub fn nothing_is_lost()
    ensures at_first { NothingAtFirst }
    ensures packet { PacketAdds }
    ensures packets { PacketsAdd }
    ensures piece { PieceAdds }
    ensures all { AllAreFound }
{}

/// States that the findings of a PID are then the findings of its packets, with the end of the stream and without it.
pub fn each_pid_so_far()
    ensures { PidFoundSoFar }
{}

/// States that the bodies of open PES packets may be left out at any time: later findings and states are the same
/// besides bodies. Of an open unit whose body is left out at most 4,098 bytes are kept.
pub fn headers_alone()
    ensures packet { BodiesDecideNothing }
    ensures stream { HeadersAlone }
    ensures at_first { NoHeadersAtFirst }
    ensures found { HeadersAreFound }
    ensures few { FewAreKept }
{}

/// States that the bodies of open PES packets of all PIDs but some may be left out at any time: later findings and
/// states are the same besides bodies of other PIDs.
pub fn others_decide_nothing()
    ensures { OthersDecideNothing }
{}
