//! Laws of a view. Each is a function that does nothing: its contract is the law, over the definitions of `specs/`
//! alone, and a caller may cite it.
ghost use Rattle.tstd_rows.specs.ConstantRate.{ConstantRateLaw, InTimeLaw};
ghost use Rattle.tstd_rows.specs.ViewLaws.{FiguresLaw, TablesLaw};
ghost use Rattle.tstd_rows.specs.Lows.{LowsLaw};
ghost use Rattle.tstd_rows.specs.VideoViewed.{CauseLaw, LeakedPartsLaw, TransferredLaw, VideoFiguresLaw};

/// States that the figures of a view are the greatest fullness of both buffers over all moments.
pub fn figures()
    ensures { FiguresLaw }
{}

/// States the same fact for the figures of a view of a program's tables.
pub fn tables()
    ensures { TablesLaw }
{}

/// States that the least number that the bytes of a part of a stream find in the main buffer is its least fullness
/// while this part arrives.
pub fn lows()
    ensures { LowsLaw }
{}

/// States for a stream at a constant rate that the figures of its view are the figures of the model of finished bytes,
/// and that a unit's deadline is its stamp.
pub fn constant_rate()
    ensures figures { ConstantRateLaw }
    ensures in_time { InTimeLaw }
{}

/// States that the two buffers of video after its transport buffer are the buffers of a stream that arrives as the
/// video leaves it, and that the figures of a view of that stream are the greatest fullness of both over all moments.
/// By the leak method a byte of video enters the elementary stream buffer at the later of two times: when the
/// multiplexing buffer alone would release it, and when the elementary stream buffer has room; so a late unit has
/// either cause.
pub fn video()
    ensures parts { LeakedPartsLaw }
    ensures figures { VideoFiguresLaw }
    ensures transferred { TransferredLaw }
    ensures cause { CauseLaw }
{}
