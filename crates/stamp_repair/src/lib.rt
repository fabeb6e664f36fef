//! Stamps that a PES packet lacks, or that were damaged on the way.
//!
//! The stamps of a stream rise, except where a clock jumps (ISO/IEC 13818-1, 2.4.3.7). A stamp that is out of order, between
//! stamps that are in order without it, was damaged on the way.
//!
//! - [`PesStamp`], [`stamp_at`], [`begin_of`]: the stamps of a PES packet, and where it begins (`specs/PesStamps`).
//! - `search`: the PES packets whose stamps are alone out of order, in one pass (`specs/LoneStamps`).
//! - [`damage_lone_stamps`]: the findings of a stream, in which they are damaged.
//! - [`each_pid_alone`], [`all_else_stays`], [`ordered_stays`], [`each_is_alone`], [`lone_is_found`], [`limit_is_exact`]:
//!   laws over the definitions (`specs/LoneLaws`).
//!
//! PES packets of teletext may have no PTS (EN 300 472, 4.2). A receiver shows them when they come. So the moment of such a
//! packet is the last reference of its program's clock before it is whole.
//!
//! - [`ReferenceLog`]: the clock references in bytes that come (`specs/References`).
//! - [`text_times`], [`TextTimes`]: which PIDs have such teletext, and the findings of a stream, each PES packet of it with
//!   its moment as PTS (`specs/DataTimes`).
//! - [`programs_in`], [`stream_on`], [`pcr_of`]: the programs of a stream, and their clocks.
//! - [`others_stay`]: findings of other PIDs stay as they are.
#![tactic(auto)]

mod clock_line;
mod damage;
mod lone_laws;
mod pes_stamps;
mod references;
mod search;
mod seen_stamps;
mod text_laws;
mod timing;

pub use damage::damage_lone_stamps;
pub use lone_laws::{
    all_else_stays, each_is_alone, each_pid_alone, limit_is_exact, lone_is_found, ordered_stays,
};
pub use pes_stamps::{PesStamp, begin_of, stamp_at};
pub use references::ReferenceLog;
pub use text_laws::others_stay;
pub use timing::{TextTimes, pcr_of, programs_in, stream_on, text_times};
