//! Services and plans. The small service has 1,000 slots a second, so 90 units of 90 kHz a slot, a period of 120, and
//! one program of one stream.

/// The description of a radio service at 1,504,000 bits/s: one stream of units of 576 bytes at most.
pub const DESCRIPTION: &str = "rate = 1504000
start = \"1993-10-13T12:45:00\"
ts_id = 1
original_network_id = 1
sdt = true
tdt = true

[network]
id = 1
name = \"Net\"

[[program]]
number = 1
pmt_pid = 4096
pcr_pid = 257
service_type = 2
name = \"One\"

[[stream]]
program = 1
pid = 256
id = 192
type = 3
interval = 2160
size = 576
lead = 1600

[[event]]
program = 1
id = 7
start = \"1993-10-13T12:45:00\"
duration = 5400
language = \"eng\"
name = \"News\"
text = \"\"
";

/// Its plan, which gives the stream every fourth slot.
pub const PLAN: &str = "tsplan 1
period 120
S0 P0 T0 T1 S0 T3 T2 T4 S0 T5 - - S0 - - - S0 - - - S0 - - -
S0 P0 - - S0 - - - S0 - - - S0 - - - S0 - - - S0 - - -
S0 P0 - - S0 - - - S0 - - - S0 - - - S0 - - - S0 - - -
S0 P0 - - S0 - - - S0 - - - S0 - - - S0 - - - S0 - - -
S0 P0 - - S0 - - - S0 - - - S0 - - - S0 - - - S0 - - -
stream 0 spread 0 start 0 peak 282752000
program 0 tstart 0 tpeak 377504000 bstart 0 bpeak 550464000
end
";

/// The plan with each slot one place later, the last one first, and the same certificate.
pub const TURNED_PLAN: &str = "tsplan 1
period 120
- S0 P0 T0 T1 S0 T3 T2 T4 S0 T5 - - S0 - - - S0 - - - S0 - -
- S0 P0 - - S0 - - - S0 - - - S0 - - - S0 - - - S0 - -
- S0 P0 - - S0 - - - S0 - - - S0 - - - S0 - - - S0 - -
- S0 P0 - - S0 - - - S0 - - - S0 - - - S0 - - - S0 - -
- S0 P0 - - S0 - - - S0 - - - S0 - - - S0 - - - S0 - -
stream 0 spread 0 start 0 peak 282752000
program 0 tstart 0 tpeak 377504000 bstart 0 bpeak 550464000
end
";
