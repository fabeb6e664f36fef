//! The constant texts of a page: its form, and the heads of its parts.
ghost use Rattle.std.specs.Prelude.{◌≡◌};
ghost use Rattle.view_page.specs.PageText as spec;

/// The begin of the page with its form, for light and dark. Curves differ by colour and by dashes.
const FRONT: &str = "<!doctype html>
<html lang=\"en\"><head><meta charset=\"utf-8\"><meta name=\"viewport\" content=\"width=device-width\"><title>Transport stream</title><style>
:root{color-scheme:light dark;--ink:#1a222d;--soft:#5a6574;--line:#dde2e9;--paper:#fff;--bad:#c3122b;
--s0:#1f6fd0;--s1:#0f8f62;--s2:#b9700a;--s3:#7b4fc9;--s4:#c43c80;--s5:#557f1f;--s6:#137f97;--s7:#8a5a35}
@media(prefers-color-scheme:dark){:root{--ink:#e7eaef;--soft:#9ca7b6;--line:#333c48;--paper:#12161c;--bad:#ff6b76;
--s0:#6aaaf5;--s1:#45c596;--s2:#e6a24a;--s3:#b195f0;--s4:#ee86b5;--s5:#9dc45f;--s6:#5cc0d6;--s7:#c99a72}}
body{font:15px/1.5 system-ui,sans-serif;color:var(--ink);background:var(--paper);max-width:60em;margin:2em auto;padding:0 1em}
h1{font-size:1.5em;margin:0}h2{font-size:1.1em;margin:2em 0 .2em}p{margin:.2em 0 .6em}.soft,th,summary{color:var(--soft)}
.chart{width:100%;height:auto;display:block;overflow:visible}.chart text{font-size:125px;fill:var(--soft);font-variant-numeric:tabular-nums}
.strips{width:100%}.strips th,.strips td{border:0;padding-top:0;padding-bottom:0;white-space:nowrap}.strips [scope=row],.strips [scope=rowgroup]{color:var(--ink)}.strips [scope=rowgroup]{font-weight:600;padding-top:.5em}
.strips tr>:nth-child(5){width:60%;min-width:20em;padding-right:0}.strip{width:100%;height:.9em;display:block}
.strip path{stroke:var(--s0);stroke-width:7}.f1{opacity:.15}.f2{opacity:.35}.f3{opacity:.55}.f4{opacity:.75}.strip .f6{stroke:var(--bad);stroke-width:10}
.axis{width:100%;height:auto;display:block;overflow:visible}.axis text{font-size:90px;fill:var(--soft);text-anchor:end}.axis text:first-of-type{text-anchor:start}
nav a{color:inherit;margin-right:1.2em;display:inline-block}caption{text-align:left;color:var(--soft)}
.end{text-anchor:end;paint-order:stroke;stroke:var(--paper);stroke-width:40}.mid{text-anchor:middle}path{fill:none}.grid{stroke:var(--line);stroke-width:8}.limit{stroke:var(--ink);stroke-width:16;stroke-dasharray:90 50}
.line{stroke:var(--c);stroke-width:24;stroke-linejoin:round}.range{fill:var(--c);stroke:var(--c);stroke-width:10;opacity:.25}.over{stroke:var(--bad);fill:var(--bad);stroke-width:24}
.s0{--c:var(--s0)}.s1{--c:var(--s1);stroke-dasharray:130 40}.s2{--c:var(--s2);stroke-dasharray:40 30}.s3{--c:var(--s3);stroke-dasharray:150 40 30 40}
.s4{--c:var(--s4)}.s5{--c:var(--s5);stroke-dasharray:130 40}.s6{--c:var(--s6);stroke-dasharray:40 30}.s7{--c:var(--s7);stroke-dasharray:150 40 30 40}
.s8{--c:var(--s0);stroke-dasharray:20 20}.s9{--c:var(--s1);stroke-dasharray:20 60}.s10{--c:var(--s2);stroke-dasharray:200 30}.s11{--c:var(--s3);stroke-dasharray:80 80}
.s12{--c:var(--s4);stroke-dasharray:20 20}.s13{--c:var(--s5);stroke-dasharray:20 60}.s14{--c:var(--s6);stroke-dasharray:200 30}.s15{--c:var(--s7);stroke-dasharray:80 80}
.range{stroke-dasharray:none}.area{fill:var(--c);stroke:var(--paper);stroke-width:8;stroke-dasharray:none}.key{color:var(--ink)}.key span{display:inline-block;margin-right:1.4em}.sample{width:3em;height:.6em}
table{border-collapse:collapse;font-variant-numeric:tabular-nums}th,td{padding:.15em .9em .15em 0;text-align:right;border-bottom:1px solid var(--line)}
th{font-weight:500;vertical-align:bottom}td{white-space:nowrap}.word{text-align:left;white-space:normal}.bad{color:var(--bad);font-weight:600}.wide{overflow-x:auto}table:not(:has(td)){display:none}.tall{max-height:28em;overflow-y:auto}
.bar{width:12em;height:.8em}.fill{stroke:var(--s0);stroke-width:7}.bar .over{stroke-width:7}.mark{stroke:var(--ink);stroke-width:2}
details{margin:.3em 0 0 5em}.more{margin-left:0}.tree{columns:17em;list-style:none;padding:0;margin:0}.tree ul{list-style:none;padding-left:1.2em;margin:0;color:var(--soft)}.tree>li{break-inside:avoid}.tree>li:not(:has(li)){display:none}@media(max-width:45em){.chart{margin-left:1.2em;width:calc(100% - 1.2em)}.chart text{font-size:240px}.chart .mid{transform:translateY(120px)}.axis text{font-size:110px}.strips,.strips tbody,.strips tr{display:block}.strips td,.strips th{display:inline-block;text-align:left}.strips tr>:nth-child(5){display:block;width:100%}}
@media print{details,nav{display:none}.tall{max-height:none}.wide,.tall{overflow:visible}tr,.chart{break-inside:avoid}h2{break-after:avoid}table{font-size:.8em}th,td{padding-right:.5em}}
</style></head><body>
<h1>Transport stream</h1>
<nav><a href=#over-time>Buffers over time</a>";

/// The rest of the links, and the end of their list.
const LINKS: &str =
    "<a href=#programs>Programs</a><a href=#services>Services</a><a href=#rates>Bit rates</a><a href=#checks>Checks</a><a href=#kinds>Faults</a><a href=#streams>Streams</a><a href=#clocks>Clock references</a><a href=#tables>Tables</a></nav>\n";

const STRIPS: &str =
    "<h2 id=over-time>Buffers over time</h2><p class=\"soft\">The most bytes in each buffer, by window: the stronger the colour, the fuller; red and higher: over its size; not drawn: no byte came.</p>\n";

const TREE: &str = "<h2 id=programs>Programs and PIDs</h2><ul class=tree>\n";

const SERVICES: &str =
    "<h2 id=services>Bit rate by service</h2><p class=\"soft\">Packets of 188 bytes, by window: each program on those after it; the first 256 programs.</p>\n";

const RATES: &str =
    "<h2 id=rates>Bit rate by PID</h2><p class=\"soft\">Packets of 188 bytes, by window; the first 256 PIDs.</p>\n";

const SLACKS: &str =
    "</details><h2 id=slacks>Time from a unit's last byte to its DTS</h2><p class=\"soft\">The least of the units that ended in a window.</p>\n";

const INTERVALS: &str =
    "<h2 id=intervals>Time between clock references</h2><p class=\"soft\">The greatest of a window, by PID, beside 100 ms.</p>\n";

const INACCURACIES: &str =
    "<h2 id=inaccuracies>Inaccuracy of clock references</h2><p class=\"soft\">The greatest of a window, by PID, beside 500 ns.</p>\n";

const DRIFTS: &str =
    "<h2 id=drifts>Drift of program clocks</h2><p class=\"soft\">How far the program clock of a PID is ahead of the arrival since it began, or behind it, below 0; at the last reference of a window.</p>\n";

const TRANSPORTS: &str =
    "<h2 id=transports>Transport buffers</h2><p class=\"soft\">The most bytes that were in the buffer, by window, beside its size. What lies over it is drawn thick, with a mark.</p><details class=\"more\"><summary>A picture of each</summary>\n";

const MAINS: &str =
    "</details><h2 id=mains>Main buffers</h2><p class=\"soft\">The most and the least bytes that were in the buffer, by window, beside its size.</p><details class=\"more\"><summary>A picture of each</summary>\n";

const CHECKS: &str =
    "<h2 id=checks>Checks of ETSI TR 101 290</h2><p class=\"soft\">With the limits of <code>tsview</code>; packets are counted from 0.</p><div class=\"wide\"><table aria-labelledby=checks><tr><th class=word scope=col>number<th class=word scope=col>check<th scope=col>faults<th scope=col>first packet<th scope=col>last packet\n";

const FAULTS: &str =
    "</table></div><h2 id=faults>First faults</h2><p class=\"soft\">At most 100.</p><div class=\"wide tall\"><table aria-labelledby=faults><tr><th scope=col>from, ms<th scope=col>to, ms<th class=word scope=col>what<th scope=col>PID<th scope=col>packet<th scope=col>value<th scope=col>limit<th class=word scope=col>unit\n";

const STREAMS: &str =
    "</table></div><h2 id=streams>Streams</h2><div class=\"wide\"><table aria-labelledby=streams><tr><th scope=col>PID<th class=word scope=col>carries<th scope=col>stream_type<th scope=col>out of the transport buffer, bit/s<th scope=col>main buffer, bytes\n";

const BUFFERS: &str =
    "</table></div><h2 id=buffers>Buffers</h2><div class=\"wide\"><table aria-labelledby=buffers><tr><th scope=col>PID<th class=word scope=col>carries<th class=word scope=col>buffer<th scope=col>size<th scope=col>most<th class=word scope=col>beside its size<th scope=col>excesses<th scope=col>units<th scope=col>late<th scope=col>headers not read\n";

const SYSTEMS: &str =
    "</table></div><h2 id=systems>Buffers of programs' tables</h2><div class=\"wide\"><table aria-labelledby=systems><tr><th scope=col>program<th scope=col>transport buffer, most<th class=word scope=col>beside 512 bytes<th scope=col>excesses<th scope=col>system buffer, most<th class=word scope=col>beside 1,536 bytes<th scope=col>excesses\n";

const CLOCKS: &str =
    "</table></div><h2 id=clocks>Clock references</h2><div class=\"wide\"><table aria-labelledby=clocks><tr><th scope=col>PID<th scope=col>references<th scope=col>announced<th scope=col>rate, bit/s<th scope=col>longest interval, ms<th class=word scope=col>beside 100 ms<th scope=col>inaccuracy, ns<th class=word scope=col>beside 500 ns\n";

const TABLES: &str =
    "</table></div><h2 id=tables>Tables</h2><div class=\"wide\"><table aria-labelledby=tables><tr><th scope=col>PID<th scope=col>table_id<th scope=col>sections<th scope=col>longest interval, ms<th scope=col>limit, ms<th class=word scope=col>beside its limit\n";

const PIDS: &str =
    "</table></div><h2 id=pids>PIDs</h2><div class=\"wide\"><table aria-labelledby=pids><tr><th scope=col>PID<th class=word scope=col>carries<th scope=col>packets<th scope=col>with a clock reference\n";

const APART: &str = "</table><table aria-label=\"other findings\">\n";

const BACK: &str = "</table></div>\n</body></html>\n";

/// Returns the links after the first links of the page.
#[tactic(auto, unfolding(crate::specs::PageText::links_text))]
pub(crate) fn links_text() -> &'static str
    ensures { result.now ≡ spec.links_text }
{
    LINKS
}

/// Returns the begin of the page.
#[tactic(auto, unfolding(crate::specs::PageText::front_text))]
pub(crate) fn front_text() -> &'static str
    ensures { result.now ≡ spec.front_text }
{
    FRONT
}

/// Returns the head of the part on strips.
#[tactic(auto, unfolding(crate::specs::PageText::strips_text))]
pub(crate) fn strips_text() -> &'static str
    ensures { result.now ≡ spec.strips_text }
{
    STRIPS
}

/// Returns the head of the list of programs.
#[tactic(auto, unfolding(crate::specs::PageText::tree_text))]
pub(crate) fn tree_text() -> &'static str
    ensures { result.now ≡ spec.tree_text }
{
    TREE
}

/// Returns the head of the part on bit rates of programs.
#[tactic(auto, unfolding(crate::specs::PageText::services_text))]
pub(crate) fn services_text() -> &'static str
    ensures { result.now ≡ spec.services_text }
{
    SERVICES
}

/// Returns the head of the part on bit rates.
#[tactic(auto, unfolding(crate::specs::PageText::rates_text))]
pub(crate) fn rates_text() -> &'static str
    ensures { result.now ≡ spec.rates_text }
{
    RATES
}

/// Returns the head of the part on times before decoding.
#[tactic(auto, unfolding(crate::specs::PageText::slacks_text))]
pub(crate) fn slacks_text() -> &'static str
    ensures { result.now ≡ spec.slacks_text }
{
    SLACKS
}

/// Returns the head of the part on times between clock references.
#[tactic(auto, unfolding(crate::specs::PageText::intervals_text))]
pub(crate) fn intervals_text() -> &'static str
    ensures { result.now ≡ spec.intervals_text }
{
    INTERVALS
}

/// Returns the head of the part on the inaccuracy of clock references.
#[tactic(auto, unfolding(crate::specs::PageText::inaccuracies_text))]
pub(crate) fn inaccuracies_text() -> &'static str
    ensures { result.now ≡ spec.inaccuracies_text }
{
    INACCURACIES
}

/// Returns the head of the part on the drift of program clocks.
#[tactic(auto, unfolding(crate::specs::PageText::drifts_text))]
pub(crate) fn drifts_text() -> &'static str
    ensures { result.now ≡ spec.drifts_text }
{
    DRIFTS
}

/// Returns the head of the part on transport buffers.
#[tactic(auto, unfolding(crate::specs::PageText::transports_text))]
pub(crate) fn transports_text() -> &'static str
    ensures { result.now ≡ spec.transports_text }
{
    TRANSPORTS
}

/// Returns the head of the part on main buffers.
#[tactic(auto, unfolding(crate::specs::PageText::mains_text))]
pub(crate) fn mains_text() -> &'static str
    ensures { result.now ≡ spec.mains_text }
{
    MAINS
}

/// Returns the head of the part on checks.
#[tactic(auto, unfolding(crate::specs::PageText::checks_text))]
pub(crate) fn checks_text() -> &'static str
    ensures { result.now ≡ spec.checks_text }
{
    CHECKS
}

/// Returns the head of the part on first faults.
#[tactic(auto, unfolding(crate::specs::PageText::faults_text))]
pub(crate) fn faults_text() -> &'static str
    ensures { result.now ≡ spec.faults_text }
{
    FAULTS
}

/// Returns the head of the part on streams.
#[tactic(auto, unfolding(crate::specs::PageText::streams_text))]
pub(crate) fn streams_text() -> &'static str
    ensures { result.now ≡ spec.streams_text }
{
    STREAMS
}

/// Returns the head of the part on buffers.
#[tactic(auto, unfolding(crate::specs::PageText::buffers_text))]
pub(crate) fn buffers_text() -> &'static str
    ensures { result.now ≡ spec.buffers_text }
{
    BUFFERS
}

/// Returns the head of the part on buffers of tables.
#[tactic(auto, unfolding(crate::specs::PageText::systems_text))]
pub(crate) fn systems_text() -> &'static str
    ensures { result.now ≡ spec.systems_text }
{
    SYSTEMS
}

/// Returns the head of the part on clock references.
#[tactic(auto, unfolding(crate::specs::PageText::clocks_text))]
pub(crate) fn clocks_text() -> &'static str
    ensures { result.now ≡ spec.clocks_text }
{
    CLOCKS
}

/// Returns the head of the part on tables.
#[tactic(auto, unfolding(crate::specs::PageText::tables_text))]
pub(crate) fn tables_text() -> &'static str
    ensures { result.now ≡ spec.tables_text }
{
    TABLES
}

/// Returns the head of the part on PIDs.
#[tactic(auto, unfolding(crate::specs::PageText::pids_text))]
pub(crate) fn pids_text() -> &'static str
    ensures { result.now ≡ spec.pids_text }
{
    PIDS
}

/// Returns the head of the part on other findings.
#[tactic(auto, unfolding(crate::specs::PageText::apart_text))]
pub(crate) fn apart_text() -> &'static str
    ensures { result.now ≡ spec.apart_text }
{
    APART
}

/// Returns the end of the page.
#[tactic(auto, unfolding(crate::specs::PageText::back_text))]
pub(crate) fn back_text() -> &'static str
    ensures { result.now ≡ spec.back_text }
{
    BACK
}
