//! The fixed parts of the page.
ghost use Rattle.std.specs.Prelude.{◌≡◌};
ghost use Rattle.scp_draw.specs.Frame.{head, legend, stands_head, tail};

static HEAD: &str = "<!doctype html>
<html lang=en>
<meta charset=utf-8>
<meta name=viewport content='width=device-width,initial-scale=1'>
<title>A run of nodes</title>
<style>
:root{color-scheme:light dark;--back:#fff;--ink:#1f2328;--dim:#8c959f;--red:#d1242f;--grey:#57606a;--violet:#8250df;--blue:#0969da;
--amber:#9a6700;--green:#1a7f37;--teal:#0e7490;--brown:#7c5c3e}
@media (prefers-color-scheme:dark){:root{--back:#0d1117;--ink:#e6edf3;--dim:#6e7681;--red:#ff7b72;--grey:#adbac7;--violet:#bc8cff;
--blue:#58a6ff;--amber:#d29922;--green:#3fb950;--teal:#39c5cf;--brown:#c9a27a}}
body{margin:16px;background:var(--back);color:var(--ink);font:16px/1.5 system-ui,sans-serif}
h1,h2{font-size:20px}
label{margin-right:12px;white-space:nowrap}
summary{cursor:pointer;font-weight:600}
pre{overflow-x:auto;font-size:14px}
details{overflow:hidden}
svg{display:block;font:16px ui-monospace,monospace;overflow:visible}
text{fill:currentColor;text-anchor:middle;dominant-baseline:central;font-weight:700;paint-order:stroke;stroke:var(--back);stroke-width:5px}
line{stroke:currentColor;stroke-width:1.5px}
rect{fill:currentColor;transform:translateX(-.2em)}
circle{fill:none;stroke:currentColor;stroke-width:2px;display:none}
g:hover>circle{display:inline}
g:hover>line{stroke-width:3px}
line.l{stroke:var(--dim);stroke-width:1px}
.h,.s{color:var(--dim)}
text.s{text-anchor:start;font-weight:400}
line.s{stroke-width:.5px;stroke-dasharray:2 4}
.a{opacity:.3;marker-end:url(#h)}
.fresh>.a,.parked>.a,.dropped>.a,.conflict>.a{opacity:1}
.parked>.a{stroke-dasharray:6 4}
.dropped>.a{stroke-dasharray:2 4}
.unsent>.f{opacity:.5;text-decoration:line-through}
.knominate{color:var(--violet)}.kprepare{color:var(--blue)}.kconfirm{color:var(--amber)}.kexternalize{color:var(--green)}.krecords{color:var(--teal)}
.ksets{color:var(--brown)}.kcommands{color:var(--grey)}.kdecisions{color:var(--green)}.klinks{color:var(--grey)}
g.dropped,g.conflict,g.against{color:var(--red)}
body:has(#n1:not(:checked)) :is(.n1,.m1){display:none}
body:has(#n2:not(:checked)) :is(.n2,.m2){display:none}
body:has(#n3:not(:checked)) :is(.n3,.m3){display:none}
body:has(#n4:not(:checked)) :is(.n4,.m4){display:none}
body:has(#n5:not(:checked)) :is(.n5,.m5){display:none}
body:has(#n6:not(:checked)) :is(.n6,.m6){display:none}
body:has(#n7:not(:checked)) :is(.n7,.m7){display:none}
body:has(#n8:not(:checked)) :is(.n8,.m8){display:none}
body:has(#knominate:not(:checked)) g.knominate{display:none}
body:has(#kprepare:not(:checked)) g.kprepare{display:none}
body:has(#kconfirm:not(:checked)) g.kconfirm{display:none}
body:has(#kexternalize:not(:checked)) g.kexternalize{display:none}
body:has(#krecords:not(:checked)) g.krecords{display:none}
body:has(#ksets:not(:checked)) g.ksets{display:none}
body:has(#kcommands:not(:checked)) g.kcommands{display:none}
body:has(#kdecisions:not(:checked)) g.kdecisions{display:none}
body:has(#klinks:not(:checked)) g.klinks{display:none}
</style>
<svg style='height:0'><defs><marker id=h viewBox='0 0 8 8' refX=16 refY=4 markerWidth=8 markerHeight=8 markerUnits=userSpaceOnUse orient=auto>
<path d='M0 1 8 4 0 7z' fill='context-stroke'/></marker></defs></svg>
<h1>A run of nodes</h1>
<p>
";

static LEGEND: &str = "<p>
<label class=knominate><input type=checkbox checked id=knominate>nominate</label>
<label class=kprepare><input type=checkbox checked id=kprepare>prepare</label>
<label class=kconfirm><input type=checkbox checked id=kconfirm>confirm</label>
<label class=kexternalize><input type=checkbox checked id=kexternalize>externalize</label>
<label class=krecords><input type=checkbox checked id=krecords>records</label>
<label class=ksets><input type=checkbox checked id=ksets>sets</label>
<label class=kcommands><input type=checkbox checked id=kcommands>commands</label>
<label class=kdecisions><input type=checkbox checked id=kdecisions>decisions</label>
<label class=klinks><input type=checkbox checked id=klinks>links</label>
<details open><summary>Legend</summary>
<ul>
<li>Each column is a node. Time goes downwards: a number at the edge is a line of the script; below it stand its rounds, of each node what
it did in its turn.
<li>N, P, C, E: the node says a NOMINATE, PREPARE, CONFIRM or EXTERNALIZE, and from there on its column has that colour. Struck through:
nobody was sent it, since its links were shut, or something newer took its place.
<li>A stroke beside a sign: it was sent to that side. An arrowhead points at a small letter, where the message was taken: n, p, c, e, or r of a
record. Full: fresh. Pale: stale, of an old slot, or refused. Dashed to a ?: it waits there. Dotted to an x: it was dropped.
<li>D: decided; point at it for the quorum. A: applied. !: a command. a: asked for a record. +, /: a connection began, ended. q, t, m:
quorum sets, time, a miss. f: a queue was full.
<li>Red: dropped, in conflict with what the same node said before, or decided otherwise than another node.
<li>Point at anything for its line of the script and of the trace. The boxes hide nodes and kinds; a section is a slot, which split if
nodes decided it differently.
</ul>
</details>
";

static STANDS_HEAD: &str = "<h2>Where the nodes stand</h2>
<pre>";

static TAIL: &str = "</pre>
";

/// The beginning of the page, up to the boxes of the nodes.
#[tactic(auto, unfolding(crate::specs::Frame::head))]
pub fn head_text() -> &'static str
    ensures { result.now ≡ head }
{
    HEAD
}

/// The boxes of the kinds, and what the signs mean.
#[tactic(auto, unfolding(crate::specs::Frame::legend))]
pub fn legend_text() -> &'static str
    ensures { result.now ≡ legend }
{
    LEGEND
}

/// The heading before the text where the nodes stand.
#[tactic(auto, unfolding(crate::specs::Frame::stands_head))]
pub fn stands_head_text() -> &'static str
    ensures { result.now ≡ stands_head }
{
    STANDS_HEAD
}

/// The end of the page.
#[tactic(auto, unfolding(crate::specs::Frame::tail))]
pub fn tail_text() -> &'static str
    ensures { result.now ≡ tail }
{
    TAIL
}
