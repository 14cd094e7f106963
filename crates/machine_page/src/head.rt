//! The page up to its data: its style, what can be pressed, and the legend.

/// What stands before the data.
pub const HEAD: &str = r#"<!DOCTYPE html>
<html lang="en">
<head>
<meta charset="utf-8">
<meta name="viewport" content="width=device-width, initial-scale=1">
<title>A run, cycle by cycle</title>
<style>
body { margin: 12px; background: #ffffff; color: #1a1a1a; font: 14px/1.4 sans-serif; }
h1 { font-size: 18px; margin: 0 0 8px; }
p { margin: 6px 0; }
#top { position: sticky; top: 0; background: #ffffff; padding: 4px 0; }
#bar { display: flex; flex-wrap: wrap; gap: 10px; align-items: center; }
#cycle { flex: 1 1 240px; }
#reference { width: 6em; }
button, input { font: inherit; }
#now { font-weight: bold; font-variant-numeric: tabular-nums; min-width: 16em; }
#trace { min-height: 1.4em; }
#legend span { display: inline-block; margin-right: 16px; }
svg { display: block; }
svg text { font: 10px sans-serif; fill: #1a1a1a; }
svg .name { font-weight: bold; }
.wire { stroke: #9a9a9a; stroke-width: 1; fill: none; }
.box { fill: #ffffff; stroke: #1a1a1a; }
.combining { stroke-width: 2; }
.place { fill: #ffffff; stroke: #9a9a9a; stroke-width: 0.6; }
.request { fill: #0072b2; }
.reply { fill: #e69f00; }
.waiting { fill: #cc79a7; }
.carries { fill: #ffffff; stroke: #1a1a1a; }
.full { fill: none; stroke: #1a1a1a; stroke-width: 2; }
.served { fill: #009e73; }
.chosen { fill: #f0e442; stroke: #1a1a1a; stroke-width: 2; }
[data-ref] { cursor: pointer; }
</style>
</head>
<body>
<h1 id="title"></h1>
<div id="top">
<div id="bar">
<button id="play">Play</button>
<input id="cycle" type="range" aria-label="Cycle">
<span id="now"></span>
<button id="net"></button>
<label>Reference <input id="reference" placeholder="P.I" size="8"></label>
</div>
<p id="trace"></p>
</div>
<svg id="machine" role="img" aria-label="The machine in one cycle"></svg>
<p id="legend"></p>
<p>Requests go to the right and replies to the left. In a switch, from the top: the requests at output 0, the replies at input 0, the wait buffer, the requests at output 1, the replies at input 1; one with a thick frame may combine. The message that has waited longest stands at the end where it leaves. A processor shows how many references it has issued, how many of these are open, without an answer, the reply that just came and the request that waits to leave. Keys: left and right for a cycle, Home and End for the first and the last one, space to play.</p>
<script type="text/plain" id="run">
"#;
