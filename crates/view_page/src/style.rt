// The style of pictures and pages. The colours are those of Okabe and Ito, which colour-blind people can tell apart. A picture names each
// colour where it is used, since programs that show pictures and are no browsers know no variables of styles.

/// The style of a picture.
pub const STYLE: &str = "
.alone { color-scheme: light dark; }
.strip, .key { font: 11px system-ui, -apple-system, 'Segoe UI', 'DejaVu Sans', sans-serif; }
.paper { fill: #ffffff; }
.strip .place { fill: #57616b; font-size: 9px; }
.strip .heading { fill: #57616b; font-size: 10px; }
.strip .label { fill: #14181d; }
.strip .name { fill: #14181d; font-weight: 600; }
.strip .process .name, .strip .thing .name { font-weight: 400; }
.strip .rejected .label, .strip .broken .label { fill: #b84300; font-weight: 700; }
.answer .line { fill: #14181d; font: 13px ui-monospace, 'DejaVu Sans Mono', monospace; white-space: pre; }
.ground { fill: #f1f3f5; }
.ground-rejected { fill: #b84300; fill-opacity: .14; }
.ground-named { fill: #00684b; fill-opacity: .14; }
.frame { fill: none; stroke: #b84300; stroke-width: 2; }
.ground-after { fill: url(#after); }
.hit { fill: transparent; }
.slot { stroke: #c3cad1; stroke-width: .7; }
.record:hover .hit, .again:hover .hit { fill: #5b6570; fill-opacity: .18; }
.short { stroke: #57616b; stroke-width: 1; }
.bound { stroke: #57616b; stroke-width: 1.5; stroke-dasharray: 2 2; }
.bar .fill { stroke: #ffffff; stroke-width: 1; }
.bar .said { fill: #000000; pointer-events: none; }
.plate { pointer-events: none; }
.strip .small { font-size: 10px; }
.pattern { pointer-events: none; }
.window .fill, .window .plate { fill: #cfe3ef; }
.no-window .fill, .no-window .plate { fill: #e3e3e3; }
.occupied .fill, .occupied .plate { fill: #0072b2; }
.bar.occupied .said, .bar.running .said, .bar.raised .said { fill: #ffffff; }
.idle .fill, .idle .plate { fill: #e3e3e3; }
.normal .fill, .normal .plate { fill: #b5e0d2; }
.other-mode .fill, .other-mode .plate { fill: #f0e442; }
.running .fill, .running .plate { fill: #0072b2; }
.raised .fill, .raised .plate { fill: #0072b2; }
.raised .fill { stroke: #d55e00; stroke-width: 3; }
.ready .fill, .ready .plate, .preempted .fill, .preempted .plate { fill: #9bd3f3; }
.waiting .fill, .waiting .plate { fill: #f3bd55; }
.suspended .fill, .suspended .plate { fill: #dfa6c6; }
.faulted .fill, .faulted .plate { fill: #f2a07a; }
.dormant .fill { fill: #ffffff; stroke: #8b95a0; stroke-dasharray: 3 3; }
.dormant .plate { fill: #ffffff; }
.bar.dormant .said { fill: #57616b; }
.free .fill, .free .plate { fill: #e9e4d8; }
.awaited .fill, .awaited .plate { fill: #f6dca6; }
.mark.tick line { stroke: #000000; stroke-width: 1.5; }
.mark.tick line.halo { stroke: #ffffff; stroke-width: 3.5; }
.mark.dispatch path { fill: #000000; stroke: #ffffff; }
.mark.call circle { fill: #000000; stroke: #ffffff; }
.mark.return circle { fill: #ffffff; stroke: #000000; stroke-width: 1.5; }
.mark.error circle { fill: #b84300; stroke: #ffffff; }
.mark.restart line { stroke: #b84300; stroke-width: 2; stroke-dasharray: 6 3; }
.mark.restart line.halo { stroke: #ffffff; stroke-width: 4; stroke-dasharray: none; }
.mark.lawful rect { fill: #ffffff; stroke: #00684b; stroke-width: 2; stroke-dasharray: 5 3; }
.mark.lawful text { fill: #00684b; font-weight: 700; }
.mark.unlawful rect { fill: #ffffff; stroke: #b84300; stroke-width: 2; }
.mark.unlawful text { fill: #b84300; font-weight: 700; }
.arrow path { fill: none; stroke-width: 2; }
.arrow .halo { stroke: #ffffff; stroke-width: 5; stroke-opacity: .85; }
.arrow.wake .way { stroke: #00684b; marker-end: url(#wake-end); }
.arrow.message .way { stroke: #8b3a73; stroke-dasharray: 7 3; marker-end: url(#message-end); }
#wake-end path { fill: #00684b; }
#message-end path { fill: #8b3a73; }
#after rect { fill: #f1f3f5; }
#after path { stroke: #c3cad1; stroke-width: 3; }
@media screen and (prefers-color-scheme: dark) {
.paper { fill: #14181d; }
.strip .place, .strip .heading { fill: #a3adb8; }
.strip .label, .strip .name, .answer .line { fill: #e9edf1; }
.strip .rejected .label, .strip .broken .label { fill: #ff9a57; }
.ground { fill: #20262d; }
.ground-rejected { fill: #ff9a57; }
.ground-named { fill: #4fd0a5; }
.frame { stroke: #ff9a57; }
.slot { stroke: #46505b; }
.record:hover .hit, .again:hover .hit { fill: #a3adb8; }
.short, .bound { stroke: #a3adb8; }
.bar .fill { stroke: #14181d; }
.raised .fill { stroke: #d55e00; }
.dormant .fill { fill: #14181d; stroke: #76818d; }
.dormant .plate { fill: #14181d; }
.bar.dormant .said { fill: #a3adb8; }
.mark.tick line { stroke: #e9edf1; }
.mark.tick line.halo { stroke: #14181d; }
.mark.dispatch path { fill: #e9edf1; stroke: #14181d; }
.mark.restart line { stroke: #ff9a57; }
.mark.restart line.halo { stroke: #14181d; }
.mark.lawful rect { fill: #14181d; stroke: #4fd0a5; }
.mark.lawful text { fill: #4fd0a5; }
.mark.unlawful rect { fill: #14181d; stroke: #ff9a57; }
.mark.unlawful text { fill: #ff9a57; }
.arrow .halo { stroke: #14181d; }
.arrow.wake .way { stroke: #4fd0a5; }
.arrow.message .way { stroke: #e3a3cd; }
#wake-end path { fill: #4fd0a5; }
#message-end path { fill: #e3a3cd; }
#after rect { fill: #20262d; }
#after path { stroke: #46505b; }
}
";

/// The patterns and the heads of arrows, once for all pictures of a page.
pub const DEFINITIONS: &str = "<defs>
<pattern id=\"stripes\" width=\"7\" height=\"7\" patternUnits=\"userSpaceOnUse\" patternTransform=\"rotate(45)\"><path d=\"M0,0V7\" stroke=\"#000000\" stroke-opacity=\".25\" stroke-width=\"3\"/></pattern>
<pattern id=\"dots\" width=\"6\" height=\"6\" patternUnits=\"userSpaceOnUse\"><circle cx=\"3\" cy=\"3\" r=\".9\" fill=\"#000000\" fill-opacity=\".3\"/></pattern>
<pattern id=\"grid\" width=\"6\" height=\"6\" patternUnits=\"userSpaceOnUse\"><path d=\"M0,0H6M0,0V6\" stroke=\"#000000\" stroke-opacity=\".3\"/></pattern>
<pattern id=\"crosses\" width=\"8\" height=\"8\" patternUnits=\"userSpaceOnUse\"><path d=\"M2,2L6,6M6,2L2,6\" stroke=\"#000000\" stroke-opacity=\".35\"/></pattern>
<pattern id=\"after\" width=\"8\" height=\"8\" patternUnits=\"userSpaceOnUse\" patternTransform=\"rotate(45)\"><rect width=\"8\" height=\"8\"/><path d=\"M0,0V8\"/></pattern>
<marker id=\"wake-end\" viewBox=\"0 0 8 8\" refX=\"7\" refY=\"4\" markerWidth=\"5\" markerHeight=\"5\" orient=\"auto-start-reverse\"><path d=\"M0,0L8,4L0,8z\"/></marker>
<marker id=\"message-end\" viewBox=\"0 0 8 8\" refX=\"7\" refY=\"4\" markerWidth=\"5\" markerHeight=\"5\" orient=\"auto-start-reverse\"><path d=\"M0,0L8,4L0,8z\"/></marker>
</defs>
";

/// The style of a page. In a narrow one, each row of the table is a card, and a strip is first shown at its fault, beside the names of the lanes.
pub const PAGE_STYLE: &str = "
.page { --ink: #14181d; --paper: #ffffff; --soft: #57616b; --ground: #f1f3f5; --line: #c3cad1; --fault: #b84300; --right: #00684b; color-scheme: light dark; }
@media screen and (prefers-color-scheme: dark) { .page { --ink: #e9edf1; --paper: #14181d; --soft: #a3adb8; --ground: #20262d; --line: #46505b; --fault: #ff9a57; --right: #4fd0a5; } }
body.page { margin: 0; padding: 16px 20px 40px; background: var(--paper); color: var(--ink); font: 15px/1.45 system-ui, -apple-system, 'Segoe UI', 'DejaVu Sans', sans-serif; }
h1 { font-size: 22px; margin: 0 0 4px; overflow-wrap: anywhere; }
h2 { font-size: 17px; margin: 22px 0 6px; }
h3 { font-size: 14px; margin: 0 0 2px; color: var(--soft); font-weight: 600; }
p { margin: 0; overflow-wrap: anywhere; }
code, pre { font: 13px/1.45 ui-monospace, 'DejaVu Sans Mono', monospace; }
pre { margin: 8px 0; padding: 10px 12px; border-left: 4px solid var(--fault); background: var(--ground); white-space: pre-wrap; overflow-wrap: anywhere; text-indent: 6ch hanging each-line; }
code.hanging { display: block; }
code.below { text-indent: 8ch hanging each-line; }
code.option { white-space: pre; }
.field { display: inline-block; white-space: nowrap; font: inherit; }
.lawful-run pre { border-left-color: var(--right); }
.figures pre { border-left-color: var(--line); }
.strips { display: flex; flex-wrap: wrap; gap: 14px 18px; align-items: flex-start; }
.piece { max-width: 100%; }
.strip { display: block; flex: none; }
.scrolled { overflow-x: auto; }
.beside { display: flex; width: max-content; position: relative; }
.to-fault { display: flex; position: absolute; left: 0; top: 0; visibility: hidden; }
.to-fault svg { flex: none; }
.target { scroll-initial-target: nearest; }
.names { position: sticky; left: 0; z-index: 1; }
.elsewhere { margin: 8px 0 0; color: var(--soft); font-size: 13px; }
summary { cursor: pointer; }
.size { display: inline-block; margin: 0 4px 8px 0; font-size: 13px; }
.size summary { list-style: none; padding: 0 8px; border: 1px solid var(--line); border-radius: 3px; }
.size[open] summary { background: var(--ground); font-weight: 700; border-color: var(--soft); }
.half[open] ~ .piece .beside, .half[open] ~ .strips .beside { zoom: .5; }
.more[open] ~ .piece .beside, .more[open] ~ .strips .beside { zoom: 1.5; }
.twice[open] ~ .piece .beside, .twice[open] ~ .strips .beside { zoom: 2; }
a { color: inherit; }
tr:target td { border-color: var(--fault); }
.key { display: flex; flex-wrap: wrap; gap: 6px 16px; margin: 10px 0 18px; padding: 0; list-style: none; font-size: 12px; }
.key svg { vertical-align: -5px; margin-right: 5px; }
.key .point { background: var(--ground); border-radius: 3px; }
.key .ground-named, .key .ground-after { stroke: var(--soft); }
table { border-collapse: collapse; font-size: 13px; }
caption { text-align: left; font-weight: 600; padding: 4px 0; }
th, td { border: 1px solid var(--line); padding: 3px 7px; text-align: left; vertical-align: top; }
td { overflow-wrap: anywhere; }
td:nth-child(4), td:nth-child(5) { overflow-wrap: break-word; }
td:nth-child(-n+3) { overflow-wrap: normal; text-align: right; }
th { background: var(--ground); white-space: nowrap; }
tr.rejected td, tr.broken td { background: color-mix(in srgb, var(--fault) 14%, transparent); font-weight: 600; }
tr.after td { color: var(--soft); }
.hidden { position: absolute; width: 0; height: 0; overflow: hidden; }
@media screen and (max-width: 700px) {
body.page { padding: 12px 12px 32px; }
h1 { font-size: 18px; }
p { font-size: 13px; line-height: 1.35; }
code, pre { font-size: 12px; line-height: 1.3; }
pre { margin: 6px 0; padding: 8px 8px; }
.size { margin: 0 2px 4px 0; font-size: 12px; }
.size summary { padding: 0 5px; }
.names { box-shadow: 5px 0 5px -4px var(--soft); }
table, caption, tbody, tr { display: block; }
thead { display: none; }
tr { border: 1px solid var(--line); margin: 0 0 8px; }
td { display: block; border: 0; }
td:nth-child(-n+3) { display: inline-block; }
td:nth-child(1)::before { content: 'place '; }
td:nth-child(2)::before { content: 'core '; }
td:nth-child(3)::before { content: 'time '; }
td:nth-child(3):empty { display: none; }
td:nth-child(5):empty { display: none; }
td:nth-child(5), td:nth-child(6) { border-top: 1px solid var(--line); }
}
@page { size: A4 landscape; margin: 10mm; }
@media print { body.page { padding: 0; font-size: 11px; } .size { display: none; } .piece { break-inside: avoid; } .scrolled { overflow: visible; zoom: .8; } tr { break-inside: avoid; } .strip, .key svg { print-color-adjust: exact; -webkit-print-color-adjust: exact; } }
";
