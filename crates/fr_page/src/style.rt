// How a page looks: on a screen by day and by night, and printed.

pub const STYLE: &str = ":root {
  color-scheme: light dark;
  --page: #fafaf9; --card: #fff; --ink: #1b1d20; --soft: #5c636c; --rule: #e4e5e7; --fill: #f5f6f7;
  --good: #15713a; --bad: #b3261e; --bad-fill: #fdf2f0; --odd: #8a5a00;
  --critical: #c2570c; --suspended: #6b4fbb; --held: #1f6fb2;
}
@media (prefers-color-scheme: dark) {
  :root {
    --page: #131518; --card: #1a1d21; --ink: #e5e7ea; --soft: #9ba3ad; --rule: #2f3339; --fill: #1f2328;
    --good: #5fcb88; --bad: #ff8f85; --bad-fill: #2d1c1b; --odd: #e5b25b;
    --critical: #f0924f; --suspended: #a994f0; --held: #64b0ec;
  }
}
* { box-sizing: border-box; margin: 0; padding: 0; }
body { background: var(--page); color: var(--ink); font: 15px/1.5 system-ui, 'Segoe UI', Roboto, Helvetica, Arial, sans-serif; }
header, main { max-width: 92rem; margin: 0 auto; padding: 0 2rem; }
code, pre, .lanes tbody th { font: 13px/1.5 ui-monospace, SFMono-Regular, Menlo, Consolas, 'DejaVu Sans Mono', monospace; }
code, pre { overflow-wrap: anywhere; white-space: pre-wrap; unicode-bidi: isolate; }
small, .key, .lanes p, .point, dl { font-size: 13px; }
small, header p, h2 + p, .key, .where, .lanes p, .gap, dt, tbody th { color: var(--soft); font-weight: 400; }

header { padding-top: 2.5rem; }
h1 { display: flex; align-items: center; gap: .7rem; margin: .6rem 0 .5rem; font-size: 2.4rem; line-height: 1.1; letter-spacing: -.02em; }
h1 span { display: grid; place-items: center; width: 2.5rem; height: 2.5rem; border: 3px solid; border-radius: 50%; font-size: 1.3rem; }
.good { color: var(--good); }
.bad, strong { color: var(--bad); }
.odd { color: var(--odd); }
header p { max-width: 52rem; }
header .answer { max-width: none; margin-bottom: .4rem; color: var(--ink); }
header pre { margin-top: 1rem; padding: .8rem 1rem; border: 1px solid var(--rule); border-radius: 8px; background: var(--card); }
header ul { display: flex; flex-wrap: wrap; gap: .4rem; margin-top: 1rem; list-style: none; }
header li { padding: .1rem .7rem; border: 1px solid var(--rule); border-radius: 99px; font-size: 13px; }
header .omitted { margin-top: .6rem; }
section { margin: 2.2rem 0 3rem; }
h2 { margin-bottom: .3rem; font-size: 1.3rem; letter-spacing: -.01em; }
h2 + p { max-width: 52rem; margin-bottom: .9rem; }
h3 { font-size: 1rem; }
table { border-collapse: collapse; }
th, td { text-align: left; vertical-align: baseline; }

.actors { columns: 23rem var(--count); column-gap: 1.2rem; max-width: calc(var(--count) * 44rem); }
h2 + .actors { margin-top: .9rem; }
article { margin-bottom: 1.2rem; border: 1px solid var(--rule); border-radius: 10px; background: var(--card); overflow: hidden; break-inside: avoid; }
article summary { padding: .6rem 1rem; }
article h3 { display: inline; }
article table { border-top: 1px solid var(--rule); }
.failing { margin: 0 0 1rem 1.2rem; }
.failing:has(li:nth-child(7)) { columns: 24rem; column-gap: 2.5rem; }
article table { width: 100%; }
article tbody + tbody { border-top: 1px solid var(--rule); }
article th { width: 3rem; padding: .4rem .9rem .4rem 0; text-align: right; font: 13px/1.5 ui-monospace, SFMono-Regular, Menlo, Consolas, 'DejaVu Sans Mono', monospace; }
article td { padding: .4rem 1rem .4rem 0; }
article .point td { padding-top: 0; }
.note + .note::before { content: 'or '; color: var(--soft); }
.fails { background: var(--bad-fill); box-shadow: inset 4px 0 var(--bad); }
article .fails td { padding-top: .4rem; }
.why { margin: .4rem 0 .2rem; padding: .5rem .8rem; border: 1px solid var(--rule); border-radius: 6px; background: var(--card); overflow-wrap: anywhere; }
.why p { padding-left: 1.2em; text-indent: -1.2em; }
.why b { color: var(--soft); font-weight: 400; }
.never, .never .where { color: var(--soft); }

.scroll { isolation: isolate; max-height: 62vh; scroll-margin-top: .6rem; overflow: auto; scroll-padding: 4rem 1rem 1rem 7rem; border: 1px solid var(--rule); border-radius: 10px; background: var(--card); }
.lanes { min-width: 100%; }
.lanes thead th { position: sticky; top: 0; z-index: 2; padding: .6rem .8rem; background: var(--card); box-shadow: inset 0 -1px var(--rule); vertical-align: bottom; }
.lanes thead th:first-child { left: 0; z-index: 3; box-shadow: inset -1px -1px var(--rule); }
.lanes tbody th { position: sticky; left: 0; z-index: 1; padding: .4rem .9rem; background: var(--card); box-shadow: inset -1px 0 var(--rule); white-space: nowrap; }
.lanes td, .lanes thead th + th { min-width: 15rem; border-left: 1px solid var(--rule); }
.lanes td { height: 1px; vertical-align: top; }
.lanes tbody tr:nth-child(even), .lanes tbody tr:nth-child(even) th { background: var(--fill); }
.key { display: inline-block; margin-right: .8rem; }
.key i { display: inline-block; width: 12px; height: 12px; margin-right: .4em; border-radius: 3px; vertical-align: -1px; }
.lane { display: flex; gap: 4px; height: 100%; min-height: 2rem; padding-left: .8rem; }
.lane > i { flex: none; width: 15px; font: 600 10px/1.7 system-ui, sans-serif; text-align: center; color: var(--card); }
.on { background: var(--critical); }
.on.suspended { background: var(--suspended); background: repeating-linear-gradient(135deg, var(--suspended) 0 5px, color-mix(in srgb, var(--suspended) 70%, var(--card)) 5px 8px); }
.on.held { border: 2px solid var(--held); border-width: 0 3px; background: color-mix(in srgb, var(--held) 25%, var(--card)); color: var(--ink); }
.key .held { border-width: 0 3px; }
.first { margin-top: 7px; border-top-left-radius: 5px; border-top-right-radius: 5px; }
.last { border-bottom-left-radius: 5px; border-bottom-right-radius: 5px; }
.does { padding: .4rem .9rem .4rem .3rem; }
.does:first-child { padding-left: 0; }
.does > b { display: none; }
.does code { display: block; padding-left: .8em; text-indent: -.8em; }
.does span { color: var(--soft); }
.breaks, .breaks:first-child { margin: .3rem .5rem .4rem .1rem; padding: .4rem .7rem; border: 1px solid var(--bad); border-radius: 6px; background: var(--bad-fill); }
.breaks strong { display: block; font-size: 13px; }
.event, .event:first-child { margin: .3rem .5rem .4rem .1rem; padding: .3rem .7rem; border: 1px dashed var(--soft); border-radius: 6px; background: none; color: var(--soft); }
.event code { font-size: 12px; }
.gap td { padding: .4rem .9rem; }
.wait td { height: auto; }
.wait .right, .wait .left, .wait .own { padding: .3rem .8rem .5rem; color: var(--bad); }
.wait p { position: relative; padding: 0 1.2rem .2rem; border-bottom: 2px solid; color: var(--bad); text-align: center; }
.wait p::after { position: absolute; bottom: 0; line-height: 0; font-size: 14px; }
.wait .right p::after { content: '\\25B6'; right: -.3rem; }
.wait .left p::after { content: '\\25C0'; left: -.3rem; }
.wait .own p::after { content: '\\21BA'; right: -.3rem; }
.current { outline: 2px solid var(--held); outline-offset: -2px; }
.lanes .current th { box-shadow: inset 3px 0 var(--held), inset -1px 0 var(--rule); }
.still { border: 1px solid var(--rule); border-top: 0; background: var(--card); }
.still p { padding: 0 1rem .6rem; }
.still span { margin-right: 1rem; }
.states { margin-top: 1rem; border: 1px solid var(--rule); border-radius: 10px; background: var(--card); }
.states details { border-top: 1px solid var(--rule); padding-left: 1rem; }
summary { padding: .4rem 1rem; cursor: pointer; font-size: 13px; }
dl { display: grid; grid-template-columns: max-content 1fr; gap: .1rem 1.2rem; padding: .2rem 1rem .7rem; }
dd span { display: inline-block; margin-right: 1rem; }
dd code + span { margin-left: 1rem; }
.player { position: sticky; bottom: 0; max-height: 33vh; margin-top: 1rem; border: 1px solid var(--rule); border-radius: 10px; background: var(--card); box-shadow: 0 -3px 16px rgb(0 0 0 / .13); overflow: auto; }
.player p { padding: .6rem 1rem .3rem; }
button { padding: .15rem .8rem; border: 1px solid var(--rule); border-radius: 6px; background: var(--fill); color: inherit; font: inherit; cursor: pointer; }
button:disabled { opacity: .45; cursor: default; }
output { margin: 0 .8rem; font-weight: 600; white-space: nowrap; }

@media (max-width: 40rem) {
  header, main { padding-left: 1rem; padding-right: 1rem; }
  header { padding-top: 1.2rem; }
  dl { grid-template-columns: fit-content(7rem) 1fr; }
  .player small { display: none; }
}
@page { size: landscape; margin: 12mm; }
@media print {
  :root {
    color-scheme: light;
    --page: #fff; --card: #fff; --ink: #000; --soft: #444; --rule: #bbb; --fill: #f5f5f5;
    --good: #15713a; --bad: #b3261e; --bad-fill: #fdf2f0; --odd: #8a5a00;
    --critical: #c2570c; --suspended: #6b4fbb; --held: #1f6fb2;
  }
  * { -webkit-print-color-adjust: exact; print-color-adjust: exact; }
  body { font-size: 11px; }
  code, pre, small, .key, .lanes p, .lanes tbody th, .point, article th, header li, .breaks strong { font-size: 10px; }
  h1 { font-size: 1.8rem; }
  h1 span { width: 2rem; height: 2rem; font-size: 1rem; }
  section { margin: 1.2rem 0; }
  header, main { max-width: none; padding: 0; }
  .player, .states { display: none; }
  .scroll { max-height: none; overflow: visible; }
  .lanes thead th, .lanes tbody th { position: static; }
  .lanes tbody th, .does { padding: .2rem .4rem; }
  .does code, .lanes p, .does small { font-size: 9px; }
  .lanes td, .lanes thead th + th { min-width: 0; }
  .current { outline: none; }
  .lanes tbody th, .lanes thead th:first-child, .lanes .current th { box-shadow: none; }
  .lanes:has(thead th:nth-child(8)) thead, .lanes:has(thead th:nth-child(8)) .lane > i { display: none; }
  .lanes:has(thead th:nth-child(8)), .lanes:has(thead th:nth-child(8)) tbody { display: block; }
  .lanes:has(thead th:nth-child(8)) tr { display: flex; align-items: baseline; }
  .lanes:has(thead th:nth-child(8)) td { height: auto; border: 0; }
  .lanes:has(thead th:nth-child(8)) td:not(:has(.does, p)) { display: none; }
  .lanes:has(thead th:nth-child(8)) tbody th { flex: none; width: 5rem; }
  .lanes:has(thead th:nth-child(8)) .lane { min-height: 0; }
  .lanes:has(thead th:nth-child(8)) .does > b { display: block; }
  .actors { columns: 19rem 3; max-width: none; }
  article { break-inside: auto; }
  article:has(> details:not([open])) { break-inside: avoid; }
  tr:not(:has(.why)) { break-inside: avoid; }
  h2, h3 { break-after: avoid; }
}
";
