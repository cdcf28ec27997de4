//! The style of a page: on a screen as many columns as fit, on paper two, with three problems in each.

/// The style.
pub(crate) const STYLE: &str = "
:root { font: 16px/1.35 Georgia, 'Times New Roman', serif; color: #000; background: #fff; }
body { margin: 0 auto; padding: 12px; max-width: 1080px; }
h1 { font-size: 1.5rem; margin: 0 0 12px; text-align: center; }
.sheet { display: flex; flex-wrap: wrap; gap: 24px; justify-content: center; }
.problem { width: 320px; max-width: 100%; break-inside: avoid; overflow-wrap: anywhere; }
.problem h2 { font-size: 1rem; margin: 0; }
.problem p { margin: 2px 0; }
.tags { font-size: .875rem; }
.tags:empty { display: none; }
.task { font-weight: bold; text-align: center; }
.refused { font-style: italic; }
svg { display: block; width: 100%; margin: 4px 0; overflow: visible; }
.pictures { position: absolute; width: 0; height: 0; margin: 0; }
.solution { font-size: .875rem; }
.solution svg { max-width: 320px; }
.move, .try { display: inline-block; }
.moves { font-weight: bold; }
.variation { font-weight: normal; }
.live .move { cursor: pointer; }
.live .move:hover { text-decoration: underline; }
.move.shown { background: #ffe08a; }
.frame { fill: none; stroke: #000; stroke-width: .06; }
.dark { fill: #bdb4a2; }
.numbers { font: .2px sans-serif; fill: #000; }
.light, .light-on { fill: #fff; stroke: #000; stroke-width: .05; }
.black, .black-on { fill: #000; stroke: #000; stroke-width: .05; }
.light-on, .black-on { stroke: none; }
.ring-light { fill: none; stroke: #fff; stroke-width: .04; }
.ring-black { fill: none; stroke: #000; stroke-width: .04; }
@page { size: A4; margin: 10mm; }
@media print {
  :root { font-size: 11px; }
  body { padding: 0; max-width: none; }
  .sheet { display: block; orphans: 1; widows: 1; }
  .problem { display: inline-block; vertical-align: top; box-sizing: border-box; width: 49.5%; min-height: 80mm;
    padding: 0 6mm 2mm; }
  h1 { font-size: 1.2rem; margin: 0 0 2mm; }
  .problem svg { width: 50mm; margin: 1mm auto; }
  .problem .tries { max-height: 2.7em; overflow: hidden; }
  .problem .solution { font-size: .8rem; }
  .solutions { orphans: 2; widows: 2; }
  .solutions h1, .solutions h2 { break-after: avoid; }
  .move.shown { background: none; }
}
";
