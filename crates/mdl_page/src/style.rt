//! The style of a page.

/// The style of a page, for light and dark schemes, and for paper.
pub const STYLE: &[u8] = b"
:root{color-scheme:light dark;--ground:#fff;--card:#f6f8fa;--edge:#d0d7de;--ink:#1f2328;--dim:#59636e;--mark:#0969da;--wait:#9a6700;--hold:#1a7f37}
@media (prefers-color-scheme:dark){
:root{--ground:#0d1117;--card:#151b23;--edge:#3d444d;--ink:#e6edf3;--dim:#9198a1;--mark:#58a6ff;--wait:#d29922;--hold:#3fb950}
}
*{box-sizing:border-box}
[hidden]{display:none}
html,body{height:100%;margin:0}
body{display:flex;flex-direction:column;background:var(--ground);color:var(--ink);font:14px/1.5 system-ui,sans-serif}
header{display:flex;flex-wrap:wrap;align-items:baseline;gap:0 16px;padding:8px 16px;border-bottom:1px solid var(--edge)}
h1,h2,h3,p,ul,ol,dl,dd{margin:0}
h1,h2{font-size:16px}
h3,summary{font-size:13px;font-weight:600;color:var(--dim)}
header p{color:var(--dim);font-size:13px}
kbd{padding:0 4px;border:1px solid var(--edge);border-radius:4px;font:12px Menlo,Consolas,monospace}
#timeline{flex:0 1 auto;min-height:140px;overflow:auto;display:grid;place-items:start;border-bottom:1px solid var(--edge);scroll-padding:24px 16px 16px 96px}
#timeline:focus,main:focus{outline:none}
#timeline:focus-visible,main:focus-visible{outline:2px solid var(--mark);outline-offset:-2px}
#timeline>svg{grid-area:1/1}
.edge{position:sticky}
.top{top:0}
.left{left:0}
.edge,.chosen{pointer-events:none}
.chosen{fill:var(--mark);fill-opacity:.13}
.now rect{stroke-width:3}
.number.now{fill:var(--mark);font-weight:600}
main{flex:1 0 38%;overflow:auto;padding:8px 16px 16px}
#facts{display:grid;grid-template-columns:minmax(0,1fr) minmax(0,1fr);gap:8px 16px;align-items:start}
#facts>div{display:grid;gap:8px}
.said,#facts>.none{grid-column:1/-1}
section,details{min-width:0;padding:8px 12px;background:var(--card);border:1px solid var(--edge);border-radius:6px;overflow-x:auto;overflow-wrap:break-word}
ul{padding-left:20px}
.said{padding-left:0;list-style:none}
table{width:100%;border-collapse:collapse}
th,td{padding:3px 12px 3px 0;text-align:left;vertical-align:top;border-top:1px solid var(--edge)}
th{color:var(--dim);font-size:12px;font-weight:600;border-top:0}
td,li,dt,pre{font:12px/1.6 Menlo,Consolas,monospace}
ol{padding-left:44px}
ol li{padding-left:4px;color:var(--dim);white-space:pre-wrap}
ol .played{color:var(--ink);cursor:pointer}
ol .now{background:var(--edge);font-weight:600}
dl{display:grid;grid-template-columns:auto 1fr;gap:0 12px;font-size:12px}
.waits{color:var(--wait)}
.holds{color:var(--hold)}
.none{color:var(--dim)}
@media (hover:none) and (pointer:coarse){
#keys{display:none}
}
@media (max-width:800px){
#facts{grid-template-columns:minmax(0,1fr)}
}
@media print{
html,body{height:auto}
body{display:block}
#keys,details{display:none}
#timeline,main{overflow:visible;border:0}
#timeline:focus-visible,main:focus-visible{outline:none}
#timeline svg{max-width:100%;height:auto}
h2,h3{break-after:avoid}
tr,li{break-inside:avoid}
}
";
