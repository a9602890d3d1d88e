//! Written by `desk/make.py` from the parts in `desk/`.

/// The page, in HTML.
pub const PAGE: &str = r##"<!DOCTYPE html>
<html lang="en">
<head>
<meta charset="utf-8">
<meta name="viewport" content="width=device-width,initial-scale=1">
<meta name="color-scheme" content="light dark">
<title>Roster book</title>
<link rel="icon" href="data:image/svg+xml,%3Csvg xmlns='http://www.w3.org/2000/svg' viewBox='0 0 16 16'%3E%3Crect width='16' height='16' rx='3' fill='%231d4e80'/%3E%3Cpath d='M3 5h6M6 8h7M3 11h5' stroke='%23fff' stroke-width='2'/%3E%3C/svg%3E">
<style>
:root{color-scheme:light dark;--a:light-dark(#f3f5f8,#10151b);--b:light-dark(#fff,#19202a);--c:light-dark(#d3dae2,#2f3a48);--d:light-dark(#e9edf2,#222b36);--e:light-dark(#16202b,#e7ecf2);--f:light-dark(#536272,#9fadbb);--g:light-dark(#0b5cad,#74b7fb);--h:light-dark(#fff,#0c141d);--i:light-dark(#b5d4f0,#2c547b);--j:light-dark(#4b86bd,#5f96ca);--k:light-dark(#1d4e80,#8cc3f5);--l:light-dark(#f2a65a,#b9752d);--m:light-dark(#a8601b,#e0a465);--n:light-dark(#b4001c,#ff8089);--o:light-dark(#fdecee,#3a1a1f);--p:light-dark(#17743a,#58c97c);--q:light-dark(#e9f6ed,#15301f);--r:light-dark(#fff6dd,#352b10);--s:light-dark(#eef1f5,#151b23);--t:light-dark(#e4effb,#1d3147);--u:11.5rem;--v:2.5rem;--w:3rem;}
*{box-sizing:border-box}
html{font:14px/1.4 system-ui,-apple-system,"Segoe UI",Roboto,"Helvetica Neue",Arial,sans-serif;font-variant-numeric:tabular-nums;background:var(--a);color:var(--e)}
body{margin:0;min-height:100dvh;display:grid;grid-template:var(--w) 1fr / minmax(0,1fr) auto}
body:has(#outbox:not([hidden])){grid-template-rows:var(--w) auto 1fr}
[hidden]{display:none !important}
a{color:var(--g);text-decoration:none}
a:hover{text-decoration:underline}
h1,h2,h3{line-height:1.2;margin:0;font-weight:650}
h1{font-size:1.3rem}
h2{font-size:1.1rem}
h3{font-size:1rem}
p{margin:0}
h1:focus,h2:focus,main:focus,#panel:focus{outline:none}
:focus-visible{outline:2px solid var(--g);outline-offset:1px;border-radius:3px}
bdi{overflow-wrap:anywhere}
code{font-size:.93em;overflow-wrap:anywhere}
button,input,select,textarea{font:inherit;color:inherit}
button{background:var(--b);border:1px solid var(--c);border-radius:6px;padding:.28rem .7rem;cursor:pointer;min-height:2rem}
button:hover{border-color:var(--g)}
button.main{background:var(--g);border-color:var(--g);color:var(--h);font-weight:600}
button.danger{color:var(--n)}
button:disabled{opacity:.5;cursor:default}
button.link{border:0;background:none;padding:0 .3rem;min-height:0;color:var(--g)}
input,select,textarea{background:var(--b);border:1px solid var(--c);border-radius:6px;padding:.28rem .5rem;min-height:2rem;max-width:100%}
input[type=checkbox]{min-height:0;vertical-align:-.1rem}
input[aria-invalid=true]{border-color:var(--n);outline-color:var(--n)}
input[readonly]{background:var(--s)}
textarea{width:100%}
label{display:block;font-weight:600;font-size:.86rem}
label>*{font-weight:400;font-size:1rem}
.utc{font:inherit;font-weight:700;color:var(--g)}
fieldset{border:0;padding:0;margin:0;min-width:0}
legend{font-weight:650;padding:0}
summary{cursor:pointer;font-weight:600}
:is(td,span).num{white-space:nowrap}
.soft{color:var(--f)}
.small{font-size:.86rem}
.bad{color:var(--n)}
.good{color:var(--p)}
.skip{position:absolute;left:-99rem}
.skip:focus{left:.5rem;top:.5rem;z-index:99;background:var(--b);padding:.5rem}
.sr{position:absolute;width:1px;height:1px;overflow:hidden;clip-path:inset(50%);white-space:nowrap}
body>header{grid-column:1 / -1;display:flex;gap:1rem;align-items:center;padding:0 1rem;background:var(--b);border-bottom:1px solid var(--c);position:sticky;top:0;z-index:30}
.brand{font-weight:700;white-space:nowrap}
nav{display:flex;gap:.15rem;align-self:stretch}
nav a{display:flex;align-items:center;gap:.35rem;padding:0 .7rem;color:var(--e);border-block:3px solid transparent;white-space:nowrap}
nav a[aria-current]{border-bottom-color:var(--g);color:var(--g);font-weight:600}
.count{background:var(--d);border-radius:9px;padding:0 .4rem;font-size:.78rem;min-width:3.2em;text-align:center}
.tools{margin-left:auto;display:flex;gap:.5rem;align-items:center}
.tools input{width:13rem}
main{min-width:0;padding:.9rem 1rem 1rem;display:flex;flex-direction:column;gap:.8rem}
main>*{min-width:0}
#panel{width:27rem;max-width:100vw;background:var(--b);border-left:1px solid var(--c);height:calc(100dvh - var(--w));position:sticky;top:var(--w);overflow:hidden auto;padding:.9rem 1rem 3rem}
#panel>.close{float:right;position:sticky;top:0;z-index:2;width:2.2rem;padding:0;margin-left:-2.2rem}
#panel h2{padding-right:2.6rem}
.line{display:flex;gap:.5rem;align-items:center;flex-wrap:wrap}
.line.end{justify-content:space-between}
.line select{max-width:13rem}
.line>input[type=search]{flex:0 1 12rem}
.push{margin-left:auto}
.stack{display:flex;flex-direction:column;gap:.9rem;min-width:0}
.stack:empty{display:none}
.two{display:grid;grid-template-columns:minmax(0,3fr) minmax(0,2fr);gap:.9rem;align-items:start}
.card{background:var(--b);border:1px solid var(--c);border-radius:8px;padding:.8rem .9rem;display:flex;flex-direction:column;gap:.6rem}
.card.flat{padding:0}
.card.tall{max-height:60vh}
details.card{display:block}
details.card>:not(summary){margin-top:.8rem}
td [open]{white-space:normal;width:16em}
#panel .card{border-width:1px 0 0;border-radius:0;padding:.8rem 0 0}
main:has(>.pairing){max-width:62rem}
.tag{border:1px solid var(--c);border-radius:4px;padding:0 .35rem;font-size:.8rem;font-weight:400;white-space:nowrap}
.tag.flown{background:var(--k);color:var(--h);border-color:var(--k)}
.tag.plan{background:var(--i);border-color:var(--j)}
.tag.red{color:var(--n);border-color:var(--n)}
.note{border-left:3px solid var(--c);padding:.15rem 0 .15rem .6rem}
.note.bad{border-color:var(--n);color:inherit}
.note.good{border-color:var(--p);color:inherit}
.note b{font-weight:650}
.empty{padding:2rem 1rem;text-align:center;color:var(--f)}
p.empty.card{display:block}
.below{display:block}
.fields{display:flex;flex-wrap:wrap;gap:.6rem .8rem;align-items:start}
.fields>label{flex:1 1 9rem;max-width:16rem}
.fields>label>:is(input,select){width:100%;display:block}
.hint{display:block;min-height:1.3em;font-size:.82rem !important;color:var(--f)}
.drop{border:2px dashed var(--c);border-radius:10px;padding:1.6rem;text-align:center;background:var(--b)}
.drop.over{border-color:var(--g);background:var(--t)}
.flown-form td{padding:.25rem .4rem .25rem 0}
.flown-form input{width:5.6rem}
.flown-form .hint{max-width:11rem}
.scroll,pre{overflow:auto}
pre{margin:0 0 .6rem}
table{border-collapse:collapse;width:100%;background:var(--b)}
th,td{text-align:left;padding:.38rem .6rem;border-bottom:1px solid var(--d);vertical-align:top}
thead th{font-size:.8rem;color:var(--f);font-weight:600;border-bottom-color:var(--c);white-space:nowrap;position:sticky;top:0;background:var(--b)}
thead button{border:0;padding:0;min-height:0;background:none;font-weight:600;color:inherit}
th[aria-sort] button::after{content:" ▾"}
.wrong{background:var(--o)}
tbody tr.go:hover,tbody tr[aria-selected=true]{background:var(--t)}
ul.plain{list-style:none;margin:0;padding:0;display:flex;flex-direction:column}
.candidate{display:flex;flex-wrap:wrap;justify-content:space-between;gap:.1rem .6rem;padding:.45rem 0;border-top:1px solid var(--d);align-items:center}
.candidate p{flex-basis:100%}
.limits{display:grid;gap:.55rem}
.limit{display:grid;grid-template-columns:minmax(0,1fr) auto;gap:.1rem .8rem}
.limit>.num{min-width:9.8rem;text-align:right}
.limit .meter{grid-column:1 / -1;height:.6rem;background:var(--d);border-radius:3px;overflow:hidden}
.limit .meter i{display:block;height:100%;background:var(--j);border-radius:3px}
.limit .meter.near i{background:var(--l)}
.limit .meter.over i{background:var(--n)}
.limit>small.num{grid-column:1 / -1;color:var(--f);min-height:1.4em;text-align:left}
#told{flex:1;align-self:start;min-width:0;height:0;display:flex;flex-direction:column;gap:.5rem;padding-top:.35rem}
.told{flex:none;background:var(--b);border:1px solid var(--c);border-left:4px solid var(--p);border-radius:8px;padding:.25rem .3rem .25rem .7rem;min-height:2.3rem;box-shadow:0 4px 16px #0003}
.told.no{border-left-color:var(--n)}
.told .line{flex-wrap:nowrap}
.told .line b{flex:1}
.told p{margin:.2rem 0}
#outbox{grid-column:1 / -1;background:var(--r);border-bottom:1px solid var(--c);padding:.4rem 1rem}
dialog{border:1px solid var(--c);border-radius:10px;background:var(--b);color:var(--e);width:min(34rem,calc(100vw - 2rem));padding:1.1rem}
dialog::backdrop{background:#0006}
kbd{border:1px solid var(--c);border-bottom-width:2px;border-radius:4px;padding:0 .35rem;font:inherit;font-size:.86rem}
dl.keys{display:grid;grid-template-columns:auto 1fr;gap:.35rem .9rem;margin:.6rem 0}
dd{margin:0}
.board{height:100dvh}
.board main{min-height:0}
.month{min-width:12.5rem}
.choice{display:inline-flex;border:1px solid var(--c);border-radius:6px;overflow:hidden;background:var(--b)}
.choice label{display:flex}
.choice input{position:absolute;opacity:0;width:1px;min-height:0;padding:0}
.choice span{padding:.32rem .65rem;font-size:.93rem;cursor:pointer}
.choice :checked + span{background:var(--g);color:var(--h)}
.choice :focus-visible + span{outline:2px solid var(--g);outline-offset:-4px}
.legend{display:flex;gap:.9rem;font-size:.82rem;color:var(--f);flex-wrap:wrap}
.legend i{display:inline-block;width:1.3rem;height:.7rem;margin-right:.35rem;vertical-align:-1px;border:1px solid var(--j);border-radius:2px}
.gantt{flex:1;min-height:12rem;overflow:auto;background:var(--b);border:1px solid var(--c);border-radius:8px;position:relative;overscroll-behavior:contain}
.sheet{position:relative;min-width:calc(var(--u) + var(--days) * var(--day,1.5rem));min-height:100%;display:flex;flex-direction:column}
.days,.row,.lanes{display:grid;grid-template-columns:var(--u) 1fr}
.days{position:sticky;top:0;z-index:8;background:var(--b);border-bottom:1px solid var(--c);height:2.6rem}
.days>:first-child,.who,.lanes>:first-child{position:sticky;left:0;z-index:4;background:var(--b);border-right:1px solid var(--c);padding:.25rem .6rem;min-width:0}
.track{position:relative;min-width:0}
.dayname{position:absolute;top:0;bottom:0;text-align:center;font-size:.8rem;line-height:1.15;padding-top:.3rem;border-left:1px solid var(--d);overflow:hidden;white-space:nowrap}
.dayname b{display:block;font-size:.95rem}
.dayname.today b{color:var(--h);background:var(--g);border-radius:9px;width:1.7em;margin:auto}
.weekend{background:var(--s)}
.sheet>.empty{position:relative;z-index:4;background:var(--b)}
.columns{position:absolute;inset:2.6rem 0 0 var(--u);pointer-events:none}
.columns i{position:absolute;top:0;bottom:0;border-left:1px solid var(--d)}
.columns .quarter{border-left-style:dotted}
.columns .now{border-left:2px solid var(--n);z-index:3}
.row{height:var(--v);border-bottom:1px solid var(--d);content-visibility:auto;contain-intrinsic-size:auto var(--v);position:relative}
.who{display:block;color:inherit;line-height:1.15;white-space:nowrap;overflow:hidden;text-overflow:ellipsis}
.who small{color:var(--f);display:flex;justify-content:space-between;gap:.4rem;font-size:.76rem}
.who b{font-weight:650}
.mark{float:right;font-weight:700;margin-left:.2rem;color:var(--p)}
.no .mark{color:var(--n)}
.row.yes .who{box-shadow:inset 4px 0 var(--p)}
.row.no .who{box-shadow:inset 4px 0 var(--n)}
.row.no .track{background:repeating-linear-gradient(135deg,transparent 0 6px,color-mix(in srgb,var(--n) 7%,transparent) 6px 12px)}
.row.over .track{background:var(--q)}
.row.barred .track{background:var(--o)}
.duty{position:absolute;top:calc(.12rem + var(--lane,0) * 1.15rem);height:calc(var(--v) - .3rem);min-height:0;border:0;background:none;padding:0;text-align:left;font-size:.73rem;line-height:1.05rem;border-radius:2px}
.duty span{display:block;white-space:nowrap;height:1.05rem}
.duty i{display:block;height:1.05rem;border-radius:2px;border:1px solid var(--j)}
.duty.tight{height:1.05rem}
.duty.tight span{display:none}
.slim .duty{font-size:.65rem}
.plan i{background:var(--i)}
.flown i{background:var(--k);border-color:var(--k)}
.ground i{background:repeating-linear-gradient(135deg,light-dark(#9aa5b1,#69788a) 0 1px,var(--b) 1px 5px);border-color:var(--f)}
.outside i{background:repeating-linear-gradient(45deg,light-dark(#c97a2b,#e0a465) 0 2px,var(--l) 2px 6px);border-color:var(--m)}
.open i{background:var(--b);border:1px dashed var(--g)}
.open.half i{background:linear-gradient(var(--i) 0 50%,var(--b) 50%)}
.exceeds span{color:var(--n);font-weight:650}
.exceeds span::before{content:"▲";font-size:.62rem}
.exceeds i{border:2px solid var(--n)}
.duty:hover i,.duty.chosen i{box-shadow:0 0 0 2px var(--g)}
.duty:focus-visible{outline-offset:0}
.sheet::after{content:"";flex:1;width:var(--u);position:sticky;left:0;z-index:4;background:var(--b);border-right:1px solid var(--c)}
.lanes{order:1;position:sticky;bottom:0;z-index:9;margin-top:auto;background:var(--b);border-top:2px solid var(--c);max-height:min(11rem,35vh)}
.lanes .track{overflow:auto;scrollbar-width:none;touch-action:pan-x pan-y}
.lanes .duty{height:2.1rem;cursor:grab}
.drag{position:fixed;z-index:50;pointer-events:none;background:var(--g);color:var(--h);border-radius:6px;padding:.2rem .6rem;font-size:.86rem;max-width:24rem;box-shadow:0 3px 10px #0004}
.drag.no{background:var(--n)}
@media (prefers-reduced-motion:no-preference){.duty i{transition:box-shadow .1s}}
@media screen{main,#panel{container-type:inline-size}}
@container (max-width:600px){.cards thead{display:none}.cards,.cards tbody,.cards tr{display:block}.cards tr{border-bottom:1px solid var(--c);padding:.5rem .6rem}.cards td{border:0;padding:.08rem 0;display:flex;justify-content:space-between;gap:.8rem;text-align:right;white-space:normal}.cards td:first-child{font-weight:650;text-align:left}.cards td[data-label]::before{content:attr(data-label);color:var(--f);text-align:left;white-space:nowrap}.cards td:empty{display:none}.duties tr{display:flex;flex-wrap:wrap;column-gap:.9rem}.duties td{width:auto}.duties td:nth-child(1){order:1;flex:1 1 40%}.duties td:nth-child(3){order:2;font-weight:650}.duties td:nth-child(2){order:3;flex:1 1 100%;justify-content:start;text-align:left}.duties td:nth-child(n + 4){order:4;gap:.35rem}.duties td:nth-child(7){order:5;flex-basis:100%}.duties td:is(:nth-child(2),:nth-child(3))::before{display:none}.late{display:block}.segments :is(th,td):nth-child(6){display:none}.flown-form .hint{max-width:6.6rem}}
@container (max-width:1200px){.two{grid-template-columns:minmax(0,1fr)}}
@media screen and (max-width:1300px){#told{position:fixed;top:var(--w);left:50%;translate:-50%;width:min(26rem,100vw - 1rem)}}
@media screen and (max-width:760px){:root{--u:6.4rem;scroll-padding:var(--w) 0 4rem}body{padding-bottom:3.4rem}body>header{padding:0 .7rem;gap:.5rem}.brand{font-size:.93rem}nav{position:fixed;bottom:0;left:0;right:0;background:var(--b);border-top:1px solid var(--c);justify-content:space-around;height:3.4rem;z-index:30}nav a{flex-direction:column;justify-content:center;gap:0;padding:0 .2rem;font-size:.8rem;flex:1;position:relative}nav .count{position:absolute;top:.1rem;right:.3rem;font-size:.7rem}.tools{gap:.35rem;flex:1;min-width:0}.tools input{flex:1;width:3rem}.tools select{max-width:9.5rem;padding-inline:.3rem}#help{display:none}main{padding:.7rem .7rem 1rem}.coming{scroll-margin-top:var(--w)}#panel{position:fixed;inset:var(--w) 0 3.4rem 0;width:100vw;height:auto;z-index:20;border:0}.who small span:last-child,.days .line span,.days br,#shown{display:none}.who small{overflow:hidden}.sheet{--day:2.6rem}.lanes{max-height:6.8rem}.choice span{padding:.32rem .5rem}.line>input[type=search]{flex:1 1 6rem;min-width:6rem}body:not(.board) #told{top:auto;bottom:4rem;height:auto}.count{min-width:1.6em}.legend{gap:.4rem .8rem}}
.printonly{display:none}
@media print{:root{color-scheme:light;--a:#fff}html{font-size:11px}body,.board{display:block;padding:0;height:auto}body>header,#panel,#told,#outbox,.noprint,button:not(thead button,.duty){display:none !important}.printonly{display:block}main,.board main{height:auto;padding:0}.exceedances main,.board main{page:wide}.two{display:block}.two>* + *{margin-top:1rem}.gantt,.scroll{overflow:visible;border:0}.row,tr{break-inside:avoid}.row{content-visibility:visible}thead{display:table-header-group}thead th{position:static}td{font-size:.95em}td bdi{overflow-wrap:normal}i,.tag,.meter{print-color-adjust:exact}}
@page{margin:14mm}
@page wide{size:landscape;margin:12mm}
</style>
</head>
<body>
<header><a class="skip" id="skip" href="#main">To the content</a><span class="brand">Roster book</span><nav aria-label="Screens"><a href="#/board">Board</a><a href="#/open">Open <span class="count" id="openCount">…</span></a><a href="#/exceedances">Exceeded <span class="count" id="exceededCount">…</span></a><a href="#/members">Members</a><a href="#/import">Import</a><a href="#/board" id="mine" hidden>Mine</a></nav><div id="told" aria-live="polite"><div id="lost" class="told no" role="alert" hidden><b>The book doesn’t answer.</b><p>What you see was read before. Is the server running? It is asked again every two seconds.</p></div></div><div class="tools"><input id="find" type="search" list="ids" placeholder="Find" title="Find a member, a pairing or a flight (/)" aria-label="Find a member, a pairing or a flight"><datalist id="ids"></datalist><select id="clock" aria-label="Clock of the times shown"><option>UTC</option></select><button id="again" title="Read the book again (r)" aria-label="Read the book again">↻</button><button id="help" title="Keys (?)" aria-label="Keys and help">?</button></div>
</header>
<div id="outbox" role="status" hidden></div>
<main id="main" tabindex="-1"><p class="empty">Reading the book…</p><noscript><p class="empty">This page needs JavaScript. Without it the reports are there as text: /reports/members, /reports/pairings, /exceedances.</p></noscript>
</main>
<aside id="panel" aria-label="Details" tabindex="-1" hidden></aside>
<datalist id="tasks"><option>Simulator</option><option>Classroom</option><option>Reserve</option><option>Medical</option><option>Office</option><option>Deadhead</option></datalist>
<script type="module">
let $=id=>document.getElementById(id),
cQ=()=>innerWidth<=760,
all=(css,within=document)=>[...within.querySelectorAll(css)],
dX={label:'aria-label',key:'data-key',column:'data-label'}
function set(el,name,value){if(value==null||value===!1)return;if(name==='style')for(const[key,text]of Object.entries(value))el.style.setProperty(key,text);else if(name.startsWith('on'))el.addEventListener(name.slice(2),value);else if(name==='value'||name==='checked')el[name]=value;else el.setAttribute(dX[name]??name,value===!0?'':value)}
function h(name,...parts){let[tag,...classes]=name.split('.'),el=document.createElement(tag);if(classes.length)el.className=classes.join(' ');for(let part of parts.flat(9)){if(part==null||part===!1||part==='')continue;if(typeof part!=='object'||part instanceof Node)el.append(part);else for(const[key,value]of Object.entries(part))set(el,key,value)}return el}
let r=(el,...parts)=>el.replaceChildren(...h('p',parts).childNodes),
bH=(key,within=document)=>within.querySelector(`[data-key="${CSS.escape(key)}"]`)
class aR extends Error{}
let x=z=>{if(!(z instanceof aR))throw z},
ek=60_000,em=600_000,
bT=[[],[],[]],
bb=!1,
cM=()=>bT.flat().length+bb
function fA(rank,signal,job){return new Promise((done,failed)=>{bT[rank].push({signal,job,done,failed});ah()})}
async function ah(){let count=cM();document.documentElement.dataset.asking=count;if(bb||!count)return;let it=bT.find(list=>list.length).shift();bb=!0;try{if(!it.signal?.aborted)it.done(await it.job());else it.failed(new aR('no longer asked'))}catch(z){it.failed(z)}bb=!1;ah()}
let line={isLost:!1,hear(){}}
function fM(isLost){if(isLost===line.isLost)return;line.isLost=isLost;line.hear(isLost)}
function bv(path,{body=null,rank=0,signal}={}){let options=body===null?{}:{method:'POST',body,headers:{'Content-Type':'application/json'}};return fA(rank,signal,async()=>{let X=AbortSignal.timeout(path.startsWith('/imports/')?em:ek);let answer;try{let response=await fetch(path,{...options,signal:X,cache:'no-store',redirect:'error'});answer={status:response.status,text:await response.text()}}catch{}let isThere=answer&&answer.status!==503;fM(!isThere);if(!isThere)throw new aR(path);return answer})}
let t=1440,
at=text=>Date.parse(text)/60000,
v=m=>new Date(m*60000).toISOString().slice(0,16)+'Z',
now=()=>Math.floor(Date.now()/60000),
bS=n=>String(n).padStart(2,'0'),
g=m=>`${m < 0 ? '-' : ''}${Math.floor(Math.abs(m) / 60)}:${bS(Math.abs(m) % 60)}`,
du=m=>(m>0?'+':'')+g(m),
U=(n,one,many=one+'s')=>`${n} ${n === 1 ? one : many}`,
bQ=(list,key)=>list.reduce((total,it)=>total+(it[key]??0),0),
cL=new Map()
function R(key,otherwise=null){try{return JSON.parse(localStorage.getItem('rosterbook.'+key))??otherwise}catch{return cL.get(key)??otherwise}}
function aM(key,value){cL.set(key,value);try{localStorage.setItem('rosterbook.'+key,JSON.stringify(value))}catch{}}
let br='[+-]?\\d{1,3}(?::\\d\\d){0,2}',
ce='(?:[A-Za-z]{3,15}|<[A-Za-z0-9+-]{3,15}>)',
bV=`(M\\d\\d?\\.\\d\\.\\d|J?\\d{1,3})(?:/(${br}))?`,
er=new RegExp(`^${ce}(${br})(?:${ce}(${br})?,${bV},${bV})?$`)
function bf(text){let[hours,minutes=0]=text.replace(/^[+-]/,'').split(':');return (text[0] === '-' ? -1 : 1) * (hours * 60 + +minutes)}
function cs(year,text){let first=Date.UTC(year,0,1)/864e5;if (text[0] === 'J') return first + +text.slice(1) - 1 + (Date.UTC(year, 1, 29) < Date.UTC(year, 2, 1) && +text.slice(1) > 59);if (text[0] !== 'M') return first + +text;let[month,week,aP]=text.slice(1).split('.').map(Number);let begin=Date.UTC(year,month-1,1)/864e5,last=Date.UTC(year,month,0)/864e5;let found=begin+(aP-new Date(begin*864e5).getUTCDay()+7)% 7+7*(week-1);return found>last?found-7:found}
function bm(rule){let found=er.exec(rule);if(!found)return null;let[,west,summerWest,beginDate,beginTime='2',endDate,endTime='2']=found;let standard=-bf(west),summer=summerWest?-bf(summerWest):standard+60;if(!beginDate)return{rule,offset:()=>standard};let offset=m=>{let year=new Date((m+standard)*60000).getUTCFullYear();let begin=cs(year,beginDate)*t+bf(beginTime)-standard;let end=cs(year,endDate)*t+bf(endTime)-summer;return(begin<end?m>=begin&&m<end:m<end||m>=begin)?summer:standard};return{rule,offset}}
let es=[['EST5EDT,M3.2.0,M11.1.0','Eastern'],['CST6CDT,M3.2.0,M11.1.0','Central'],['MST7MDT,M3.2.0,M11.1.0','Mountain'],['MST7','Arizona'],['PST8PDT,M3.2.0,M11.1.0','Pacific'],['AKST9AKDT,M3.2.0,M11.1.0','Alaska'],['HST10','Hawaii'],['AST4','Puerto Rico'],['UTC0','UTC'],]
function dt(zone,month){let m=Date.UTC(new Date().getUTCFullYear(),month,15,17)/60000,there=(m+zone.offset(m))% t;return `${bS(Math.floor(there / 60))}:${bS(there % 60)}`}
let cl=['Sun','Mon','Tue','Wed','Thu','Fri','Sat'],
cd='January February March April May June July August September October November December'.split(' '),
ad=new Map(),
I={base:'UTC'}
function gB(bases){ad.clear();for(let{base,zone}of bases)ad.set(base,bm(zone));I.base=ad.get(R('clock'))?R('clock'):'UTC'}
function cu(base){I.base=base;aM('clock',base)}
let offset=(m,base=I.base)=>ad.get(base)?.offset(m)??0,
K=(m,base)=>new Date((m+offset(m,base))*60000)
function da(year,month,day){let there=Date.UTC(year,month,day)/60000;let both=[there-offset(there-t),there-offset(there+t)];return Math.min(...both.filter(m=>m+offset(m)>=there))}
let be=(m,L,days)=>{let it=K(m);return da(it.getUTCFullYear(),it.getUTCMonth()+(L??0),days==null?1:it.getUTCDate()+days)},
aF=m=>be(m,0,0),
al=(m,n)=>be(m,0,n),
O=m=>be(m,0),
af=(m,n)=>be(m,n),
aP=m=>K(m).getUTCDay(),
dH=m=>cl[aP(m)],
gY=m=>K(m).toISOString().slice(0,10),
ap=m=>`${cd[K(m).getUTCMonth()]} ${K(m).getUTCFullYear()}`,
ak=(m,base)=>K(m,base).toISOString().slice(11,16),
J=(m,base)=>{let it=K(m,base);return `${cl[it.getUTCDay()]} ${it.getUTCDate()} ${cd[it.getUTCMonth()].slice(0, 3)}`},
u=(m,base)=>`${J(m, base)} ${ak(m, base)}`,
aE=(m,base)=>`${J(m, base)} ${K(m, base).getUTCFullYear()} ${ak(m, base)}`,
X=(from,to)=>{let days=Math.round((aF(to)-aF(from))/t);return ak(to)+(days?`\u00a0${days > 0 ? '+' : ''}${days}`:'')},
gF=it=>`${ak(it.begin)} – ${X(it.begin, it.end)}`,
days=it=>{let[first,last]=[J(it.begin),J(it.end)];return `${first === last ? first : `${first} – ${last}`} ${K(it.end).getUTCFullYear()}`},
Y=()=>I.base==='UTC'?'UTC':`local time of ${I.base}`
function co(begins,today){if(!begins.length||begins.some(m=>O(m)===O(today)))return O(today);return O(begins.reduce((a,b)=>Math.abs(b-today)<Math.abs(a-today)?b:a))}
async function report(path,rank,signal){let{status,text}=await bv('/json'+path,{rank,signal});if(status!==200)throw new Error(`${path}: ${status}`);return JSON.parse(text)}
let dr=it=>({...it,out:at(it.out),in:at(it.in)}),
dD=it=>({report:at(it.report),release:at(it.release),segments:it.segments?.map(dr)})
function dj(it){let plan=dD(it),flown=it.actual&&dD(it.actual),{report:begin,release:end}=flown??plan;return{period:it.period,fdp:it.fdp,flight:it.flight,plan,flown,begin,end}}
function bM(it){let periods=it.periods.map(dj);return{pairing:it.pairing,seats:{captain:it.captain,'first officer':it.first_officer},periods,begin:periods[0].begin,end:periods.at(-1).end,isFlown:periods.some(p=>p.flown),}}
let fw=it=>it[it.kind],
cE=it=>it.kind==='pairing'?`${it.pairing}/${it.period}`:it.kind==='outside'?`outside ${it.outside}`:it.ground,
named=it=>({kind:it.kind,id:fw(it),name:cE(it),key:`${it.kind} ${cE(it)}`})
function fc(crew,it){let times=it.kind==='pairing'?dj(it):{fdp:it.fdp,flight:it.flight,segments:it.segments?.map(dr)};return{...times,...named(it),crew,task:it.task,begin:at(it.begin),end:at(it.end),exceeds:[...new Set(it.exceeds)]}}
let cD=({crew,duties})=>duties.map(it=>fc(crew,it)).sort((a,b)=>a.begin-b.begin||a.end-b.end),
A={async count(rank){return(await report('/count',rank)).count},async members(rank){return report('/reports/members',rank)},async pairings(rank){return(await report('/reports/pairings',rank)).pairings.map(bM)},async pairing(id,rank,signal){return bM(await report('/pairings/'+id,rank,signal))},async roster(crew,rank,signal){return cD(await report('/crew/'+crew,rank,signal))},async board({from,to},rank,signal){let day=m=>v(m).slice(0,10),{bases,members,open}=await report(`/board/${day(from)}/${day(to - 1)}`,rank,signal);return{bases,members,open:open.map(bM),board:{from,to,duties:new Map(members.map(it=>[it.crew,cD(it)]))}}},async request(number,part){return(await report('/requests/'+number)).parts.find(it=>it.part===part)},async exceedances(rank){return(await report('/exceedances',rank)).exceedances.map(it=>({...it,...named(it)}))},async limits(crew,pairing,rank,signal){let{limits}=await report(`/reports/limits/${crew}${pairing ? '/' + pairing : ''}`,rank,signal);return limits.map(it=>({...it,from:it.from&&at(it.from)}))},},
ay=['captain','first officer'],
f={bases:[],members:[],pairings:[],exceedances:[],isListed:!1,board:{},rosters:new Map(),details:new Map(),count:NaN,window(){},recount(){},begin(){},redraw(held,isAnew){},},
members=new Map(),pairings=new Map(),ag=new Map(),
ao=crew=>members.get(crew),
D=crew=>members.get(crew)?.name??'',
T=id=>pairings.get(id),
aI=duty=>ag.get(`${duty.crew} ${duty.key}`)??[],
cr=(list,key)=>new Map(list.map(it=>[it[key],it]))
async function gi(){let count=await A.count(1),days=f.window();au(await(days?A.board(days,1):A.members(1)));if(f.window()?.isSure!==!1)f.begin();let[plans,exceedances]=await Promise.all([A.pairings(1),A.exceedances(1)]);dz(plans);ag=new Map();for(let{crew,key,section}of exceedances){ag.set(`${crew} ${key}`,[...new Set([...aI({crew,key}),section])])}Object.assign(f,{exceedances,isListed:!0});let E=f.window();if(E&&!bE(E))au(await A.board(E,1));f.count=count;f.recount();f.begin()}
function dz(plans){f.pairings=plans.sort((a,b)=>a.begin-b.begin||(a.pairing<b.pairing?-1:1));pairings=cr(plans,'pairing')}
function au({bases,members:people,board={},open=[]}){Object.assign(f,{bases,members:people,board});members=cr(people,'crew');if(!f.isListed)dz(open);gB(bases);f.recount()}
async function gh({from:begin,to:end},stop){if(!bE({begin,end}))au(await A.board(f.window(),1,stop))}
let bE=it=>f.board.from<=it.begin&&it.end<=f.board.to
async function ai(crew,rank=0,signal){if(!f.rosters.has(crew))f.rosters.set(crew,await A.roster(crew,rank,signal));return f.rosters.get(crew)}
async function aG(id,signal){if(!f.details.has(id))f.details.set(id,await A.pairing(id,0,signal));return f.details.get(id)}
async function cw(crew,E,given,signal){let duties=E.every(bE)?f.board.duties.get(crew):await ai(crew,0,signal);return duties.find(duty=>duty.id!==given&&E.some(it=>duty.begin<it.end&&it.begin<duty.end))}
let aT='[data-typed]:not([data-sent] *)',
ca='[data-typed], .flown-form, .extra > *, [open]:not(section > *), section > [type=search]:not(:placeholder-shown)',
aa=!0
async function ac({held='[data-typed]',own,touched}={}){let before=f.count,isAnew=!aa;aa=!1;try{await gi();for(let read of[f.rosters,f.details])for(const id of f.count-before===own?touched:read.keys())read.delete(id);await f.redraw(held,isAnew)}catch(z){x(z)}}
let Z=it=>ay.filter(seat=>!it.seats[seat]),
bJ=()=>f.pairings.filter(it=>Z(it).length&&!it.isFlown),
ep=12_000,
bn='.told:not(#lost)'
function dA(isGood,title,...parts){let close=h('button.link.push',{label:'Close the message',title:'Close (Esc)',onclick:()=>box.remove()},'✕');let isButton=it=>it?.tagName==='BUTTON',box=h('div',{class:isGood?'told':'told no',role:isGood?'status':'alert'},h('div.line',h('b',title),parts.filter(isButton),close),parts.filter(it=>!isButton(it)));$('told').append(box);if(isGood)setTimeout(()=>box.remove(),ep)}
function P(isGood,...parts){cy(isGood?bn:bn+'.no');dA(isGood,...parts)}
function cy(css=bn){let list=all(css);for(let it of list)it.remove();return list.length>0}
let who=crew=>`${D(crew)} (${crew})`,
en={'add-base':it=>[`The base ${it.base}`,'is there','was not added'],'add-crew':it=>[`${it.name} (${it.crew})`,'is a member','was not added'],'add-pairing':it=>[`Pairing ${it.pairing}`,'is in the book','was not added'],'cancel-pairing':it=>[it.pairing,'is cancelled','was not cancelled'],assign:it=>[who(it.crew),`flies ${it.pairing}`,`was not assigned to ${it.pairing}`],release:it=>[who(it.crew),`doesn’t fly ${it.pairing}`,`was not released from ${it.pairing}`],swap:it=>[who(it.crew),`flies ${it.other_pairing}, ${who(it.other_crew)} flies ${it.pairing}`,`and ${who(it.other_crew)} didn’t swap ${it.pairing} and ${it.other_pairing}`],'add-ground':it=>[who(it.crew),`has ${it.task} (${it.ground})`,`was not given ${it.task} (${it.ground})`],'cancel-ground':it=>[it.ground,'is cancelled','was not cancelled'],actual:it=>[`Flown times of ${it.pairing}/${it.period}`,'are recorded','were not recorded'],'record-outside':it=>[`Flying ${it.outside} of ${who(it.crew)} for another airline`,'is recorded','was not recorded'],}
function ar(command){let[what,done,refused]=en[command.do](command);return{words:`${what} ${done}`,refused:`${what} ${refused}`}}
let ab=(to,...parts)=>h('a',{href:'#/'+to},parts),
bd=crew=>h('span',ab('member/'+crew,h('bdi',D(crew)||crew)),h('span.soft.small',` ${crew}`)),
tag=isFlown=>h('span',{class:isFlown?'tag flown':'tag plan'},isFlown?'flown':'planned'),
cG=it=>it.kind==='outside'?`flies for another airline (${it.id})`:it.kind==='ground'?`has ${it.task} (${it.id})`:`has ${it.name}`,
bO=plans=>plans.flatMap((p,n)=>p.segments.flatMap((s,k)=>n||k?[s.to]:[s.from,s.to])).join('–'),
dq=seat=>seat==='captain'?'Captain':'First officer',
aD=(...cells)=>h('tr',cells.map(cell=>h('td',cell))),
aj=(css,title,names,...rows)=>h('table'+css,h('caption.sr',title),h('thead',h('tr',names.map(name=>h('th',{scope:'col'},name)))),h('tbody',rows)),
av=field=>field.value.trim().toUpperCase(),
bo='An id has only A-Z, 0-9 and -, at most 12 of them.',
bh=()=>h('p.soft','Reading…'),
aY=(...parts)=>h('p.empty.card',parts)
function bi(options,value,attributes){return h('select',attributes,options.map(([key,text])=>h('option',{value:key,selected:key===value},text)))}
function dE(text,question,then,attributes){let timer=0;let aC=()=>{timer=0;button.textContent=text};let V=()=>{if(timer){clearTimeout(timer);aC();return then()}button.textContent=question;timer=setTimeout(aC,5000)};let button=h('button.danger',{type:'button',...attributes,onclick:V},text);return button}
function bN(word,make,count=1){let list=[],rows=h('div.stack');let less=h('button',{type:'button',onclick:()=>{list.pop().box.remove();less.hidden=list.length<2}},`Remove the last ${word}`);let more=()=>{let it=make(list,list.length);list.push(it);rows.append(it.box);less.hidden=list.length<2};while(list.length<count)more();return{list,box:h('div.stack',rows,h('div.line',h('button',{type:'button',onclick:more},`One more ${word}`),less))}}
let ae='pairing,period,report,release,flight,from,out,to,in',
eb=1_000_000,ec=9_999
function gn(text){let records=[],whole=text.replace(/^\ufeff/,'').replace(/\r\n?/g,'\n')+'\n';let record=[],field='',isQuoted=!1,isThere=!1;for(let k=0;k<whole.length;k++){let sign=whole[k];if(isQuoted){if(sign!=='"')field+=sign;else if(whole[k+1]==='"')field+=whole[k++];else isQuoted=!1}else if(sign==='"'&&!field)isQuoted=isThere=!0;else if(sign!==','&&sign!=='\n')field+=sign;else{if(sign===','||field||isThere)record.push(field);isThere=sign===',';field='';if(sign==='\n'&&record.length)records.push(record.splice(0))}}return records}
let dQ=/^\d{4}-\d\d-\d\dT\d\d:\d\d(:00)?Z$/,bZ=/^[A-Z0-9]{1,8}$/,aS=/^[A-Z0-9]{3,4}$/,
az={test:text=>dQ.test(text)&&!isNaN(at(text))&&v(at(text)).slice(0,16)===text.slice(0,16)},
ck=[/^[A-Z0-9-]{1,12}$/,/^([1-9]|10)$/,az,az,bZ,aS,az,aS,az],
bY='P1,1,2025-06-10T11:00Z,2025-06-10T20:00Z,RB1,BOS,2025-06-10T12:00Z,IAD,2025-06-10T19:30Z'
function cH(record,isShown){if(!record.join('').trim())return 'it is an empty line: take it out';if(record.length!==9)return `it has ${U(record.length, 'field')}, not nine`;let n=record.findIndex((text,k)=>(!isShown||ck[k]===az)&&!ck[k].test(text));return n<0?null:`${ae.split(',')[n]} “${record[n]}” isn’t one such as ${bY.split(',')[n]}`}
function gX(periods){for(let{flight,from,to}of periods.flatMap(p=>p.segments))for(let[name,text,shape]of[['Flight',flight,bZ],['From',from,aS],['To',to,aS]])if(!shape.test(text))return[name,text]}
let gH=record=>({id:record[0],records:[],begin:at(record[2]),end:0,ports:[record[5]],periods:new Set()})
function gj(text){let[header,...records]=gn(text),pairings=[],faults=[];if(header?.join()!==ae)return null;records.forEach((record,n)=>{let fault=cH(record,!0);record.line=n+2;if(fault)return faults.push([record,fault]);if(pairings.at(-1)?.id!==record[0])pairings.push(gH(record));let it=pairings.at(-1);it.records.push(record);it.end=Math.max(it.end,at(record[3]));it.ports.push(record[7]);it.periods.add(record[1])});return{pairings,faults}}
function eU({id,records}){let periods=[];records.forEach(([,period,report,release,flight,from,out,to,end],n)=>{if(period!==records[n-1]?.[1])periods.push({report,release,segments:[]});periods.at(-1).segments.push({flight,from,out,to,in:end})});return{do:'add-pairing',pairing:id,periods}}
let gg=field=>/[",\n]/.test(field)?`"${field.replaceAll('"', '""')}"`:field,
fK=pairing=>pairing.records.map(record=>record.map(gg).join()+'\n').join('')
function gD(pairings){let sheets=[];for(let pairing of pairings){let lines=fK(pairing),bytes=new TextEncoder().encode(lines).length,last=sheets.at(-1);if(last&&last.bytes+bytes<=eb&&last.pairings.length<ec){last.pairings.push(pairing);last.bytes+=bytes;last.csv+=lines}else sheets.push({pairings:[pairing],bytes:bytes+ae.length+1,csv:`${ae}\n${lines}`})}return sheets}
let aU=7*t,
ax={'117.11(a)(1)':['Flight time of one period (Table A)','flight time','table'],'117.13(a)':['Flight duty period (Table B)','the flight duty period','table'],'117.23(b)(1)':['Flight time in 28 days','flight time in the 28 days',28],'117.23(b)(2)':['Flight time in 365 days','flight time in the 365 days',365],'117.23(c)(1)':['Flight duty in 7 days','flight duty in the 7 days',7],'117.23(c)(2)':['Flight duty in 28 days','flight duty in the 28 days',28],'117.25(b)':['30 consecutive hours free in 168','the longest free time in the 168 hours before','rest'],'117.25(e)':['Rest before a report','the rest before','rest'],},
bq=Object.keys(ax),
S=section=>ax[section][0],
aL=section=>ax[section][2]==='rest',
bU=it=>it.duty?'':it.from==null?'before 2000':`from ${aE(it.from)}`,
dp=m=>m<aU?g(m):'7 days or more'
function cY(it){let[,words,kind]=ax[it.section],used=g(it.minutes),limit=g(it.limit);if(kind==='rest')return `${words} ${it.duty} is ${used}, and must be at least ${limit}`;if(kind==='table')return `${words} of ${it.duty} is ${used}, and may be at most ${limit}`;return `${words} ${bU(it)} is ${used}, and may be at most ${limit}`}
function bC(it,name){let rest=aL(it.section),over=rest?it.limit-it.minutes:it.minutes-it.limit;if(over<=0)return{isWithin:!0,text:`within ${g(it.limit)} now`};let where=it.duty!==name&&(it.duty?`before ${it.duty}`:bU(it));return{isWithin:!1,text:[g(over),rest?'short of':'over',g(it.limit),where].filter(Boolean).join(' ')}}
let fN=({section,from},duty)=>from<=duty.end&&duty.begin<from+ax[section][2]*t
function gp(duties,m){let last=m-aU,longest=0;for(let{begin,end}of duties){if(begin>=m)break;longest=Math.max(longest,begin-last);last=Math.max(last,end)}return{'117.25(b)':Math.max(longest,m-last),'117.25(e)':Math.max(0,m-last)}}
function db({section,limit},duties,duty){let X=duty.end+(section==='117.25(b)'?aU:limit);return duties.filter(it=>it.fdp!=null&&it.begin>=duty.begin&&it.begin<X).map(it=>({section,limit,duty:it.name,minutes:gp(duties,it.begin)[section]})).sort((a,b)=>a.minutes-b.minutes)[0]}
let bp={1:['Another command has this number.','Nothing was done. Try again.'],2:['There is no such member.','Look under Members: the id may be misspelt.'],3:['A member has this id already.','For the same person there is nothing to do. For another choose another id.'],4:['There is no such pairing.','It may have been cancelled, or its id is misspelt.'],5:['A pairing has this id already.','For the same plan there is nothing to do. For new times free its seats, cancel the pairing, and add it again. For another pairing choose another id.'],6:['The seat is taken.','Release the member who has it, or swap.'],7:['A captain and a first officer can’t swap.','Swap two captains, or two first officers.'],8:['Nobody has that seat.','Flown times need both seats: assign those who flew first.'],9:['Somebody still has a seat.','Free its seats first.'],10:['The pairing is flown.','It stays. Other flown times correct it.'],11:['The member has another duty at that time.','Take another member, or free this one.'],12:['It would break a limit.','Take another member, or other times.'],13:['The pairing has no such period.','Periods count from 1.'],14:['A ground duty has this id already.','Choose another id.'],15:['There is no such ground duty.','It may have been cancelled already.'],16:['The times are out of order.','Report, Out and In of each segment, and Release follow one another, as do Begin and End. After midnight the date is another one.'],17:['A segment doesn’t depart from where the one before arrived.','Correct From and To.'],18:['A text has a sign that it may not have, or it is empty or too long.','Ids are of A-Z, 0-9 and -, up to 12. Flights and airports have no -. Names and tasks may have any letters, up to 60 bytes.'],19:['The number of segments or periods is wrong.','A pairing has 1 to 10 periods, a period 1 to 12 segments. Flown times have as many segments as the plan.'],20:['There is no such base.','Add the base under Members first.'],21:['A base has this id already.','If it has the zone that you mean, there is nothing to do. Else choose another id.'],22:['Another member’s flying has this id.','Choose another id, such as one that begins with the member’s.'],30:['The schedule can’t be read.','Correct the record, and hand in the schedule again.'],31:['Something is missing, or has a value that it may not have.','Correct it, and send it again.'],90:['The book’s file failed.','Start the server anew. The command is kept here, and sent again.'],91:['The machine has no memory left.','The command is kept here, and sent again.'],},
aw=answer=>bp[answer.refusal]?.[0]??`The server’s answer is ${answer.status}.`,
cO=number=>h('p',bp[number].join(' ')),
ew={crew:'Id',base:'Id',ground:'Id',outside:'Id',segments:'Out or In',periods:'Flight, From, To or a time'},
ez={3:'crew',5:'pairing',14:'ground',21:'base',22:'outside'}
function dF(field,command){let isText=typeof command[field]==='string',name=ew[field]??field[0].toUpperCase()+field.slice(1);return field==='periods'&&gX(command.periods)||[name,isText?command[field]:null]}
function fm(field,command){let[name,text]=dF(field,command);return name+(text==null?'':` “${text}”`)}
function gW(answer,command,form){let field=answer.field??ez[answer.refusal],[name,text]=field?dF(field,command):[];return all('input',form).find(it=>it.value.trim().toUpperCase()===text?.trim().toUpperCase()&&it.labels[0]?.textContent.startsWith(name))}
let cX=(text,section)=>h('p.bad',text,h('span.soft',` (${section})`)),
cJ=({begin,end})=>({begin:at(begin),end:at(end)})
async function fJ(command,crew,sections){if(command.do==='assign')return(await A.limits(crew,command.pairing)).filter(it=>it.exceeds);if(command.do!=='add-ground')return[];let duty=cJ(command),limits=await A.limits(crew);let duties=[...await ai(crew),duty].sort((a,b)=>a.begin-b.begin);return limits.filter(it=>sections.includes(it.section)).map(it=>db(it,duties,duty)).filter(it=>it?.minutes<it.limit)}
async function aB(command,crew,sections){let limits=await fJ(command,crew,sections).catch(x);return limits?.length?limits.map(it=>cX(cY(it),it.section)):sections.map(it=>cX(S(it),it))}
async function fz({do:verb,crew,pairing,other_crew,other_pairing,...ground}){let line=async(who,gained,given)=>{let duty=await cw(who,gained?(await aG(gained)).periods:[cJ(ground)],given);return duty&&h('p.bad',h('bdi',D(who)),` (${who}) ${cG(duty)}, ${u(duty.begin)} to ${u(duty.end)}, ${Y()}.`)};let lines=verb==='swap'?[line(crew,other_pairing,pairing),line(other_crew,pairing,other_pairing)]:[line(crew,pairing)];return(await Promise.all(lines)).filter(Boolean)}
async function aZ(answer,command={}){let more=[answer.field&&`It is about ${fm(answer.field, command)}.`,answer.period&&`Period ${answer.period}.`];let box=h('div',h('p',[aw(answer),...more.filter(Boolean)].join(' ')));for(let crew of new Set(answer.limits?.map(it=>it.crew))){let sections=answer.limits.filter(it=>it.crew===crew).map(it=>it.section);box.append(h('p',h('bdi',D(crew)),` (${crew}):`),...await aB(command,crew,sections))}if(answer.refusal===11)box.append(...await fz(command).catch(x)??[]);let advice=bp[answer.refusal]?.[1];if(advice)box.append(h('p.soft',advice));return box}
let eA=4,ey=30,
dR=100
function cI(){let[random]=crypto.getRandomValues(new Uint32Array(1));return Date.now()*1000+random % 1000}
function fg(number){let ms=Number(number)/1000;return ms>1.7e12&&ms<4e12?ms/60000:null}
let aq=()=>R('outbox',[])
function bP(list){aM('outbox',list);bB()}
let fC=it=>aq().some(other=>other.number===it.number),
done=it=>bP(aq().filter(other=>other.number!==it.number)),
cT=()=>R('journal',[]),
aO=0,wake=()=>{},
gE=seconds=>new Promise(awake=>{wake=awake;setTimeout(awake,seconds*1000)})
async function cz(it){while(fC(it)){try{let{status,text}=await bv(it.path,{body:it.body});let answer={status,...JSON.parse(text)};aO=0;done(it);let words=answer.result==='refused'?it.refused:it.words;aM('journal',[{number:it.number,words,result:answer.result??'answered'},...cT()].slice(0,dR));return answer}catch(z){if(!(z instanceof aR))throw z;aO=Math.min(ey,aO*2||1);bB();await gE(aO)}}return{result:'forgotten'}}
async function dk(make,words){let answer;for(let tries=0;tries<eA;tries++){let number=cI(),it={number,...words,at:Date.now(),...make(number)};bP([...aq(),it]);answer=await cz(it);if(answer.refusal!==1)break}return answer}
let bj=command=>dk(number=>({path:'/requests',body:JSON.stringify({number,...command})}),ar(command)),
gy=(csv,words)=>dk(number=>({path:`/imports/${number}`,body:csv}),{words,refused:words})
async function aW(commands,signal){let body=commands.map(it=>JSON.stringify({number:cI(),...it})).join('\n');return JSON.parse((await bv('/lines/checks',{body,signal})).text).answers}
function gx(hear){for(let it of aq())cz(it).then(answer=>hear(it,answer))}
let eE='Forget these commands? They may have been done all the same: look at the roster before you enter them anew.'
function fu(){if(!confirm(eE))return;bP([]);wake()}
let G=0
function bB(){let list=aq().filter(it=>aO||Date.now()-it.at>400),box=$('outbox');clearTimeout(G);if(!list.length&&aq().length)G=setTimeout(bB,500);box.hidden=!list.length;if(!list.length)return r(box);r(box,h('div.line',h('b',`${U(list.length, 'command')} without an answer yet.`),h('span',`${list.map(it => it.words).join('; ')}. Kept here, also over a reload, and sent again under the same number: it is done once.`),h('button',{onclick:()=>wake()},'Send now'),h('button.danger',{onclick:fu},'Forget')))}
function gO({pairing,other_pairing,crew,other_crew},answer){let ids=[pairing,other_pairing];return[...ids,crew,other_crew,...(answer.exceedances??[]).map(it=>it.crew),...ids.flatMap(id=>Object.values(T(id)?.seats??{}))]}
let dm=answer=>answer.exceedances?.length>0&&h('p.bad','On record: ',answer.exceedances.map(it=>`${it.crew} exceeds ${it.section}, ${S(it.section)}`).join('; '),'.'),
dB=async(answer,command)=>P(!1,`${ar(command).refused}:`,await aZ(answer,command)),
dG=undo=>h('button',{onclick:e=>{e.target.closest('.told').remove();undo()}},'Undo')
async function H(command,undo){let form=document.activeElement.closest('form'),answer=await bj(command);if(w(answer))P(!0,ar(command).words+'.',dm(answer),undo&&dG(()=>H(undo,command)));else if(answer.result!=='forgotten'){await dB(answer,command);if(form)gW(answer,command,form)?.focus()}await ac({held:w(answer)?aT:undefined,own:+w(answer),touched:gO(command,answer)});return w(answer)}
let w=answer=>answer.result==='accepted',
assign=(crew,pairing)=>H({do:'assign',pairing,crew},{do:'release',pairing,crew}),
release=(crew,pairing)=>H({do:'release',pairing,crew},{do:'assign',pairing,crew}),
swap=command=>H(command,{...command,crew:command.other_crew,other_crew:command.crew})
async function replace(holder,crew,pairing){let first={do:'release',pairing,crew:holder},command={do:'assign',pairing,crew},answer=await bj(first);let second=w(answer)&&await bj(command),{words,refused}=ar(command),name=`${D(holder)} (${holder})`;if(!second)await dB(answer,first);else if(w(second))P(!0,`${words}, in place of ${name}.`,dG(()=>replace(crew,holder,pairing)));else{let back=await bj({do:'assign',pairing,crew:holder});P(!1,`${refused}:`,await aZ(second,command),h('p',w(back)?`${name} has the seat as before.`:'The seat is free now.'))}return ac({held:aT})}
function gw(){gx((it,answer)=>{if(answer.result==='forgotten')return;let isGood=answer.parts||w(answer);dA(isGood,isGood?`${it.words}.`:`${it.refused ?? it.words}:`,!isGood&&h('p',aw(answer)),h('p',`It was sent again under its number ${it.number}${isGood ? ', so it was done once' : ''}.`));ac()})}
function am(){let text;try{text=decodeURIComponent(location.hash.slice(2))}catch{text=''}let[screen,panel]=text.split('+');return{screen:screen.split('/'),panel:panel?panel.split('/'):null}}
let Q=to=>{location.hash='#/'+to},
aV=panel=>`#/${am().screen.join('/')}+${panel}`,
cF=it=>it.kind==='pairing'?`pairing/${it.id}`:`${it.kind}/${it.crew}/${it.id}`,
bz=()=>Q(am().screen.join('/')),
C={pairing:null,verdicts:new Map(),draw(){}}
function dw(pairing){by();C.pairing=pairing}
function gz(pairing,crew,verdict){if(pairing!==C.pairing)return;C.verdicts.set(crew,verdict);C.draw(crew)}
function by(){let crews=[...C.verdicts.keys()];C.pairing=null;C.verdicts.clear();crews.forEach(C.draw)}
let dN=8,
eS=async(crew,pairing,signal)=>cw(crew,(await aG(pairing,signal)).periods,null,signal),
dg=clash=>({ok:!1,tag:'overlap',text:`${clash ? cG(clash) : 'has another duty'} then`})
function fT(limits){let of=section=>limits.find(it=>it.section===section),used=({minutes,limit})=>`${g(minutes ?? 0)} of ${g(limit)}`;let month=of('117.23(b)(1)'),rest=of('117.25(e)').minutes,least=rest==null?'':`, least rest ${dp(rest)}`;let text=`With it: flight in 28 days ${used(month)}, flight duty in 7 days ${used(of('117.23(c)(1)'))}${least}`;return{ok:!0,month:month.minutes??0,text}}
let eM=limits=>({ok:!1,tag:limits.map(it=>it.section).join(' '),text:limits.map(cY).join('; ')})
function gR(answer){if(answer.result==='accepted')return{ok:!0,month:0,text:'…'};if(answer.refusal===11)return dg();if(answer.refusal!==12)return{ok:!1,tag:'refused',text:aw(answer)};let sections=answer.limits.map(it=>it.section);return{ok:!1,tag:sections.join(' '),text:sections.map(S).join('; ')}}
async function fo({ok,tag},crew,pairing,signal){let isTaken=ok==null,clash=(isTaken||tag==='overlap')&&await eS(crew,pairing,signal);if(clash||tag==='overlap')return dg(clash);if(tag==='refused')return null;let limits=await A.limits(crew,pairing,1,signal);let aB=limits.filter(it=>it.exceeds&&(isTaken||tag?.includes(it.section)));return ok||isTaken&&!aB.length?fT(limits):aB.length&&eM(aB)}
function bx(pairing,seat,signal,holder){let people=f.members.filter(it=>it.seat===seat&&it.crew!==holder).map(it=>({...it}));let yes=h('ul.plain'),no=h('ul.plain'),summary=h('summary');let E=h('details',{open:!0},summary,no),progress=h('span.soft.small.num',{role:'status'});let filter=h('input',{type:'search',placeholder:'Filter by name or id',label:`Filter the ${seat}s`,oninput:draw});let title=holder?`Who may replace ${ao(holder)?.name ?? holder}?`:`Who may fly as ${seat}?`;function draw(){let word=filter.value.toLowerCase(),found=people.filter(it=>it.row),focus=document.activeElement;let all=found.filter(it=>`${it.crew} ${it.name}`.toLowerCase().includes(word)),refused=all.filter(it=>!it.ok);let allowed=all.filter(it=>it.ok).sort((a,b)=>a.month-b.month||(a.crew<b.crew?-1:1));r(yes,allowed.map(it=>it.row));r(no,refused.map(it=>it.row));if(yes.contains(focus))focus.focus({preventScroll:!0});E.hidden=!refused.length;summary.textContent=`${U(refused.length, 'member')} may not`;progress.textContent=found.length<people.length?`${found.length} of ${people.length} looked at`:`${allowed.length} of ${all.length} may`;if(!people.length)r(yes,h('li.soft',holder?`The book has no other ${seat}.`:`The book has no ${seat} yet: add one under `,!holder&&ab('members','Members')))}function row(it){let V=e=>{e.target.disabled=!0;(holder?replace(holder,it.crew,pairing):assign(it.crew,pairing)).finally(()=>{e.target.disabled=!1})};let verb=holder?'Replace':'Assign',label=`${verb === 'Assign' ? 'Assign' : 'Replace by'} ${it.name}, ${it.crew}`;return h('li.candidate',h('span',ab('member/'+it.crew,h('bdi',it.name)),h('span.soft.small',` ${it.crew} · ${it.base}`)),it.ok?h('button.main',{key:`assign ${it.crew}`,label,onclick:V},verb):h('span.tag.red',it.tag),h('p',{class:it.ok?'small soft num':'small num'}))}function au(it,verdict){Object.assign(it,verdict);it.row??=row(it);it.row.lastChild.textContent=it.text;gz(pairing,it.crew,it)}async function lookAt(list){for(let it of list){if(signal.aborted)return;au(it,await fo(it,it.crew,pairing,signal));if(holder)draw()}draw()}async function bc(){if(holder)return lookAt(people);(await aW(people.map(({crew})=>({do:'assign',pairing,crew})),signal)).forEach((answer,n)=>au(people[n],gR(answer)));draw();for(let ok of[!0,!1]){await lookAt(people.filter(it=>it.ok===ok));yes.inert=!1}}yes.inert=!holder&&people.length;if(people.length)bc().catch(x);draw();return h('section.card',{label:title},h('div.line.end',h('h3',title),progress),people.length>dN&&filter,yes,E)}
let ee=6,aQ=12,
j={pairing:null,words:null,row:null,stop:null,last:null},
aK=()=>j.words!==null
function fZ(){let{pairing}=j,crew=j.row?.dataset.crew,it=ao(crew),verdict=C.verdicts.get(crew);if(!it)return{text:`${pairing}: drop it on a member`};if(!Z(T(pairing)).includes(it.seat))return{text:`The ${it.seat}’s seat of ${pairing} is taken`,isRefused:!0};return{text:`${pairing} to ${it.name}: ${!verdict ? 'being looked at' : verdict.ok ? 'may fly' : verdict.text}`,isRefused:verdict?.ok===!1}}
function cA(){let{clientX,clientY}=j.last,row=document.elementsFromPoint(clientX,clientY).map(it=>it.closest('.row')).find(Boolean);if(row!==j.row){j.row?.classList.remove('over','barred');row?.classList.add('over');j.row=row}let{text,isRefused=!1}=fZ(),left=Math.min(clientX+aQ,innerWidth-j.words.offsetWidth-aQ);j.words.textContent=text;j.words.classList.toggle('no',isRefused);row?.classList.toggle('barred',isRefused);j.words.style.left=`${Math.max(0, left)}px`;j.words.style.top=`${Math.min(clientY + aQ, innerHeight - j.words.offsetHeight - aQ)}px`}
function begin(){j.words=h('div.drag',{role:'status'});j.stop=new AbortController();document.body.append(j.words);if(C.pairing===j.pairing)return;dw(j.pairing);aG(j.pairing,j.stop.signal).then(it=>Z(it).forEach(seat=>bx(j.pairing,seat,j.stop.signal))).catch(x)}
function gJ(){let swallow=e=>{e.stopPropagation();e.preventDefault()};addEventListener('click',swallow,{capture:!0,once:!0});setTimeout(()=>removeEventListener('click',swallow,!0),50)}
function fq(isDropped){let{pairing}=j,crew=j.row?.dataset.crew;j.stop.abort();j.words.remove();j.row?.classList.remove('over','barred');Object.assign(j,{words:null,row:null});gJ();if(am().panel?.[1]!==pairing)by();if(isDropped&&crew)assign(crew,pairing)}
function gG(e,pairing){if(e.button||e.pointerType==='touch')return;let{clientX,clientY}=e,heard=new AbortController();let an=(type,hear)=>addEventListener(type,hear,{capture:!0,signal:heard.signal});let end=isDropped=>{heard.abort();if(aK())fq(isDropped)};j.pairing=pairing;an('pointermove',ev=>{j.last=ev;if(!aK()&&Math.hypot(ev.clientX-clientX,ev.clientY-clientY)<ee)return;if(!aK())begin();cA()});an('pointerup',()=>end(!0));an('pointercancel',()=>end(!1));an('keydown',ev=>{if(ev.key==='Escape'){ev.stopPropagation();end(!1)}});e.preventDefault();e.currentTarget.focus()}
function periods(){let duties=[f.board.duties,f.rosters].flatMap(it=>[...it?.values()??[]].flat()).filter(it=>it.kind==='pairing');return[...duties.map(it=>[it.id,it]),...[...f.details.values()].flatMap(it=>it.periods.map(p=>[it.pairing,p]))]}
function di(flight){let ids=new Set(periods().filter(([,{plan}])=>plan.segments.some(it=>it.flight===flight)).map(([id])=>id));return f.pairings.filter(it=>ids.has(it.pairing))}
function fr(flight){let plans=new Map(periods().map(([id,{plan}])=>[id,plan]));let line=it=>h('li.candidate',h('a',{href:aV('pairing/'+it.pairing)},it.pairing),h('span.num',days(it)),h('p.soft.small',bO([plans.get(it.pairing)])));return h('div.stack',h('h2',{tabindex:-1},`Flight ${flight}`),h('p.soft.small','Of the duties that were read: those on the board, and what else was opened. A pairing with both seats free is found by its id.'),h('ul.plain',di(flight).map(line)))}
let aA={week:['Week',7],fortnight:['2 weeks',14],month:['Month',0]},
dJ=36,
dO=at('2000-01-01T00:00Z'),
c={from:0,to:0,zoom:'month',width:1000,month:NaN,seat:'',word:'',rows:new Map(),isSlim(){return this.width/this.days.length<dJ},days:[],isSure:!1,},
F=m=>(m-c.from)/(c.to-c.from)*100,
isShown=it=>it.end>c.from&&it.begin<c.to
function cp(month){let ah=af(month,1),today=now(),begins=f.pairings.map(it=>it.begin).filter(m=>m>=month&&m<ah);let day=aF(today>=month&&today<ah?today:begins.length?Math.min(...begins):month);return al(day,-((aP(day)+6)% 7))}
function eL(){let onBoard=f.isListed?[]:[...f.board.duties?.values()??[]].flat().filter(it=>it.kind==='pairing');return[...f.pairings,...onBoard].map(it=>it.begin)}
function cv(day,zoom){c.zoom=Object.hasOwn(aA,zoom??'')?zoom:R('zoom','month');aM('zoom',c.zoom);let[,count]=aA[c.zoom],[year,month,J]=(day??'').split('-').map(Number);let isDay=J&&year>=2000&&year<2100,begins=isDay?[]:eL(),thisMonth=O(now());let first=isDay?da(year,month-1,J):co(begins,now());c.isSure=isDay||f.isListed||begins.some(m=>O(m)===thisMonth);c.from=!count?O(first):isDay?first:cp(first);c.to=count?al(c.from,count):af(c.from,1);if(!count)c.month=c.from;c.days=[];for(let n=0;al(c.from,n)<c.to;n++)c.days.push(al(c.from,n))}
let eH=()=>({from:Math.max(dO,c.from-t),to:c.to+t,begin:c.from,end:c.to,isSure:c.isSure}),
ba=(m,zoom=c.zoom)=>Q(`board/${gY(m)}/${zoom}`),
as=n=>ba(aA[c.zoom][1]?al(c.from,n*aA[c.zoom][1]):af(c.from,n))
function dI(zoom){let isBack=isShown({begin:c.month,end:af(c.month,1)}),week=c.zoom==='month'?cp(c.from):c.from;ba(zoom!=='month'?week:isBack?c.month:c.from,zoom)}
let dW=6.3,ex=5.7,dZ=3,eD=11,
dU=3
function cU(list,least=0){let ends=[],lanes=[];for(let it of list){let free=ends.findIndex(end=>end<=it.begin),lane=free<0?ends.length:free;ends[lane]=Math.max(it.end,it.begin+least);lanes.push(lane)}return{lanes,count:ends.length}}
let dc=(list,lanes,n)=>list.find((it,k)=>k>n&&lanes[k]===lanes[n])?.begin??c.to,
labels=(it,name)=>c.zoom==='month'?[name]:[`${name} ${ak(it.begin)}–${ak(it.end)}`,`${name} ${ak(it.begin)}`,name]
function N(it,ah,classes,texts,attributes){let from=Math.max(it.begin,c.from),left=F(from),width=Math.max(F(Math.min(it.end,c.to))-left,dU/c.width*100);let letter=c.isSlim()?ex:dW,more=classes.includes('exceeds')?eD:dZ;let widthOf=text=>(text.length*letter+more)/c.width*100,room=Math.max(width,F(Math.min(ah,c.to))-left);let text=texts.find(label=>widthOf(label)<=room),whole=text==null?width:Math.max(width,widthOf(text));let{style,...rest}=attributes;return h('button',{type:'button',class:['duty',...classes].filter(Boolean).join(' '),tabindex:-1,style:{left:`${left}%`,width:`${whole}%`,...style},...rest},h('span',text),h('i',{style:{width:`${width / whole * 100}%`}}))}
let cc=4,cb=2.3
function dn(part){let stop=part.querySelector('[tabindex="0"]'),isFocused=stop&&stop===document.activeElement;return(anew=part)=>{let el=stop&&bH(stop.dataset.key,anew);if(!el)return;el.tabIndex=0;if(isFocused)el.focus({preventScroll:!0})}}
function fQ(it){let track=h('div.track',{role:'gridcell'}),hours=h('span.num'),mark=h('span.mark',{'aria-hidden':'true'});let short=`${it.crew} ${it.seat === 'captain' ? 'CPT' : 'FO'}${it.base === 'HOME' ? '' : ' ' + it.base}`;let who=h('a.who',{role:'rowheader',href:'#/member/'+it.crew,tabindex:-1,key:`who ${it.crew}`},mark,h('b',h('bdi',it.name)),h('small',h('span',short),hours));let row=h('div.row',{role:'row','data-crew':it.crew},who,track);c.rows.set(it.crew,{row,who,track,hours,mark,it,isNear:!1,isDrawn:!1});cC(it.crew);return row}
function eX(it){if(it.kind==='pairing')return `${it.name}, ${it.flown ? 'flown' : 'planned'}`;return it.kind==='ground'?`ground duty ${it.task}`:`flying ${it.id} for another airline`}
function fb(it,n,list,lanes){let aa=list.findIndex(other=>other.kind===it.kind&&other.id===it.id)===n,exceeds=it.exceeds.join(', ');let kind=it.kind==='pairing'?it.flown?'flown':'plan':it.kind;let label=it.kind==='ground'?it.task:it.kind==='pairing'&&!aa?`/${it.period}`:it.id;let isTight=lanes[n]>0||list.some((other,k)=>lanes[k]>0&&other.begin<it.end&&it.begin<other.end);let figures=it.fdp!=null&&`FDP ${g(it.fdp)}, flight ${g(it.flight)}`;return N(it,dc(list,lanes,n),[kind,exceeds&&'exceeds',isTight&&'tight'],labels(it,label),{key:`${it.crew} ${it.key}`,'data-to':cF(it),style:{'--lane':lanes[n]},label:`${D(it.crew)}: ${eX(it)}, ${u(it.begin)} to ${u(it.end)}${exceeds && ', exceeded ' + exceeds}`,title:[`${it.kind === 'ground' ? it.task : it.name}  ${u(it.begin)} – ${u(it.end)}`,figures,exceeds&&`exceeded ${exceeds}`].filter(Boolean).join('\n'),})}
function aX(crew,anyway){let it=c.rows.get(crew),duties=f.board.duties?.get(crew);if(!it||!duties||!(it.isNear||anyway))return;it.isDrawn=!0;let list=duties.filter(isShown),{lanes}=cU(list),back=dn(it.track);it.hours.textContent=g(bQ(list,'flight'));r(it.track,list.map((duty,n)=>fb(duty,n,list,lanes)));bI(it.track);back()}
function aH(){for(let[crew,it]of c.rows){it.isDrawn=!1;aX(crew)}let lanes=$('lanes');if(!lanes)return;let back=dn(lanes),anew=dd();lanes.replaceWith(anew);back(anew);bI(anew)}
function fV(it,n,list,lanes){let needs=Z(it).join(' and ');return N(it,dc(list,lanes,n),['open',Z(it).length===1&&'half'],labels(it,it.pairing),{key:`open ${it.pairing}`,'data-to':'pairing/'+it.pairing,'data-open':it.pairing,style:{top:`${lanes[n] * cb + 0.1}rem`},label:`Open pairing ${it.pairing}, ${u(it.begin)} to ${u(it.end)}, needs ${needs}`,title:`${it.pairing}  ${u(it.begin)} – ${u(it.end)}\nneeds ${needs}\nDrag it to a member, or press Enter`,onpointerdown:e=>gG(e,it.pairing),})}
function dd(){let list=bJ().filter(isShown),{lanes,count}=cU(list,(c.to-c.from)/30);let height=`${Math.min(cc, Math.max(1, count)) * cb + 0.3}rem`;return h('div.lanes',{id:'lanes',role:'row'},h('div',{role:'rowheader'},h('b',`${list.length} open`),h('br'),h('span.small.noprint',ab('open','List')),count>cc&&h('div.small.soft',`${count} lanes: scroll`)),h('div.track',{role:'gridcell',style:{height}},list.map((it,n)=>fV(it,n,list,lanes))))}
function bD(){let word=c.word.toLowerCase(),fits=it=>(!c.seat||it.seat===c.seat)&&`${it.crew} ${it.name} ${it.base}`.toLowerCase().includes(word);let B=0;for(let{row,it}of c.rows.values()){row.hidden=!fits(it);B+=!row.hidden}if(!$('grid'))return;let count=`${B} of ${c.rows.size}`,words=[c.seat&&`${c.seat}s`,word&&`“${c.word}”`].filter(Boolean).join(', ');$('shown').textContent=B===c.rows.size?U(B,'member'):count;$('chosen').textContent=words&&`. Only ${words}: ${count} members`}
function cC(crew){let it=c.rows.get(crew),verdict=C.verdicts.get(crew);if(!it)return;it.row.classList.toggle('yes',verdict?.ok===!0);it.row.classList.toggle('no',verdict?.ok===!1);it.mark.textContent=!verdict?'':verdict.ok?'✓':'✗';it.who.title=verdict?`${it.it.name}: ${verdict.ok ? 'may fly' : 'may not fly'} ${C.pairing}. ${verdict.text}`:it.it.name}
function bI(part=document){let to=am().panel?.join('/');for(let it of all('.duty',part))it.classList.toggle('chosen',it.dataset.to===to)}
let cW=el=>parseFloat(el.style.left)||0,
dx=row=>all('.who, .duty',row)
function aJ(el){if(!el)return;for(let it of all('[tabindex="0"]',$('grid')))it.tabIndex=-1;el.tabIndex=0;el.focus({preventScroll:!0});el.scrollIntoView({block:'nearest',inline:'nearest'})}
function gA(){let grid=$('grid'),first=grid?.querySelector('.row:not([hidden]) .who, .duty');if(first&&!grid.querySelector('[tabindex="0"]'))first.tabIndex=0}
let ff=()=>aJ($('grid').querySelector('[tabindex="0"]'))
function fY(row,n){let rows=all('.row:not([hidden]), .lanes',$('grid'));return rows[rows.indexOf(row)+n]??row}
function ft(row,from){if(c.rows.get(row.dataset.crew)?.isDrawn===!1)aX(row.dataset.crew,!0);let stops=dx(row),bars=stops.filter(it=>it.matches('.duty')),far=it=>Math.abs(cW(it)-cW(from));aJ(from.matches('.who')||!bars.length?stops[0]:bars.reduce((a,b)=>far(b)<far(a)?b:a))}
function eN(e){let el=e.target.closest('.who, .duty'),row=el?.closest('.row, .lanes'),pages={PageUp:-1,PageDown:1}[e.key];if(pages){e.preventDefault();return as(pages)}if(!row||!/^(Arrow|Home|End)/.test(e.key))return;e.preventDefault();let stops=dx(row),n=stops.indexOf(el);let to={ArrowRight:stops[n+1],ArrowLeft:stops[n-1],Home:stops[0],End:stops.at(-1)};if(e.key in to)aJ(to[e.key]);else ft(fY(row,e.key==='ArrowDown'?1:-1),el)}
let eo=[360,720,1080],
dV=[['plan','planned'],['flown','flown'],['ground','ground duty'],['outside','for another airline'],['open','free seats'],['open half','one seat free']],
column=m=>({left:`${F(m)}%`,width:`${F(al(m, 1)) - F(m)}%`}),
cS=m=>aP(m)% 6===0
function eW(m){let classes=['dayname',cS(m)&&'weekend',m===aF(now())&&'today'].filter(Boolean).join(' ');return h('div',{class:classes,style:column(m)},h('b',K(m).getUTCDate()),c.zoom==='month'?dH(m).slice(0,2):dH(m))}
function eT(){let days=c.days.map(m=>h('i',{class:cS(m)&&'weekend',style:column(m)}));let quarters=c.zoom!=='month'&&c.days.flatMap(m=>eo.map(q=>h('i.quarter',{style:{left:`${F(m + q)}%`}})));return h('div.columns',days,quarters,now()>c.from&&now()<c.to&&h('i.now',{style:{left:`${F(now())}%`}}))}
function gM(){let last=c.to-1;return c.zoom==='month'?ap(c.from):`${J(c.from)} – ${J(last)} ${K(last).getUTCFullYear()}`}
function choice(name,options,value,choose){return h('span.choice',{role:'radiogroup',label:name},options.map(([key,text])=>h('label',h('input',{type:'radio',name,value:key,checked:key===value,onchange:()=>choose(key)}),h('span',text))))}
function eV(title){let filter=h('input',{type:'search',placeholder:'Name, id or base',label:'Filter members',value:c.word,oninput:e=>{c.word=e.target.value;bD()}});return h('div.line.noprint',h('h1',{tabindex:-1,class:'month'},title),h('span.line',h('button',{label:'Earlier',title:'Earlier (Page Up)',key:'earlier',onclick:()=>as(-1)},'‹'),h('button',{key:'today',onclick:()=>ba(now())},'Today'),h('button',{label:'Later',title:'Later (Page Down)',key:'later',onclick:()=>as(1)},'›')),choice('Zoom',Object.entries(aA).map(([key,[name]])=>[key,name]),c.zoom,dI),choice('Seats',[['','All'],['captain','Captains'],['first officer','First officers']],c.seat,seat=>{c.seat=seat;bD()}),filter)}
function gT(grid,track,stop){let measure=()=>{c.width=track.clientWidth||1000;grid.classList.toggle('slim',c.isSlim())};let near=new IntersectionObserver(list=>{for(let{target,isIntersecting}of list){let row=c.rows.get(target.dataset.crew);if(!row)continue;row.isNear=isIntersecting;if(isIntersecting&&!row.isDrawn)aX(target.dataset.crew)}},{root:grid,rootMargin:'500px 0px'});let sized=new ResizeObserver(()=>{let before=c.width;measure();if(before!==c.width)aH()});measure();for(let{row}of c.rows.values())near.observe(row);sized.observe(track);stop.addEventListener('abort',()=>{near.disconnect();sized.disconnect()})}
let gN=()=>now()>c.from&&now()<c.to?F(aF(now()))/100*c.width:0
function eO([day,zoom],stop){cv(day,zoom);c.rows.clear();let title=gM(),days=h('div.track',{role:'columnheader',label:title},c.days.map(eW));let head=h('div.days',{role:'row'},h('div',{role:'columnheader',class:'small soft'},h('span',{id:'shown'}),h('br'),h('div.line.end',I.base==='UTC'?'UTC':`${I.base} time`,h('span','flight'))),days);let sheet=h('div.sheet',{style:{'--days':c.days.length}},head,eT(),f.members.map(fQ),!f.members.length&&h('p.empty','The book has no members yet. ',ab('members','Add the first one'),', then ',ab('import','import a schedule, or write a pairing by hand'),'.'));let grid=h('div',{class:`gantt ${c.zoom}`,role:'grid',id:'grid',label:`Duties, ${title}, ${Y()}. Arrow keys move from duty to duty.`,onkeydown:eN},sheet);queueMicrotask(()=>{bD();gT(grid,days,stop);if(f.members.length)sheet.append(dd());gh(c,stop).then(()=>{if(!stop.aborted)aH()}).catch(x);gA()});return[eV(title),h('p.printonly',`Roster, ${title}, ${Y()}`,h('b',{id:'chosen'})),grid,h('div.legend',dV.map(([kind,text])=>h('span',{class:kind},h('i'),text)),h('span.bad','▲ exceeded a limit'),h('span',h('b.good','✓ '),'may fly the pairing that is chosen'))]}
let eF=/^(\d{4})-(\d\d)-(\d\d)[T ]+(\d\d):?(\d\d)$/,
eu=/^([+-])(?:(\d+):(\d\d)|(\d{1,4}))$/,
eg=/^(?:(\d\d?)[ ./]+)?(\d\d?):?(\d\d)$/,
dL=30,
bW='2025-06-12 08:00'
function gl(text,near){let typed=text.trim().replace(/Z$/i,''),whole=eF.exec(typed);if(whole){let[,y,mo,d,hours,mins]=whole,m=Date.UTC(y,mo-1,d,hours,mins)/60000;return v(m)===`${y}-${mo}-${d}T${hours}:${mins}Z`?m:null}if(near==null)return null;let G=eu.exec(typed);if (G) return near + (G[1] === '-' ? -1 : 1) * (G[2] ? G[2] * 60 + +G[3] : +G[4]);let[,day,hours,mins]=eg.exec(typed)??[];if(hours===undefined||hours>23||mins>59)return null;const first = Math.floor(near / t), ofDay = hours * 60 + +mins;if(!day)return bg(first*t+ofDay,near);for(let far=0;far<=dL;far++)for(let n of[first+far,first-far])if(new Date(n*864e5).getUTCDate()===+day)return n*t+ofDay;return null}
let bg=(m,near)=>m+t*Math.round((near-m)/t)
function gk(m,plan){let base=I.base!=='UTC'?I.base:ad.has('HOME')?'HOME':null;let isSameDay=plan!=null&&Math.floor(m/t)===Math.floor(plan/t);return[isSameDay?'':`${J(m, 'UTC')} UTC`,base&&`${u(m, base)} ${base}`,plan!=null&&m!==plan&&du(m-plan)].filter(Boolean).join(' · ')}
let count=0
function M(name,{value=null,near=()=>null,plan=null,changed=()=>{},isShort=!1}={}){let B=m=>m==null?'':isShort?v(m).slice(11,16):v(m).slice(0,16).replace('T',' ');let hint=h('span.hint',{id:`hint${++count}`});let input=h('input',{value:B(value),'aria-describedby':hint.id,label:isShort?`${name}, UTC`:null,spellcheck:'false',autocomplete:'off',placeholder:isShort?'hh:mm':bW,oninput:()=>{field.read();changed()},});let field=isShort?h('div',input,hint):h('label',`${name} `,h('b.utc','UTC'),input,hint);field.read=()=>{let typed=input.value.trim();field.at=!typed?null:typed===B(value)?value:gl(typed,near());let isWrong=typed!==''&&field.at==null,like=near()==null?bW:'11:05, +35 or 11 01:05';input.setAttribute('aria-invalid',isWrong);hint.textContent=isWrong?`write it as ${like}`:field.at==null?'':gk(field.at,plan)};field.read();return field}
let bu=fields=>fields.every(it=>it.at!=null),
bs='A time is missing, or isn’t read.',
dK=250,dT=2000,
fD=it=>it.do==='actual'?`pairing ${it.pairing}/${it.period}`:`outside outside ${it.outside}`
function bR({report,segments}){let flight=segments.reduce((total,s)=>total+at(s.in)-at(s.out),0);return `FDP ${g(at(segments.at(-1).in) - at(report))} · flight ${g(flight)}. `}
async function gS(answer,command){if(answer.result!=='accepted')return h('div.note.bad',await aZ(answer,command));let isNew=it=>!aI({crew:it.crew,key:fD(command)}).includes(it.section),list=answer.exceedances.filter(isNew);if(!list.length){let isWithin=!answer.exceedances.length,words=isWithin?'Within all limits.':'It exceeds only what is on record already.';return h('p',{class:isWithin?'note good':'note'},bR(command),words)}return h('div.note.bad',h('b',bR(command),'These exceedances would stay on record for good:'),list.map(it=>h('p',`${D(it.crew)} (${it.crew}): ${S(it.section)}, ${it.section}`)))}
function dC(css,{head,report,release,segments,verb,isCorrection},parts,...buttons){let fields=()=>[report,...segments.flatMap(s=>[s.out,s.in]),release],ends=s=>({out:v(s.out.at),in:v(s.in.at)});let command=()=>({...head(),report:v(report.at),release:v(release.at),segments:segments.map(ends)});let verdict=h('div',{role:'status'}),button=h('button.main',{disabled:!0},verb),say=(...it)=>r(verdict,it);let timer=0,asked=new AbortController();let form=h(css,{onsubmit:record,oninput:G,onclick:e=>e.target.type==='button'&&G()},parts,verdict,h('div.line',button,buttons));let written=()=>JSON.stringify(command()),first=isCorrection&&written();function G(){clearTimeout(timer);asked.abort();button.disabled=!0;for(let it of fields())it.read();timer=setTimeout(judge,dK)}async function judge(){asked=new AbortController();if(!bu(fields()))return say(h('p.soft.small',bs));if(written()===first)return say(h('p.soft.small','These times are in the book.'));let what=command(),{signal}=asked,[answer]=await aW([what],signal).catch(x)??[];let told=answer&&await gS(answer,what);if(signal.aborted)return;if(!answer){timer=form.isConnected&&setTimeout(judge,dT);return}button.disabled=answer.result!=='accepted';say(told)}function record(){button.disabled=!0;H(command()).finally(()=>{button.disabled=!1})}judge();return form}
let l={crew:'',section:'',month:'',order:'number'}
function dv(it){if(it.kind==='pairing')return T(it.pairing)?.periods.find(p=>p.period===it.period);return f.rosters.get(it.crew)?.find(duty=>duty.key===it.key)}
let bw=it=>dv(it)?.begin??0,
ei={number:it=>Number(it.number),crew:it=>it.crew,section:it=>bq.indexOf(it.section),begin:bw}
function fy(list){let of=ei[l.order];return[...list].sort((a,b)=>of(a)<of(b)?-1:of(a)>of(b)?1:0)}
let fB=it=>(!l.crew||it.crew===l.crew)&&(!l.section||it.section===l.section)&&(!l.month||O(bw(it))===+l.month)
async function cn(it,stop){let of=list=>list.find(one=>one.section===it.section),limit=of(await A.limits(it.crew,it.pairing,2,stop));if(it.pairing)return aL(it.section)||!limit.duty||limit.duty===it.name?bC(limit,it.name):{text:''};let duties=await ai(it.crew,2,stop),duty=duties.find(other=>other.key===it.key);if(aL(it.section))return bC(db(limit,duties,duty),it.name);return fN(limit,duty)?bC(limit):{text:`limit ${g(limit.limit)}`}}
function bF(duty,sections,stop,then){let{crew,kind,key,id,name}=duty,of=section=>cn({crew,kind,key,name,section,pairing:kind==='pairing'&&id},stop);Promise.all(sections.map(of)).then(list=>{if(list.length&&list.every(it=>it.isWithin))then()}).catch(x)}
function aC(note){note.classList.remove('bad');note.append(h('p.soft','On record; by the times now it is within.'))}
function fh({number,part}){let box=h('div');let read=({command,reply})=>r(box,`${ar(command).words}. Handed in: report ${aE(at(command.report))}, `,bR(command),dm(reply));return h('details',{ontoggle:()=>A.request(number,part).then(read).catch(x)},h('summary',number),box)}
function fj(it,amount){let duty=dv(it),entered=fg(it.number),much=h('td.num',{column:'By how much'});let name=it.pairing?h('a',{href:`#/exceedances+pairing/${it.pairing}`},it.name):h('span',h('a',{href:`#/exceedances+outside/${it.crew}/${it.id}`},it.id),' (other airline)');let cell=(label,text)=>h('td.num',{column:label},text);amount(it).then(({text,isWithin})=>{r(much,text);if(isWithin!=null)much.classList.add(isWithin?'soft':'bad')}).catch(x);return h('tr',h('td',bd(it.crew)),h('td',{column:'Limit'},h('span',h('b',it.section),` ${S(it.section)}`)),much,h('td',{column:'Duty'},name),cell('Report',duty&&aE(duty.begin)),cell('Times now',duty&&`FDP ${g(duty.fdp)}, flight ${g(duty.flight)}`),cell('Entry no.',h('span',fh(it),entered&&h('span.soft.small.below',`entered ${aE(entered)}`))))}
function bk(order,text,draw){let V=e=>{l.order=order;for(let it of all('[aria-sort]',e.target.closest('tr')))it.removeAttribute('aria-sort');e.target.parentNode.setAttribute('aria-sort','ascending');draw()};return h('th',{scope:'col','aria-sort':l.order===order&&'ascending'},h('button',{onclick:V},text))}
function bK(key,options,label,draw){return bi([['',`all ${label}`],...options],l[key],{label,onchange:e=>{l[key]=e.target.value;draw()}})}
let ct=()=>[l.crew&&`member ${l.crew} ${D(l.crew)}`,l.section&&`section ${l.section}`,l.month&&ap(+l.month)].filter(Boolean).join(', ')
function fp(draw){let crews=[...new Set(f.exceedances.map(it=>it.crew))].sort(),sections=bq.filter(s=>f.exceedances.some(it=>it.section===s));let L=[...new Set(f.exceedances.map(bw).filter(Boolean).map(O))].sort((a,b)=>a-b);return[bK('crew',crews.map(it=>[it,`${it} ${D(it)}`]),'members',draw),bK('section',sections.map(it=>[it,it]),'sections',draw),bK('month',L.map(m=>[String(m),ap(m)]),'months',draw)]}
function fk(body,draw){let head=text=>h('th',{scope:'col'},text);return h('div.scroll.card.flat',h('table.cards',h('caption.sr','Exceedances on record'),h('thead',h('tr',bk('crew','Member',draw),bk('section','Limit',draw),head('By how much'),head('Duty'),bk('begin','Report',draw),head('Times now'),bk('number','Entry no.',draw))),body))}
function fl(_,stop){let body=h('tbody'),told=h('span.soft',{role:'status'}),choices=h('span.line'),amounts=new Map(),choice=h('b');let amount=it=>amounts.get(it)??amounts.set(it,cn(it,stop)).get(it);function draw(){let list=fy(f.exceedances.filter(fB));choice.textContent=ct()&&`Only ${ct()}. `;told.textContent=`${list.length} of ${f.exceedances.length} on record · ${Y()}`;r(body,list.map(it=>fj(it,amount)))}let aH=()=>{r(choices,fp(draw));draw()};let E=new Set(f.exceedances.filter(it=>it.kind==='outside').map(it=>it.crew));Promise.all([...E].map(crew=>ai(crew,1,stop))).then(aH).catch(x);aH();return[h('div.line',h('h1',{tabindex:-1},'Exceedances'),told,h('span.line.push.noprint',choices,h('button',{onclick:()=>print()},'Print'))),h('p.soft.small','Limits of 14 CFR Part 117 that flown times, or flying for another airline, exceeded when they were entered. ','A record stays, also if the times are corrected; by how much is told of the times now.'),h('p.printonly',choice,`Printed ${aE(now(), 'UTC')} UTC, from the roster book at ${location.host}`),f.exceedances.length?fk(body,draw):aY('No exceedance is on record.'),]}
let eq=10*60,
bL=(value,most=4)=>h('input',{required:!0,maxlength:most,size:5,value,autocomplete:'off'})
function gu(before,n,period,periodBefore){let last=before[n-1]??periodBefore?.segments.list.at(-1),flight=bL('',8),from=bL(last?.to.value),to=bL();let out=M('Out',{near:()=>before[n-1]?.in.at??period.report.at}),arrival=M('In',{near:()=>out.at});let box=h('div.fields',h('label','Flight',flight),h('label','From',from),out,h('label','To',to),arrival);return{flight,from,to,out,in:arrival,box}}
function gc(before,n){let it={};it.report=M('Report',{near:()=>before[n-1]?.release.at==null?null:before[n-1].release.at+eq});it.segments=bN('segment',(list,k)=>gu(list,k,it,before[n-1]));it.release=M('Release',{near:()=>it.segments.list.at(-1).in.at??it.report.at});it.box=h('fieldset.stack',h('legend',`Period ${n + 1}`),h('div.fields',it.report),it.segments.box,h('div.fields',it.release));return it}
let ge=p=>({report:v(p.report.at),release:v(p.release.at),segments:p.segments.list.map(s=>({flight:av(s.flight),from:av(s.from),out:v(s.out.at),to:av(s.to),in:v(s.in.at)})),})
function cq(){let id=h('input',{required:!0,maxlength:12,autocomplete:'off'}),periods=bN('period',gc);let times=()=>periods.list.flatMap(p=>[p.report,...p.segments.list.flatMap(s=>[s.out,s.in]),p.release]);let read=()=>times().forEach(it=>it.read());async function add(){read();if(!bu(times()))return P(!1,bs);let pairing=av(id);if(await H({do:'add-pairing',pairing,periods:periods.list.map(ge)}))Q('pairing/'+pairing)}let form=h('form.stack',{onsubmit:add,oninput:read},h('div.fields',h('label','Pairing',id)),h('p.soft.small',bo),periods.box,h('div',h('button.main','Add pairing')));return h('details.card',h('summary','Write one pairing by hand'),form)}
let ej=2000,dM=20,
eh=[16,17,19],
dl=record=>`Record ${record.line}${record[0].trim() && ` (${record[0]})`}`
async function gV(record,pairing){let fault=cH(record);if(fault)return fault;let[answer]=await aW([eU(pairing)]);return eh.includes(answer.refusal)?`${aw(answer)} Period ${answer.period}`:'its period, report or release doesn’t go with the records around it'}
function gI({id,begin,end}){let it=T(id);if(!it)return h('span.soft','new');return it.isFlown||it.begin===begin&&it.end===end?h('span.tag','already there'):h('span.bad','there with other times: cancel it first')}
function gf({pairings,faults}){let cells=new Map(pairings.map(it=>[it,h('td',gI(it))]));let skip=h('input',{type:'checkbox',checked:!0,onchange:count}),button=h('button.main',{onclick:handIn}),whyNone=h('span.soft.small');let l=()=>pairings.filter(it=>!(skip.checked&&T(it.id)));function count(){button.textContent=`Import ${U(l().length, 'pairing')}`;whyNone.textContent=faults.length?'correct first what can’t be read':l().length?'':'the book has them all already';button.disabled=whyNone.textContent!==''}function mark(it,isGood,text){r(cells.get(it),h('span',{class:isGood?'good':'bad'},text));cells.get(it).parentNode.classList.toggle('wrong',!isGood)}function answered(it,part){let isGood=part.result==='accepted';mark(it,isGood,isGood?'✓ in the book':`✗ ${aw(part)}`);return isGood}async function refuse(part,answer,done){let record=part.flatMap(it=>it.records)[answer.line-2],it=part.find(one=>one.records.includes(record));let z=it&&`${dl(record)}: ${await gV(record, it)}.`;if(it)mark(it,!1,`✗ ${z}`);cells.get(it)?.scrollIntoView({block:'center'});P(!1,done?'The rest was not imported.':'Nothing was imported.',z&&h('p.bad',z),await aZ(answer))}async function handIn(){button.disabled=!0;let all=l().length;let done=0;for(let{pairings:part,csv}of gD(l())){let answer=await gy(csv,`Import of ${U(part.length, 'pairing')}`);if(!answer.parts){await refuse(part,answer,done);break}done+=part.filter((it,n)=>answered(it,answer.parts[n])).length}if(done)P(done===all,`${done < all ? `${done} of ` : ''}${U(all, 'pairing')} imported.`);await ac();count()}let row=it=>h('tr',h('td',it.id),h('td.num',{column:'Report'},u(it.begin)),h('td.num',{column:'Release'},u(it.end)),h('td.num',{column:'Periods'},it.periods.size),h('td.small',{column:'Route'},it.ports.join('–')),cells.get(it));count();return[h('div.line',h('h2',`${U(pairings.length, 'pairing')} read`),button,whyNone,pairings.some(it=>T(it.id))&&h('label.small',skip,' leave out those that the book has already')),faults.length>0&&h('div.note.bad',{role:'alert'},h('b',`${U(faults.length, 'record')} can’t be read`),faults.slice(0,dM).map(([record,text])=>h('p',`${dl(record)}: ${text}.`))),h('div.scroll.card.flat.tall',aj('.cards','The schedule',['Pairing','Report','Release','Periods','Route','State'],pairings.slice(0,ej).map(row))),]}
let gQ=text=>h('div.note.bad',{role:'alert'},h('b','This is no schedule. '),/^[^\n]*[;\t]/.test(text)&&'Its fields are not between commas: save it as comma separated values. ','Its first line must be',h('p',h('code',ae))),
fi=()=>h('details.card',h('summary','What a schedule looks like'),h('pre',`${ae}\n${bY}`),h('p.small',`The first line is as above; then a line for each segment, with the times in UTC. Lines of one pairing follow one another. ${bo} `,'Flights and airports have only A-Z and 0-9.'))
function fx(){let out=h('div.stack');let W=text=>{let read=gj(text);r(out,text.trim()&&(read?gf(read):gQ(text)))};let area=h('textarea',{rows:6,spellcheck:'false',label:'The schedule as text',placeholder:ae,oninput:()=>W(area.value)});let read=async file=>{if(!file)return;W(area.value=await file.text());area.dataset.typed='1'};let file=h('input',{type:'file',accept:'.csv,text/csv',label:'A schedule file',onclick:()=>{file.value=''},onchange:()=>read(file.files[0])});let over=isOver=>e=>{e.preventDefault();drop.classList.toggle('over',isOver)};let drop=h('div.drop',{ondragover:over(!0),ondragleave:over(!1),ondrop:e=>{over(!1)(e);read(e.dataTransfer.files[0])}},h('p','Drop a schedule here, a CSV file with a line for each segment, or choose it: ',file),h('details',h('summary','or paste it'),area));return[h('h1',{tabindex:-1},'Import a schedule'),drop,fi(),out,cq()]}
let ef=0.9
function gC(it){if(it.minutes==null)return 0;return aL(it.section)?it.limit/Math.max(it.minutes,1):it.minutes/it.limit}
function fG(it){if(it.minutes==null)return 'nothing to judge';if(!aL(it.section))return `${g(it.minutes)} of ${g(it.limit)}`;return it.minutes<aU?`${g(it.minutes)}, least ${g(it.limit)}`:dp(it.minutes)}
let row=(section,text,N,small)=>h('div.limit',h('span',S(section)),text,N,h('small.num',section,small))
function fH(it){let full=gC(it),text=fG(it),kind=it.exceeds?'over':full>ef?'near':'';let N=h('div',{class:`meter ${kind}`,role:'meter',label:S(it.section),'aria-valuenow':Math.min(100,Math.round(full*100)),'aria-valuemin':0,'aria-valuemax':100,'aria-valuetext':it.exceeds?`exceeds: ${text}`:text,},h('i',{style:{width:`${Math.min(100, full * 100)}%`}}));let bg=it.duty??(it.minutes?bU(it):'');return row(it.section,h('span',{class:it.exceeds?'num bad':'num'},it.exceeds&&'▲ ',text),N,[bg&&` · ${bg}`,it.exceeds&&' · exceeds'])}
let fe=section=>row(section,h('span.num.soft','…'),h('div.meter'))
function fI(crew,stop){let list=h('div.limits',bq.map(fe));A.limits(crew,null,0,stop).then(limits=>r(list,limits.map(fH))).catch(x);return h('section.card',{label:'Limits'},h('h3','Nearest to each limit'),h('p.soft.small','Of all duties in the book, planned and flown. A full bar is the limit.'),list)}
let eG=8*60,
cN=value=>h('input',{maxlength:12,required:!0,value,readonly:value!=null,oninput:e=>{e.target.dataset.typed='1'}})
function dy(field,letter,crew,m){if(m!=null&&!field.dataset.typed&&!field.readOnly)field.value=`${letter}${crew}-${v(m).slice(5, 10).replace('-', '')}`.slice(0,12)}
function fv(crew){let id=cN(),task=h('input',{maxlength:60,required:!0,list:'tasks'});let begin=M('Begin',{changed:()=>{dy(id,'G',crew,begin.at);end.read()}});let end=M('End',{near:()=>begin.at==null?null:begin.at+eG});function add(){if(!bu([begin,end]))return P(!1,bs);H({do:'add-ground',ground:id.value,crew,begin:v(begin.at),end:v(end.at),task:task.value},{do:'cancel-ground',ground:id.value,crew})}return h('form.stack',{onsubmit:add},h('div.fields',h('label','Task',task),begin,end,h('label','Id',id)),h('div',h('button.main','Add ground duty')))}
function df(crew,duty){let id=cN(duty?.id),report=M('Report',{value:duty?.begin,changed:()=>dy(id,'X',crew,report.at)});let segments=bN('segment',(before,n)=>{let out=M(`Out ${n + 1}`,{value:duty?.segments[n]?.out,near:()=>before[n-1]?.in.at??report.at});let arrival=M(`In ${n + 1}`,{value:duty?.segments[n]?.in,near:()=>out.at});return{out,in:arrival,box:h('div.fields',out,arrival)}},duty?.segments.length);let release=M('Release',{value:duty?.end,near:()=>segments.list.at(-1).in.at??report.at});let head=()=>({do:'record-outside',outside:id.value,crew});return dC('form.stack',{head,report,release,segments:segments.list,verb:'Record',isCorrection:duty},[h('p.small.soft','It counts in all limits but Tables A and B (117.23(a)). It and each limit that it exceeds stay for good; recorded again under its id, it has the new times.'),h('div.fields',report),segments.box,h('div.fields',release,h('label','Id',id)),])}
function eR({id,crew,begin,end,task}){let add={do:'add-ground',ground:id,crew,begin:v(begin),end:v(end),task};let cancel=()=>H({do:'cancel-ground',ground:id,crew},add).then(w=>w&&bz());return h('div',dE('Cancel this duty',`Cancel ${id}?`,cancel))}
let gv=duty=>aj('.small.num',`Segments of ${duty.id}`,['Segment','Out','In','Block'],duty.segments.map((s,n)=>aD(n+1,X(duty.begin,s.out),X(duty.begin,s.in),g(s.in-s.out))))
function ga(duty,stop){let isGround=duty.kind==='ground',sections=aI(duty);let note=h('div.note.bad',sections.map(it=>h('p',h('b',it),` ${S(it)}`)));bF(duty,sections,stop,()=>aC(note));return[h('h2',{tabindex:-1},isGround?h('bdi',duty.task):'Flying for another airline'),h('p',duty.id,' · ',bd(duty.crew)),h('p.num',`${u(duty.begin)} – ${u(duty.end)}`,!isGround&&` · FDP ${g(duty.fdp)} · flight ${g(duty.flight)}`,` · ${Y()}`),sections.length>0&&note,isGround?eR(duty):[gv(duty),h('p.soft.small','Nothing removes it.'),h('details.card',h('summary','Correct its times'),df(duty.crew,duty))],]}
function de(kind,crew,id,stop){let box=h('div.stack',bh());ai(crew,0,stop).then(duties=>{let duty=duties.find(it=>it.kind===kind&&it.id===id);r(box,duty?ga(duty,stop):[h('h2',id),h('p','It is not in the book.')])}).catch(x);return box}
let dY=99*60,
fE={pairing:'Pairing',ground:'Ground',outside:'Outside'}
function fF(duty){if(duty.kind==='pairing')return tag(duty.flown);return duty.kind==='ground'?h('span.soft',h('bdi',duty.task)):h('span.tag','other airline')}
function fd(duty,duties,stop){let before=Math.max(...duties.slice(0,duties.indexOf(duty)).map(it=>it.end)),rest=duty.begin-before;let sections=aI(duty),cell=(label,text)=>h('td',{column:label,class:'num'},text);let ag=h('span.bad',`▲ exceeded ${sections.join(', ')}`),classes=[sections.length>0&&'bad',duty.end>now()&&'coming'];let row=h('tr',{class:classes.filter(Boolean).join(' ')},h('td.num',J(duty.begin)),h('td',{column:fE[duty.kind]},h('span',h('a',{href:aV(cF(duty))},duty.kind==='pairing'?duty.name:duty.id),' ',fF(duty),duty.plan&&h('span.soft.small.below',bO([duty.plan])))),cell(duty.kind==='ground'?'From – to':'Report – release',gF(duty)),cell('FDP',duty.fdp!=null&&g(duty.fdp)),cell('Flight',duty.flight!=null&&g(duty.flight)),cell('Rest before',rest<dY&&g(Math.max(0,rest))),h('td',sections.length>0&&ag));bF(duty,sections,stop,()=>{for(let it of[row,ag])it.classList.remove('bad');ag.append(': within now')});return row}
function fS(name,month,duties,stop){let list=duties.filter(it=>it.end>month&&it.begin<af(month,1));if(!list.length)return aY(`No duty in ${ap(month)}.`);return aj('.cards.duties',`Roster of ${name}, ${ap(month)}`,['Day','Duty','Times','FDP','Flight','Rest before','Limits'],list.map(it=>fd(it,duties,stop)))}
let L=new Map()
function gq({crew,name},duties,stop){let box=h('div.stack');function draw(){let month=L.get(crew),list=duties.filter(it=>it.begin>=month&&it.begin<af(month,1));let as=(n,text,label)=>h('button',{label,key:`month ${n}`,onclick:()=>{L.set(crew,af(month,n));draw()}},text);r(box,h('div.line',h('span.noprint',as(-1,'‹','The month before')),h('h3',ap(month)),h('span.noprint',as(1,'›','The next month')),h('span.soft.num.push',`flight ${g(bQ(list, 'flight'))} · FDP ${g(bQ(list, 'fdp'))} · ${Y()}`)),fS(name,month,duties,stop))}if(!L.has(crew))L.set(crew,co(duties.map(it=>it.begin),now()));L.set(crew,O(L.get(crew)+t));draw();return box}
function gr(crew,mine){let box=h('input',{type:'checkbox',checked:R('me')===crew,onchange:()=>mine(box.checked?crew:null)});return h('span.line.push.noprint',h('label.small',box,' This is me'),h('button',{onclick:()=>print()},'Print'))}
function cZ(crew,stop,isScreen,mine){let it=ao(crew),heading=isScreen?'h1':'h2';if(!it)return h('div.stack',h(heading,{tabindex:-1},crew),cO(2));let roster=h('div.stack',bh());ai(crew,0,stop).then(duties=>{let aa=!L.has(crew);r(roster,gq(it,duties,stop));if(aa&&cQ())roster.querySelector('tr:not(.coming) + .coming')?.scrollIntoView()}).catch(x);let head=h('div.line',h(heading,{tabindex:-1},h('bdi',it.name)),h('span.soft',`${crew} · ${it.seat} · ${it.base}`),isScreen&&gr(crew,mine));let more=[fI(crew,stop),h('details.card.noprint',h('summary','Add a ground duty'),fv(crew)),h('details.card.noprint',h('summary','Record flying for another airline'),df(crew))];if(isScreen)return h('div.stack',head,h('div.two',roster,h('div.stack',more)));return h('div.stack',head,ab('member/'+crew,'Open the whole page'),roster,more)}
let cf='?',ch='CET-1CEST,M3.5.0,M10.5.0/3',
cx=zone=>`at 17:00 UTC a clock there shows ${dt(zone, 0)} on 15 January and ${dt(zone, 6)} on 15 July`,
bl=most=>h('input',{required:!0,maxlength:most,spellcheck:'false',autocomplete:'off'})
function fO(){let id=bl(12),name=bl(60),seat=bi([['captain','captain'],['first officer','first officer']]),base=bi(f.bases.map(it=>[it.base,it.base]),'HOME');function add(){let command={do:'add-crew',crew:av(id),seat:seat.value,name:name.value,...(base.value==='HOME'?{}:{base:base.value})};H(command).then(w=>w&&$('main').querySelector('form input')?.focus())}return h('form.card',{onsubmit:add},h('h2','Add a member'),h('div.fields',h('label','Id',id),h('label','Name',name),h('label','Seat',seat),h('label','Base',base)),h('p.soft.small',bo,' Id, seat, name and base can’t be changed. Tables A and B go by the clock of the base.'),h('div',h('button.main','Add member')))}
function eI(){let id=bl(12),rule=bl(64),hint=h('p.hint'),isOther=()=>F.value===cf;let F=bi([['','choose'],...es,[cf,'another']],'',{required:!0});let typed=h('label','POSIX rule',rule,h('span.hint',`such as ${ch}: hours west of UTC, and when clocks change`));let l=()=>isOther()?rule.value.trim():F.value;function draw(){let zone=bm(l());typed.hidden=rule.disabled=!isOther();hint.textContent=zone?`Check it: ${cx(zone)}.`:isOther()&&rule.value?'not a rule yet':''}function add(){if(!bm(l()))return P(!1,'This is no POSIX rule.',h('p',`Take one such as ${ch}.`));H({do:'add-base',base:av(id),zone:l()})}draw();return h('form.card',{onsubmit:add,oninput:draw,onchange:draw},h('h2','Add a base'),h('div.fields',h('label','Id',id),h('label','Zone',F),typed),hint,h('p.soft.small','A base stays as it is: check its zone first.'),h('div',h('button.main','Add base')))}
function eJ({base,zone}){let read=bm(zone);return h('tr',h('td',base),h('td',h('code',zone),read&&h('span.soft.small.below',cx(read))))}
let fP=it=>h('tr',h('td',ab('member/'+it.crew,it.crew)),h('td',h('bdi',it.name)),h('td',it.seat),h('td',it.base)),
list=(...parts)=>h('div.scroll.card.flat',aj('',...parts))
function fR(){let members=list('Members',['Id','Name','Seat','Base'],f.members.map(fP));let bases=list('Bases',['Base','Zone'],f.bases.map(eJ));return[h('h1',{tabindex:-1},'Members'),h('div.two',h('div.stack',f.members.length?members:aY('The book has no members yet.')),h('div.stack',fO(),eI(),bases))]}
function fW(it){let to=`#/open+pairing/${it.pairing}`,isShown=am().panel?.[1]===it.pairing;let seat=name=>h('td',{column:dq(name)},it.seats[name]?bd(it.seats[name]):h('span.tag.red','free'));return h('tr.go',{'aria-selected':isShown&&'true'},h('td',h('a',{href:to,key:`open ${it.pairing}`},it.pairing)),h('td.num',{column:'Report'},u(it.begin)),h('td.num',{column:'Release'},u(it.end)),ay.map(seat),h('td',h('a',{href:to,label:`Who may fly ${it.pairing}?`},'Who may fly it?')))}
function fX(){let list=bJ();return[h('div.line',h('h1',{tabindex:-1},'Open pairings'),h('span.soft',`${list.length} with a free seat · ${Y()}`)),cq(),list.length?h('div.scroll.card.flat',aj('.cards','Open pairings',['Pairing','Report','Release','Captain','First officer','Who may fly it'],list.map(fW))):aY('No pairing has a free seat.')]}
function fn(period){let{plan}=period,now=period.flown??plan;let field=(name,value,planned)=>M(name,{value,near:()=>planned,plan:planned,isShort:!0});let segments=plan.segments.map((it,n)=>({out:field(`${it.flight} out`,now.segments[n].out,it.out),in:field(`${it.flight} in`,now.segments[n].in,it.in),}));return{report:field('Report',now.report,plan.report),segments,release:field('Release',now.release,plan.release)}}
function fs(it,period){let{report,segments,release}=fn(period);let rows=period.plan.segments.map((s,n)=>aD([s.flight,h('span.soft.below',`${s.from}–${s.to}`)],segments[n].out,segments[n].in));let warning=!it.isFlown&&' Once a period is flown, the pairing can’t be released, swapped or cancelled any more.';let form=dC('form.flown-form.card',{head:()=>({do:'actual',pairing:it.pairing,period:period.period}),report,release,segments,verb:'Record flown times',isCorrection:period.flown,},[h('p.small.soft',h('b.utc','UTC'),'. Type 1105, +35 for minutes after the plan, or 11 0105 for the 11th.',warning),aj('.small.num','Flown times',['Segment','Out','In'],aD('Report',report,''),rows,aD('Release','',release)),],h('button',{type:'button',onclick:()=>form.remove()},'Close'));return form}
let bX=10,ed=60
function E(it,seat){let far=p=>Math.abs(p.begin-it.begin),crew=it.seats[seat];return f.pairings.filter(p=>p.pairing!==it.pairing&&!p.isFlown&&p.seats[seat]&&p.seats[seat]!==crew&&far(p)<bX*t).sort((a,b)=>far(a)-far(b)).slice(0,ed)}
let cP=answer=>answer.result==='accepted',
z=answer=>answer.refusal===11?'overlap':answer.limits?.map(it=>`${it.crew} ${it.section}`).join(' ')??aw(answer)
function gK(it,seat,signal){let crew=it.seats[seat],plans=E(it,seat),list=h('ul.plain'),progress=h('span.soft.small',{role:'status'});let commands=plans.map(p=>({do:'swap',pairing:it.pairing,crew,other_pairing:p.pairing,other_crew:p.seats[seat]}));function row(answer,n){let command=commands[n],{other_crew:otherCrew,other_pairing:other}=command;let button=h('button.main',{label:`Swap: ${ar(command).words}`,onclick:()=>swap(command)},'Swap');return h('li.candidate',h('span',h('bdi',D(otherCrew)),h('span.soft.small',` ${otherCrew} · ${other} · ${u(plans[n].begin)}`)),cP(answer)?button:h('span.tag.red',z(answer)))}if(plans.length){aW(commands,signal).then(answers=>{let rows=answers.map(row),[yes,no]=[!0,!1].map(ok=>rows.filter((_,n)=>cP(answers[n])===ok));r(list,yes,no);progress.textContent=`${yes.length} of ${plans.length} may`}).catch(x)}else list.append(h('li.soft',`No other planned pairing within ${bX} days has a ${seat}.`));let title=`With whom may ${D(crew)} swap?`;return h('section.card',{label:title},h('div.line.end',h('h3',title),progress),list)}
let held=(text,m,plan)=>[text,m!==plan&&h('span.soft.late',` ${du(m - plan)}`)]
function gd(it,period){let{plan}=period,now=period.flown??plan;let row=(segment,n)=>{let{out,in:end}=now.segments[n],cells=[segment.flight,segment.from,held(X(now.report,out),out,segment.out),segment.to,held(X(now.report,end),end,segment.in),g(end-out)];return aD(...cells)};let edge=(name,m,planned)=>h('tr',h('td.soft',{colspan:2},name),h('td',{colspan:4},held(u(m),m,planned)));return h('div.scroll',aj('.segments.num.small',`Period ${period.period} of ${it.pairing}`,['Flight','From','Out','To','In','Block'],edge('Report',now.report,plan.report),plan.segments.map(row),edge('Release',now.release,plan.release)))}
function gm(it,period,stop){let name=`${it.pairing}/${period.period}`,duty={kind:'pairing',id:it.pairing,name,key:`pairing ${name}`};return ay.map(seat=>{let crew=it.seats[seat],sections=aI({...duty,crew});let note=h('div.note.bad',sections.map(section=>h('p',h('b',section),` ${S(section)}: `,h('bdi',D(crew)),` (${crew})`)));bF({...duty,crew},sections,stop,()=>aC(note));return sections.length>0&&note})}
function gb(it,period,stop){let isCrewed=!Z(it).length;let toggle=()=>{let old=card.querySelector('form'),form=old?null:fs(it,period);old?.remove();if(form){card.append(form);form.querySelector('input').focus()}};let card=h('section.card',{label:`Period ${period.period}`},h('div.line.end',h('h3',`Period ${period.period} `,tag(period.flown)),h('span.num',`FDP ${g(period.fdp)} · flight ${g(period.flight)}`)),gm(it,period,stop),gd(it,period),h('div.line.noprint',h('button',{key:`fly ${period.period}`,disabled:!isCrewed,onclick:toggle},period.flown?'Correct flown times':'Enter flown times'),!isCrewed&&h('span.soft.small','needs both seats')));return card}
function gt(it,seat,open){let crew=it.seats[seat],name=D(crew);let button=(verb,sign,V)=>h('button',{key:`${verb} ${seat}`,label:`${verb} ${name}`,onclick:V},verb+sign);let buttons=()=>h('span.line.noprint',button('Release','',()=>release(crew,it.pairing)),button('Replace','…',()=>open(stop=>bx(it.pairing,seat,stop,crew))),button('Swap','…',()=>open(stop=>gK(it,seat,stop))));return h('li.candidate',h('span',h('span.soft',dq(seat)+' '),crew?bd(crew):h('b.bad','free')),crew&&!it.isFlown&&buttons())}
function eQ(it){let isHeld=Z(it).length<ay.length;let cancel=()=>H({do:'cancel-pairing',pairing:it.pairing}).then(w=>w&&bz());return h('div.line.noprint',dE('Cancel pairing',`Cancel ${it.pairing} for good?`,cancel,{disabled:isHeld}),isHeld&&h('span.soft.small','free its seats first'))}
function parts(it,stop,heading){let extra=h('div.stack.extra'),mark=()=>dw(heading==='h2'&&it.pairing);let inner=new AbortController();let open=make=>{inner.abort();inner=new AbortController();mark();r(extra,make(AbortSignal.any([stop,inner.signal])));extra.querySelector('button, input')?.focus()};mark();return[h('div.line.end',h(heading,{tabindex:-1},`Pairing ${it.pairing} `,tag(it.isFlown)),h('span.soft.num',`${days(it)} · ${Y()}`)),h('p.num',bO(it.periods.map(p=>p.plan))),h('ul.plain',ay.map(seat=>gt(it,seat,open))),extra,!it.isFlown&&Z(it).map(seat=>bx(it.pairing,seat,stop)),it.periods.map(p=>gb(it,p,stop)),!it.isFlown&&eQ(it),]}
function dh(id,stop,isScreen){let heading=isScreen?'h1':'h2',title=h(heading,{tabindex:-1},`Pairing ${id}`),isThere=T(id);let box=h('div.stack.pairing',title,isThere?bh():cO(4));if(isThere)aG(id,stop).then(it=>r(box,parts(it,stop,heading))).catch(x);return box}
let ea=30,
ci={board:eO,open:fX,exceedances:fl,members:fR,import:fx,member:([crew],stop)=>cZ(crew,stop,!0,gL),pairing:([id],stop)=>dh(id,stop,!0),},
cg={pairing:([id],stop)=>dh(id,stop),member:([crew],stop)=>cZ(crew,stop),flight:([flight])=>fr(flight),ground:([crew,id],stop)=>de('ground',crew,id,stop),outside:([crew,id],stop)=>de('outside',crew,id,stop),},
cR=([name])=>f.isListed||name==='board'||name==='members',
fU=()=>h('h1.waiting',{tabindex:-1},'Reading the book…'),
B={main:{},panel:{},from:null},
bG=()=>B.main.to.startsWith('board')
function eY(){let me=R('me');$('mine').hidden=!me;$('mine').href=`#/member/${me}`}
function gL(crew){aM('me',crew);let{base}=ao(crew)??{};if(ad.get(base))cu(base);f.recount();W(!0,aT)}
function bA(){let{screen,panel}=am(),home=cQ()&&R('me')?['member',R('me')]:['board'];return{screen:Object.hasOwn(ci,screen[0])?screen:home,panel:panel&&Object.hasOwn(cg,panel[0])?panel:null}}
function eP(){let[name,day,zoom]=bA().screen;if(name!=='board')return null;cv(day,zoom);return eH()}
function fa([name,...words],isAnew,stop,hasWaited){let grid=$('grid'),scrolled=grid?[grid.scrollLeft,grid.scrollTop]:[0,0],top=scrollY,main=$('main');let aa=!document.body.className||hasWaited;document.body.className=name;r(main,cR([name])?ci[name](words,stop):fU());let heading=main.querySelector('h1');document.title=`${heading.textContent} – Roster book`;for(let it of all('nav a'))it.ariaCurrent=it.hash.slice(2).split('/')[0]===name?'page':null;if($('grid'))requestAnimationFrame(()=>$('grid')?.scrollTo(isAnew?scrolled[0]:gN(),scrolled[1]));if(isAnew)setTimeout(()=>scrollTo(0,top));else if(!$('grid')||!grid){scrollTo(0,0);if(!aa)heading.focus()}}
function bt(w,otherwise,tries=ea){if(w())return;if(tries)setTimeout(bt,100,w,otherwise,tries-1);else otherwise?.()}
function gs(box,top){let last=box.scrollTop;bt(()=>{if(last!==box.scrollTop)return!0;box.scrollTop=top;last=box.scrollTop;return last>=top})}
function eZ(panel,isAnew,stop,hasWaited){let box=$('panel'),top=isAnew?box.scrollTop:0;box.hidden=!panel;if(!isAnew)by();if(panel){let close=h('button.close',{onclick:cV,label:'Close the panel',key:'close'},'✕');r(box,close,cR(panel)?cg[panel[0]](panel.slice(1),stop):h('div.waiting',bh()))}else r(box);setTimeout(gs,0,box,top);if(panel&&!isAnew&&!hasWaited)box.focus({preventScroll:!0});bI();for(let it of all('tr.go'))it.setAttribute('aria-selected',!!panel&&it.querySelector('a').hash.endsWith('+'+panel.join('/')))}
function W(isAnew,held=ca){let{screen,panel}=bA(),{activeElement:focus,body}=document,{key}=focus.dataset,box=focus.closest('#panel');let alike=()=>all(focus.tagName).filter(it=>it.isEqualNode(focus)),n=alike().indexOf(focus);if(panel&&panel.join('/')!==B.panel.to)B.from=key;for(let[id,words,draw]of[['main',screen,fa],['panel',panel,eZ]]){let part=B[id],to=words?.join('/'),isOther=to!==part.to,hasWaited=!isOther&&!!$(id).querySelector('.waiting');part.isStale||=isAnew||hasWaited;if(!isOther&&(!part.isStale||$(id).querySelector(held)))continue;part.stop?.abort();Object.assign(part,{to,isStale:!1,stop:new AbortController()});draw(words,!isOther&&!hasWaited,part.stop.signal,hasWaited)}if(focus===body)return;bt(()=>document.activeElement!==body||(key?bH(key):alike()[n])?.focus({preventScroll:!0}),()=>box?.focus())}
async function redraw(held,isAnew){let{screen,panel}=bA();await Promise.all([screen,panel??[]].map(([kind,id])=>kind==='pairing'?T(id)&&aG(id):ao(id)&&ai(id)));W(isAnew,held)}
function cV(){bz();setTimeout(()=>{let back=B.from&&bH(B.from);if(back?.closest('#grid'))aJ(back);else back?.focus()})}
let et=8,
cj={b:'board',o:'open',e:'exceedances',m:'members',i:'import'},
cm={1:'week',2:'fortnight',3:'month'},
dS=[['/','find a member, a pairing or a flight'],['b o e m i','board, open pairings, exceedances, members, import'],['← → ↑ ↓','on the board: from duty to duty'],['Enter','open the duty'],['Esc','close the message, then the panel; stop dragging'],['Page Up, Page Down','on the board: earlier, later'],['1 2 3','on the board: week, two weeks, month'],['t','on the board: today'],['u','UTC, or the time of a base'],['r','read the book again'],['?','this help'],]
function cK(){let dialog=h('dialog',{label:'Keys',onclose:()=>dialog.remove()},h('h2','Keys'),h('dl.keys',dS.map(([key,text])=>[h('dt',h('kbd',key)),h('dd',text)])),h('h3','What this desk sent last'),h('ul.small',cT().slice(0,et).map(it=>h('li',`${it.words}: ${it.result} `,h('span.soft.num',it.number)))),h('form',{method:'dialog'},h('button','Close')));document.body.append(dialog);dialog.showModal()}
function V(key,aN){if(cj[key])Q(cj[key]);else if(cm[key]&&bG())dI(cm[key]);else if(key==='t'&&bG())ba(now());else if(key==='u')aN();else if(key==='r')ac();else if(key==='?')cK();else return!1;return!0}
function fL(aN){addEventListener('keydown',e=>{if(e.ctrlKey||e.metaKey||e.altKey||document.querySelector('dialog[open]'))return;if(e.key==='Escape'&&!cy()&&!$('panel').hidden)return cV();if(e.target.matches('input, select, textarea'))return;if(bG()&&e.key.startsWith('Arrow')&&e.target.matches('body, main, h1')){e.preventDefault();return ff()}if(e.key==='/'){e.preventDefault();$('find').focus()}else V(e.key,aN)})}
let eB=2000,eC=3,
gP=0
async function bc(){if(document.hidden||cM()||aK())return;try{if(await A.count(2)!==f.count)await ac({held:ca});else W()}catch(z){x(z)}}
function gU(){line.hear=isLost=>{$('lost').hidden=!isLost;f.count=NaN};setInterval(()=>{if(line.isLost||++gP % eC===0)bc()},eB);addEventListener('visibilitychange',bc)}
let dP=3000
function cB(){if(f.isListed){$('openCount').textContent=bJ().length;$('exceededCount').textContent=f.exceedances.length}r($('clock'),['UTC',...ad.keys()].map(base=>h('option',{value:base,selected:base===I.base},base==='UTC'?'UTC':`${base} time`)));r($('ids'),f.members.map(it=>h('option',{value:it.crew},it.name)),f.pairings.slice(-dP).map(it=>h('option',{value:it.pairing},'pairing')));eY()}
function ds(base){cu(base);cB();W(!0,aT)}
function aN(){let all=['UTC',...ad.keys()];ds(all[(all.indexOf(I.base)+1)% all.length])}
function find(text){let word=text.trim().toUpperCase(),flights=di(word),named=word&&f.members.find(it=>it.name.toUpperCase().includes(word));if(ao(word))Q('member/'+word);else if(T(word))Q('pairing/'+word);else if(flights.length===1)Q('pairing/'+flights[0].pairing);else if(flights.length)location.hash=aV('flight/'+word);else if(named)Q('member/'+named.crew);else if(!f.isListed)Q('pairing/'+word);else P(!1,`Nothing is named ${word}.`,h('p','Type the id of a member or of a pairing, a part of a name, or a flight of the days on the board.'))}
function an(){addEventListener('click',e=>{let N=e.target.closest('.duty');if(!N)return;aJ(N);location.hash=aV(N.dataset.to)});addEventListener('input',e=>{if(!e.target.matches('form select, textarea, input:not([type=search], [type=checkbox], [type=radio], [type=file])'))return;e.target.dataset.typed='1';e.target.closest('form')?.removeAttribute('data-sent')});addEventListener('submit',e=>{e.preventDefault();e.target.dataset.sent='1'},!0);addEventListener('hashchange',()=>W());addEventListener('beforeprint',()=>{for(const[crew,row]of c.rows)if(!row.isDrawn)aX(crew,!0)});$('skip').addEventListener('click',e=>{e.preventDefault();$('main').focus()});$('find').addEventListener('keydown',e=>{if(e.key==='Enter'){find(e.target.value);e.target.value=''}});$('clock').addEventListener('change',e=>ds(e.target.value));$('help').addEventListener('click',cK);$('again').addEventListener('click',()=>ac());fL(aN)}
function eK(){f.begin=()=>{};C.draw=crew=>{cC(crew);if(aK())cA()};an();W();document.documentElement.dataset.ready='1';gw()}
Object.assign(f,{recount:cB,window:eP,begin:eK,redraw});
gU();
ac();
</script>
</body>
</html>
"##;
