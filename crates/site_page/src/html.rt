//! The page: one file that needs nothing from elsewhere. It shows data of the site only as text, by
//! `textContent`.

/// The answer to `GET /`.
pub const PAGE: &str = r##"<!doctype html>
<html lang="en">
<head>
<meta charset="utf-8">
<meta name="viewport" content="width=device-width,initial-scale=1">
<meta name="color-scheme" content="light dark">
<title>Forecourt</title>
<style>
:root{color-scheme:light dark;--bg:#dde1e6;--card:#fff;--flat:#eceff2;--ink:#14171c;--dim:#474e58;
--edge:#aab2bc;--call:#ffa726;--due:#ffe27a;--stop:#b3261e;--on:#14171c;--onstop:#fff;
--go:#166534;--ready:#1d4ed8}
@media (prefers-color-scheme:dark){:root{--bg:#0b0e12;--card:#1b2027;--flat:#12161b;--ink:#f0f2f5;
--dim:#b3bac4;--edge:#46505d;--call:#ffa726;--due:#ffd54a;--stop:#ff8a80;--onstop:#14171c;
--go:#8ee6a8;--ready:#a9c1ff}}
*{box-sizing:border-box}
[hidden]{display:none!important}
html,body{height:100%;margin:0}
body{display:grid;grid-template:auto minmax(0,1fr) auto/minmax(0,1fr);gap:6px;padding:6px;
background:var(--bg);color:var(--ink);font:16px/1.2 system-ui,sans-serif;
font-variant-numeric:tabular-nums}
h1,h2,p,table{font-size:1em;margin:0}
a,summary{color:var(--ink);text-underline-offset:.15em}
:focus-visible{outline:3px solid var(--ready);outline-offset:1px}
.heard{position:absolute;width:1px;height:1px;overflow:hidden;clip-path:inset(50%)}
header{display:flex;flex-wrap:wrap;gap:0 1em;align-items:baseline;font-size:clamp(14px,1.05vw,24px)}
#state{font-size:1.7em;font-weight:700;line-height:1.25}
#state.calls{background:var(--call);color:var(--on);padding:0 .3em}
.lost #state{background:var(--stop);color:var(--onstop);padding:0 .3em}
nav{display:flex;gap:.8em;margin-left:auto}
[aria-current]{font-weight:700;text-decoration:none}
#clock{font-size:1.7em;font-weight:700;line-height:1.25}
#points{display:grid;grid-template-columns:repeat(var(--cols,4),minmax(0,1fr));
grid-auto-rows:minmax(0,1fr);gap:6px;min-height:0}
#points section{container-type:size;position:relative;min-width:0;min-height:0;overflow:hidden;
background:var(--card);border:1px solid var(--edge);border-left:6px solid var(--c)}
.tile{font-size:min(5cqw,8cqh,97cqh/var(--high));line-height:1.2}
.tile>*{padding:0 .4em}
.s1,.s2{--c:var(--edge);--w:var(--dim)}.s3{--c:var(--dim);--w:var(--dim)}
.s5,.s6{--c:var(--ready);--w:var(--ready)}.s8{--c:var(--go);--w:var(--go)}
.s4{--c:var(--call);--w:var(--on);--f:var(--call)}
.s7,.s9{--c:var(--stop);--w:var(--onstop);--f:var(--stop)}
#points .s1,#points .s2{background:var(--flat)}
.head,.figs,.run,.line{display:flex;gap:.35em;align-items:baseline;white-space:nowrap}
.head{background:var(--f,transparent);color:var(--w);line-height:1.1}
.head h2{font-size:2.2em;line-height:1.15;min-width:1.45em}
.head h2{color:var(--h,var(--ink))}.s4,.s7,.s9{--h:var(--w)}
.state,.age{font-size:min(1.5em,(100cqw - 4.6em)/(var(--n)*.69));font-weight:600}
.s3 .state{font-weight:400}
.age,.sum,.by,.who,.prepaid{margin-left:auto}
.figs,.run,.rest{gap:.45em;line-height:1.1}.rest{text-align:right}
.flowed,.dues .sum,.run .sum{font-size:min(2em,(100cqw - 1.6em)/(var(--n)*.67))}
.sum{font-weight:700}
.figs .name,.figs .prepaid{font-size:min(1em,(100cqw - 1.6em)/(var(--n)*1.34))}
.gone,.gap,.limit,.line{white-space:nowrap;font-size:min(1em,(100cqw - 1.5em)/(var(--n)*.63))}
.gone,.gap{color:var(--stop);font-weight:700}
.line span{flex:none}
.dim,.limit,.out,.who,.name{color:var(--dim)}
.due{margin-top:.25em;padding:0 .4em .1em}
.tile>.dues{padding:0}
.due.payable:not(.paid){background:var(--due);color:var(--on)}
.due.payable:not(.paid) .name{color:var(--on)}
.due.locked,.due.paid{border-top:1px solid var(--edge)}
#points .s4 .head,.due.payable:not(.paid){outline:2px solid var(--on);outline-offset:-2px}
@container (height < 170px){
#points .s4 .head,.due.payable:not(.paid){outline:0}
.tile{font-size:min(7cqw,13.6cqh,97cqh/var(--low));line-height:1.12}
.tile>*,.due{padding:0 .2em}.due{margin-top:0}
.head,.figs,.run,.rest{line-height:1.12}
.head h2{font-size:1.15em;min-width:1.3em;line-height:1.12}
.state,.age{font-size:min(1em,(100cqw - 2.6em)/(var(--n)*.68))}
.figs .flowed,.figs .sum,.figs .name,.figs .prepaid,.rest .sum{
font-size:min(1em,(100cqw - .8em)/(var(--m)*.68))}
.run .flowed,.run .sum{font-size:min(1.25em,(100cqw - .8em)/(var(--n)*.68))}
.gone,.gap,.limit{font-size:min(.95em,(100cqw - .8em)/(var(--n)*.61))}
.line{font-size:min(.95em,(100cqw - .8em)/(min(var(--n),22)*.61))}
.line .out,.line .product{flex:0 1 auto;min-width:0;overflow:hidden;text-overflow:ellipsis}
}
.lost{--card:var(--flat);--ink:var(--dim);--call:transparent;--due:transparent;--on:var(--dim);
--go:var(--dim);--ready:var(--dim)}
.lost #points{--stop:transparent;--onstop:var(--dim)}
.lost #points :is(.state,.flowed,.sum,.prepaid,.by,.who,.out,.product,.limit),.lost #clock,
.lost #date{text-decoration:line-through}
.lost .tile{position:relative}
.lost #points section::before{content:'';position:absolute;inset:0;background:linear-gradient(to
top right,transparent calc(50% - 2px),var(--edge) calc(50% - 2px) calc(50% + 2px),transparent 0)}
.lost :is(.gone,.gap){color:var(--dim)}
.lost .head,.lost .due{outline:0!important}
.last{display:none}
.lost #points .last{display:block;margin-left:auto;text-decoration:none;font-weight:700}
.lost .age{display:none}
.lost .state{min-width:0;overflow:hidden;text-overflow:ellipsis}
footer{display:grid;grid-template-columns:auto minmax(0,1fr);gap:4px 6px;position:relative;
min-width:0;font-size:clamp(13px,1.05vw,24px)}
#products{display:grid;grid-template-columns:repeat(auto-fit,minmax(8em,1fr));gap:4px}
#products section{background:var(--card);border:1px solid var(--edge);padding:2px 8px;min-width:0;
container-type:inline-size;white-space:nowrap}
.took{display:grid;grid-template:"name price" "flowed flowed" "taken taken"/auto 1fr;gap:0 .5em;
align-items:baseline;--most:1.6em}
#products h2,#products .price{font-size:min(1em,92cqw/((var(--name) + var(--price) + 1)*.7))}
#products h2{grid-area:name;font-weight:600}
.price{grid-area:price;text-align:right}
.took .flowed{grid-area:flowed;font-weight:400;font-size:min(var(--most),96cqw/(var(--flow)*.7))}
.taken{grid-area:taken;text-align:right;font-size:min(var(--most),96cqw/(var(--sum)*.7))}
@container (width > 21em){.took{grid-template:"name price" "flowed taken"/auto 1fr}
.took b{font-size:min(var(--most),92cqw/((var(--flow) + var(--sum) + 1)*.7))}}
@container (width < 13em){.took{grid-template:"name name" "flowed price" "taken taken"/auto 1fr}
#products h2{font-size:min(1em,98cqw/(var(--name)*.7))}
#products .price{font-size:min(1em,57cqw/((var(--flow) + var(--price)*.62 + 1)*.68))}
.took .flowed{font-size:min(var(--most),92cqw/((var(--flow) + var(--price)*.62 + 1)*.68))}}
.many{gap:4px;padding:4px}.many #points{gap:3px}.many #points section{border-left-width:4px}
.many header{font-size:clamp(12px,.95vw,24px)}
.many footer{font-size:clamp(11px,.85vw,20px);gap:3px}
@container (width < 180px){.took{--most:1.15em}}
.many #tills{display:grid;grid-template-columns:repeat(auto-fill,minmax(12.9em,1fr));gap:0 .6em;
line-height:1.15}
#tills{display:flex;flex-wrap:wrap;gap:0 1.4em;grid-column:1/3}
#tills span{white-space:nowrap}
footer details{position:relative;border:1px solid var(--edge);background:var(--card)}
footer summary{padding:2px 8px;height:100%}
footer details[open]>div{position:absolute;left:0;bottom:100%;z-index:1;background:var(--card);
border:2px solid var(--ink);padding:.6em 1em;max-width:calc(100vw - 12px);overflow:auto}
summary{cursor:pointer;white-space:nowrap}
table{border-collapse:collapse}
caption{text-align:left;color:var(--dim);padding-bottom:.3em}
td,th{padding:.1em .6em .1em 0;text-align:right;vertical-align:top;white-space:pre;
border-top:1px solid var(--edge);font-weight:400}
td:first-child,th:first-child{text-align:left}thead th:first-child{min-width:4em}
thead th{border:0;color:var(--dim);font-weight:700}
#figures{overflow:auto;background:var(--card);padding:1em;font-size:14px}
#figures>div{columns:27em;column-gap:2em}
#figures .wide{column-span:all}
#figures h2{font-size:1.3em;margin-bottom:.3em}
#figures section{margin-bottom:1.4em;break-inside:avoid;max-width:100%;overflow-x:auto}
#figures .long{break-inside:auto}.long :is(td,th){padding-right:.35em}
#figures .long th{min-width:0;font-weight:400}
#seal{overflow-wrap:anywhere}
#ended div{columns:33em;column-gap:2.5em}
#closed tbody{break-inside:avoid}#closed tr+tr td{border:0}
#closed th,#closed tr:first-child td{min-width:0;font-weight:700}
button{margin-top:.5em;padding:.3em .8em;font:inherit;color:var(--ink);background:var(--flat);
border:1px solid var(--edge);cursor:pointer}
@media (max-width:1100px),(max-height:640px){html,body{height:auto}body{display:block}
header{position:sticky;top:0;z-index:1;background:var(--bg);padding:2px 0}
#points{grid-template-columns:repeat(auto-fill,minmax(17em,1fr));grid-auto-rows:auto}
#points section{container-type:inline-size}
.tile,.many .tile{font-size:15px;padding-bottom:3px}
footer{margin-top:8px;grid-template-columns:minmax(0,1fr)}#tills{grid-column:1}
footer details[open]>div{position:static;border:0}}
@media (max-width:700px){#points{grid-template-columns:minmax(0,1fr)}.tile{font-size:16px}
#state{order:-1;width:100%;font-size:1.3em}#clock{font-size:1.3em}
#products,#tills,.many #tills{display:grid;grid-template-columns:repeat(2,minmax(0,1fr))}
nav{margin:0}nav a{padding:.4em .2em}#figures{font-size:13px;padding:.6em}
#closed td{white-space:normal;padding-right:.4em}}
</style>
</head>
<body>
<header><h1 id="name">Forecourt</h1><span id="state">no answer yet</span>
<nav aria-label="views"><a id="to-points" href="#">pumps</a>
<a id="to-figures" href="#history">figures</a></nav>
<span id="shift"></span><span id="date"></span><span id="clock"></span></header>
<p id="news" class="heard" role="status" aria-live="polite"></p>
<noscript>This page needs JavaScript.</noscript>
<main id="points" aria-label="pumps"></main>
<main id="figures" aria-label="figures" tabindex="0" hidden><div>
<section class="wide"><h2>Litres since the first row</h2>
<table><thead></thead><tbody id="parts"></tbody></table>
</section>
<section><h2 id="since">This shift</h2><table><thead></thead><tbody id="takings"></tbody></table>
<table><caption>Its litres and money by product</caption>
<thead></thead><tbody id="sold"></tbody></table>
</section>
<section><h2>History</h2><p id="rows"></p><p id="seal"></p></section>
<section><h2 id="peers">Connections</h2><table><thead></thead><tbody id="sessions"></tbody></table>
</section>
<section class="wide" id="ended"><h2 id="closed-shifts" tabindex="-1">Closed shifts</h2>
<div><table id="closed" aria-labelledby="closed-shifts"><thead></thead></table></div>
<p id="none-closed"></p><button id="earlier" type="button" hidden>earlier shifts</button></section>
<section class="long"><h2>Meters, in litres</h2>
<table><thead></thead><tbody id="meters"></tbody></table></section>
</div></main>
<footer><details id="more"><summary>litres<br>this shift</summary><div><table>
<caption>Litres since the first row, and what became of them</caption>
<thead></thead><tbody id="shares"></tbody></table></div></details>
<div id="products" role="group" aria-label="products"></div>
<div id="tills" role="group" aria-label="tills"></div></footer>
<script>
'use strict';
const PARTS = ['running', 'payable', 'locked', 'cleared', 'adjusted'];
const SUBNETS = new Map([[2, 'till'], [3, 'dispenser']]);
const CALLING = 4, MOST_WAIT = 3000, PAUSE = 1000;
const SHIFTS = 64;  // that one answer has at most
const AGAIN = 10000;  // after which shifts that didn't come are asked for again
// The time of the last answer; what was so then; the site of it; since when this page saw it so.
let heard = null, told = null, last = null, begun = new Map();
// The closed shifts that came, by their numbers; which shift was open when they were asked for.
let closed = new Map(), asked = null;

const at = id => document.getElementById(id);
// A number with its thousands apart.
const spaced = text => text.replace(/\B(?=(\d{3})+(?!\d))(?<!\.\d*)/g, '\u00a0');
const money = cents => (cents / 100).toFixed(2);
// Of half a hundredth of a litre and more, one more.
const litres = millilitres => (Math.round(millilitres / 10) / 100).toFixed(2);
const mills = price => (price / 1000).toFixed(3);
const exact = millilitres => spaced((millilitres / 1000).toFixed(3));
const clock = time => time.toTimeString().slice(0, 8);
const day = time => time.toLocaleDateString('en-GB',
  {weekday: 'short', day: 'numeric', month: 'short', year: 'numeric'});
// The time of a day, of another day than today with its date.
const moment = time => (time.toDateString() === new Date().toDateString() ? '' :
  time.toLocaleDateString('sv') + ' ') + clock(time).slice(0, 5);
const list = words => words.filter(word => word !== '').join(', ');

// A length of time: 0:42, then 12:05, then 3 h 12 m.
function length(milliseconds) {
  const seconds = Math.floor(milliseconds / 1000), minutes = Math.floor(seconds / 60);
  return minutes < 60 ? minutes + ':' + String(seconds % 60).padStart(2, '0') :
    Math.floor(minutes / 60) + ' h ' + minutes % 60 + ' m';
}

function put(node, text) {
  if (node.textContent !== text) node.textContent = text;
  node.hidden = text === '';
}

// A text that ends early where a tile has no room for it: the mouse over it shows the whole.
function putLong(node, text) {
  put(node, text);
  node.title = text;
}

// How wide a text is, in digits.
const wide = text => text.length - text.replace(/[^ .,:/il]/g, '').length / 2;

// Tells the style how wide a line is, so that it stays within its tile: --n where its second text
// is half as large as the first; --m where both are alike.
function count(node, large, half = '') {
  const [a, b] = [large, half].map(wide);
  node.style.setProperty('--n', Math.max(1, a + b / 2));
  node.style.setProperty('--m', Math.max(1, a + b));
}

// As many children of this kind as there are values, each filled by its value.
function fill(parent, name, values, write) {
  while (parent.children.length > values.length) parent.lastElementChild.remove();
  while (parent.children.length < values.length) parent.append(document.createElement(name));
  values.forEach((value, n) => write(parent.children[n], value));
}

// A child with this class, made where it isn't there yet.
function part(parent, name, kind) {
  const old = parent.querySelector(':scope > .' + kind);
  if (old) return old;
  const child = document.createElement(name);
  child.className = kind;
  parent.append(child);
  return child;
}

// A table's head, once, and its lines, each of which begins with its name.
function table(body, head, lines) {
  const write = (cell, text) => cell.textContent = text;
  fill(body.parentElement.tHead, 'tr', [head], (row, words) => fill(row, 'th', words, write));
  fill(body, 'tr', lines, (row, words) => fill(row, 'td', words, write));
}

// How long something has been so: by the station's clock since this time; where it doesn't tell
// both, as far as this page saw it.
function age(key, time, site) {
  site.begun.set(key, site.begun.get(key) ?? begun.get(key) ?? site.now);
  const passed = new Date(site.at ?? NaN) - new Date(time ?? NaN);
  return length(Math.max(0, isNaN(passed) ? site.now - site.begun.get(key) : passed));
}

const isPaid = sale => sale['due cents'] === 0 && sale['back cents'] === 0;

function dueWords(sale) {
  if (sale.prepaid === null) return money(sale.cents);
  const due = sale['due cents'], back = sale['back cents'];
  return due > 0 ? money(due) + ' due' : back > 0 ? money(back) + ' back' : 'nothing due';
}

// ---- pumps

const saleKey = sale => [sale.point, sale.shift, sale.number].join('/');

// Of a sale of the open shift point/number, of another point/shift/number.
function saleName(sale, shift) {
  return sale.point + '/' + (sale.shift === shift ? '' : sale.shift + '/') + sale.number;
}

function showSale(box, sale, site) {
  box.className = 'due ' + sale.status + (isPaid(sale) ? ' paid' : '');
  const figs = part(box, 'div', 'figs'), rest = part(box, 'div', 'rest');
  const line = part(box, 'div', 'line');
  const name = saleName(sale, site.shift), flowed = litres(sale.millilitres) + ' l';
  const sum = dueWords(sale), product = site.names.get(sale.product);
  const prepaid = sale.prepaid === null ? '' : money(sale.prepaid) + ' prepaid,';
  const by = sale.status === 'locked' ? 'till ' + sale.till + ' is collecting' :
    (sale['due cents'] > 0 ? 'payable ' : 'to clear ') +
      age('payable ' + saleKey(sale), site.sales.get(saleKey(sale)), site);
  put(part(figs, 'span', 'name'), name);
  put(part(figs, 'span', 'flowed'), flowed);
  put(part(figs, 'span', 'prepaid'), prepaid);
  put(part(figs, 'span', 'sum'), prepaid === '' ? sum : '');
  count(figs, flowed + '  ' + (prepaid === '' ? sum : ''), name + prepaid);
  put(part(rest, 'span', 'sum'), prepaid === '' ? '' : sum);
  count(rest, sum);
  rest.hidden = prepaid === '';
  putLong(part(line, 'span', 'product'), product);
  put(part(line, 'span', 'by'), by);
  count(line, product + ' ' + by);
}

function presetWords(fuelling) {
  if (fuelling.prepaid !== null) {
    const left = fuelling['left cents'], over = (fuelling.cents ?? 0) - fuelling.prepaid;
    return money(fuelling.prepaid) + ' prepaid' + (fuelling.cents === null ? '' :
      ', ' + (over > 0 ? money(over) + ' over' : money(left) + ' left'));
  }
  if (fuelling['preset cents'] !== null) return 'for ' + money(fuelling['preset cents']);
  const volume = fuelling['preset millilitres'];
  return volume === null ? '' : 'for ' + litres(volume) + ' l';
}

// Readings that a nozzle's meter refuses: what it reads, and what was reported last.
function gapWords(gaps) {
  const [gap] = gaps;
  return gap === undefined ? '' : 'nozzle ' + gap.nozzle + ': ' + litres(gap.expected) +
    ' l expected, ' + litres(gap.reported) + ' reported' +
    (gaps.length > 1 ? ', ' + (gaps.length - 1) + ' more' : '');
}

function showPoint(section, point, site) {
  const sales = site.transactions.filter(sale => sale.point === point.number);
  const fuelling = point.fuelling, flows = fuelling.cents !== null, calls = point.state === CALLING;
  section.className = 's' + point.state;
  section.setAttribute('aria-label', 'Pump ' + point.number);
  const tile = part(section, 'div', 'tile');
  const head = part(tile, 'div', 'head'), run = part(tile, 'div', 'run');
  const missing = part(tile, 'p', 'gone'), wrong = part(tile, 'p', 'gap');
  const limit = part(tile, 'p', 'limit');
  const line = part(tile, 'div', 'line'), dues = part(tile, 'div', 'dues');
  const number = part(head, 'h2', 'number');
  put(number, String(point.number));
  number.setAttribute('aria-label', 'Pump ' + point.number);
  const waits = calls ? age('calling ' + point.number, site.calls.get(point.number), site) : '';
  put(part(head, 'span', 'state'), point['state name']);
  put(part(head, 'span', 'age'), waits);
  put(part(head, 'span', 'last'), clock(heard));
  count(head, point['state name'] + ' ' + waits);
  const flowed = flows ? litres(fuelling.millilitres) + ' l' : '';
  const sum = !flows ? '' : fuelling.test ? 'test' : money(fuelling.cents);
  put(part(run, 'span', 'flowed'), flowed);
  put(part(run, 'span', 'sum'), sum);
  count(run, flowed + ' ' + sum);
  run.hidden = !flows;
  const gone = point['dispenser connected'] ? '' : 'no dispenser';
  const out = list([fuelling.test && !flows ? 'test' : '', fuelling.ending ? 'ending' : '',
    point.nozzle === null ? '' : point.nozzle + ' ' + site.names.get(point.product)]);
  const who = point.holder === null ? '' : 'held by till ' + point.holder;
  const words = presetWords(fuelling);
  // The preset stands beside the holder where nothing else does.
  const above = out === '' ? '' : words, beside = out === '' ? words : out;
  const gap = gapWords((site.gaps ?? []).filter(one => one.point === point.number));
  put(missing, gone);
  count(missing, gone);
  putLong(wrong, gap);
  count(wrong, gap);
  put(limit, above);
  count(limit, above);
  putLong(part(line, 'span', 'out'), beside);
  put(part(line, 'span', 'who'), who);
  count(line, beside + ' ' + who);
  line.hidden = beside + who === '';
  fill(dues, 'div', sales, (box, sale) => showSale(box, sale, site));
  const paid = sales.filter(sale => sale.prepaid !== null).length;
  const lines = [missing, wrong, limit, line].filter(one => !one.hidden).length;
  // The heights of its lines: of large ones, and where all are alike.
  tile.style.setProperty('--high',
    2.7 + 2.3 * flows + 1.2 * lines + 3.8 * sales.length + 2.3 * paid);
  tile.style.setProperty('--low',
    1.5 + 1.4 * flows + 1.07 * lines + 2.2 * sales.length + 1.12 * paid);
}

// ---- the foot, and the second view

// Money of a product; nothing where the station doesn't tell it.
const moneyIf = cents => cents == null ? '' : spaced(money(cents));

// What a product took in the open shift, and its price.
function showProduct(box, product) {
  const one = part(box, 'div', 'took'), price = mills(product.mills);
  const cleared = spaced(litres(product.cleared)) + ' l', taken = moneyIf(product.cents);
  const lines = [['h2', 'title', '--name', product.name], ['span', 'price', '--price', price],
    ['b', 'flowed', '--flow', cleared], ['b', 'taken', '--sum', taken]];
  for (const [name, kind, width, text] of lines) {
    put(part(one, name, kind), text);
    one.style.setProperty(width, Math.max(1, wide(text)));
  }
}

// Below a reading: how its meter was replaced, and how far its readings jumped thereby.
function jumpWords(jump) {
  if (jump === undefined) return '';
  const up = jump.raised - jump.lowered, times = jump.replaced;
  return '\nreplaced ' + (times === 1 ? 'once' : times + ' times') + ',\n' + (up < 0 ? '-' : '+') +
    exact(Math.abs(up));
}

function showTill(line, till) {
  put(line, 'till ' + till.number + (till['signed on'] ? ' on, ' : ' off, ') + till.clears +
    ' for ' + spaced(money(till.cents)));
}

function nodeName(session) {
  const kind = SUBNETS.get(session.subnet);
  return kind === undefined ? 'node ' + session.subnet + '/' + session.node :
    kind + ' ' + session.node;
}

function showFigures(site, tills) {
  const opened = site.opened === null ? '' : ' since ' + moment(new Date(site.opened));
  put(at('shift'), 'shift ' + site.shift + opened);
  put(at('since'), 'Shift ' + site.shift + (opened === '' ? '' : ', open' + opened));
  table(at('takings'), ['', 'clears', 'for', ''], tills.map(till => ['till ' + till.number,
    String(till.clears), spaced(money(till.cents)), till['signed on'] ? 'on' : 'off']));
  const lines = site.products.map(product => [product.number + ' ' + product.name,
    ...PARTS.map(name => exact(product[name])), exact(product.metered)]);
  for (const id of ['parts', 'shares']) table(at(id), ['', ...PARTS, 'metered'], lines);
  table(at('sold'), ['', 'cleared', 'for'], site['shift products'].map(product =>
    [product.number + ' ' + site.names.get(product.number), exact(product.cleared) +
      (product.drawn === 0 ? '' : '\n' + exact(product.drawn) + ' in tests'),
      moneyIf(product.cents)]));
  const jumps = new Map((site.jumps ?? []).map(jump => [jump.point + '/' + jump.nozzle, jump]));
  table(at('meters'), ['pump', 'nozzle', 'product', 'reads'], site.points.flatMap(point =>
    point.nozzles.map(nozzle => [String(point.number), String(nozzle.number),
      site.names.get(nozzle.product), exact(nozzle.reading) +
        jumpWords(jumps.get(point.number + '/' + nozzle.number))])));
  put(at('peers'), site.connections + ' connections');
  table(at('sessions'), ['', 'since', 'heard'], site.sessions.map(session => [nodeName(session),
    session.since === null ? '' : moment(new Date(session.since)),
    session['quiet seconds'] + ' s ago']));
  put(at('rows'), site.rows + ' rows');
  put(at('seal'), site.seal === null ? '' : 'last seal ' + site.seal);
}

// ---- closed shifts

const momentIf = time => time === null ? '' : moment(new Date(time));

// What a shift took, and below it what each product took.
function showShift(body, shift) {
  const write = (cell, text) => cell.textContent = text;
  const products = shift.products.map(product => [last.names.get(product.number),
    exact(product.cleared) + '\u00a0l', moneyIf(product.cents)]);
  fill(body, 'tr', [[momentIf(shift.opened), momentIf(shift.closed), String(shift.clears),
    spaced(money(shift.cents))], ...products], (row, words) => {
    const first = row === body.firstElementChild ? 1 : 0;
    if (first === 1) write(part(row, 'th', 'number'), shift.shift);
    while (row.cells.length < first + words.length) row.insertCell();
    words.forEach((word, n) => write(row.cells[first + n], word));
    if (first === 0) row.cells[0].colSpan = 2;
  });
  const number = body.querySelector('th');
  number.scope = 'rowgroup';
  number.rowSpan = 1 + products.length;
}

function showClosed() {
  const shifts = [...closed.values()].sort((a, b) => b.shift - a.shift);
  const box = at('closed'), heads = ['shift', 'opened', 'closed', 'clears', 'for'];
  box.hidden = shifts.length === 0;
  fill(box.tHead, 'tr', [heads], (row, words) =>
    fill(row, 'th', words, (cell, text) => cell.textContent = text));
  while (box.tBodies.length > shifts.length) box.lastElementChild.remove();
  while (box.tBodies.length < shifts.length) box.createTBody();
  shifts.forEach((shift, n) => showShift(box.tBodies[n], shift));
  put(at('none-closed'), shifts.length === 0 ? 'none' : '');
  at('earlier').hidden = shifts.length === 0 || shifts.at(-1).shift === 1;
}

// Asks for the shifts from this one on.
async function askShifts(from) {
  const into = closed;
  try {
    const answer = await fetch('/shifts?from=' + Math.max(1, from),
      {cache: 'no-store', signal: AbortSignal.timeout(MOST_WAIT)});
    if (!answer.ok) throw new Error(answer.status);
    for (const line of (await answer.text()).split('\n').filter(line => line !== '')) {
      const shift = JSON.parse(line);
      if (!shift.open) into.set(shift.shift, shift);
    }
    if (into === closed) showClosed();
  } catch {
    if (into !== closed) return;
    put(at('none-closed'), 'no answer');
    setTimeout(() => asked = into === closed ? null : asked, AGAIN);
  }
}

// The last ones are asked for once while the second view is seen, and when another shift is open.
function followShifts() {
  if (at('figures').hidden || last === null || asked === last.shift) return;
  asked = last.shift;
  askShifts(asked - SHIFTS + 1);
}

function forgetShifts() {
  closed = new Map();
  asked = null;
}

// Who used the button hears which shifts are there; where it is gone the heading has the focus.
async function askEarlier() {
  if (asked === null) return;
  const first = Math.min(asked, ...closed.keys());
  await askShifts(first - SHIFTS);
  const now = Math.min(asked ?? first, ...closed.keys());
  if (now < first) at('news').textContent = 'closed shifts from ' + now;
  if (at('earlier').hidden) at('closed-shifts').focus();
}

// What changed since the last answer, for who listens to the page.
function tellNews(site) {
  const now = new Map(), news = [];
  const tell = (key, name, words) => {
    now.set(key, words);
    if (told !== null && told.get(key) !== words) news.push(name + ' ' + words);
  };
  for (const point of site.points) tell(point.number, 'Pump ' + point.number, point['state name']);
  for (const sale of site.transactions) tell(saleKey(sale), 'sale ' + saleName(sale, site.shift),
    list([sale.prepaid === null ? '' : money(sale.prepaid) + ' prepaid', dueWords(sale),
      sale.status === 'locked' ? 'till ' + sale.till + ' is collecting' : '']));
  if (news.length > 0) at('news').textContent = news.join('. ');
  told = now;
}

function headWords(site) {
  const calls = site.points.filter(point => point.state === CALLING).length;
  const open = site.transactions.filter(sale => sale['due cents'] > 0);
  const sum = site['due cents'];
  const paid = site.transactions.length - open.length;
  return list([calls + ' calling', open.length + ' unpaid' +
    (open.length === 0 ? '' : ' ' + spaced(money(sum))), paid === 0 ? '' : paid + ' prepaid']);
}

function show(answer) {
  heard = answer.at === null ? new Date() : new Date(answer.at);
  const site = {...answer, now: performance.now(), begun: new Map(),
    names: new Map(answer.products.map(product => [product.number, product.name])),
    calls: new Map((answer.calling ?? []).map(one => [one.point, one.since])),
    sales: new Map((answer.sold ?? []).map(one => [saleKey(one), one.at]))};
  const size = site.points.length, points = at('points');
  const columns = size > 42 ? 8 : size > 20 ? 6 : size > 12 ? 5 : size > 6 ? 4 : 3;
  points.style.setProperty('--cols', columns);
  document.body.classList.toggle('many', size > 20);
  fill(points, 'section', site.points, (section, point) => showPoint(section, point, site));
  const tills = site.tills.filter(till => till['signed on'] || till.clears > 0);
  const sold = new Map(site['shift products'].map(product => [product.number, product]));
  fill(at('products'), 'section', site.products, (box, product) =>
    showProduct(box, {...product, ...sold.get(product.number)}));
  fill(at('tills'), 'span', tills, showTill);
  showFigures(site, tills);
  if (last !== null && site.shift < last.shift) forgetShifts();
  last = site;
  begun = site.begun;
  followShifts();
  put(at('name'), site.name ?? 'Forecourt');
  put(at('date'), day(heard));
  put(at('clock'), clock(heard));
  put(at('state'), headWords(site));
  at('state').classList.toggle('calls', site.points.some(point => point.state === CALLING));
  document.title = headWords(site);
  tellNews(site);
}

function lose() {
  const words = heard === null ? 'no answer yet' : 'no answer since ' + clock(heard);
  if (!document.body.classList.contains('lost')) at('news').textContent = words;
  put(at('state'), words);
  document.title = words;
  document.body.classList.add('lost');
  forgetShifts();
}

async function look() {
  const asked = performance.now();
  try {
    const answer = await fetch('/site.json',
      {cache: 'no-store', signal: AbortSignal.timeout(MOST_WAIT)});
    if (!answer.ok) throw new Error(answer.status);
    show(await answer.json());
    document.body.classList.remove('lost');
  } catch {
    lose();
  }
  setTimeout(look, Math.max(0, PAUSE - (performance.now() - asked)));
}

function turn() {
  const second = location.hash === '#history';
  at('points').hidden = second;
  document.querySelector('footer').hidden = second;
  at('figures').hidden = !second;
  at(second ? 'to-figures' : 'to-points').setAttribute('aria-current', 'page');
  at(second ? 'to-points' : 'to-figures').removeAttribute('aria-current');
  forgetShifts();
  followShifts();
}

addEventListener('hashchange', turn);
at('earlier').addEventListener('click', askEarlier);
turn();
look();
</script>
</body>
</html>
"##;
