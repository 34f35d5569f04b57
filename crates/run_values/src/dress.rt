//! How the page looks and what it does by itself.

/// How the page looks: as the status page, and what is marked; how it is laid out on a phone, and on paper.
pub(crate) const STYLE: &str = "\
:root { color-scheme: light dark; --ground: #fff; --ink: #1c2024; --faint: #5b6570; --line: #d5dae0; --wrong: #b3261e;\n\
--fresh: #fff1b8 }\n\
@media (prefers-color-scheme: dark) { :root { --ground: #14171a; --ink: #d8dde3; --faint: #98a2ad; --line: #2e353c;\n\
--wrong: #ff8a80; --fresh: #4a3f10 } }\n\
body { margin: 0 auto; max-width: 96rem; padding: 1rem; background: var(--ground); color: var(--ink);\n\
font: 1rem/1.4 system-ui, sans-serif }\n\
h1 { margin: 0 0 .6rem; font-size: 1.3rem; overflow-wrap: anywhere }\n\
p { margin: .3rem 0; color: var(--faint); overflow-wrap: anywhere }\n\
a { color: inherit }\n\
[hidden] { display: none !important }\n\
.wrong { color: var(--wrong) }\n\
form { display: flex; flex-wrap: wrap; gap: .5rem 1rem; align-items: center; margin: .8rem 0 }\n\
form label { display: flex; gap: .4rem; align-items: center }\n\
input, select, button { font: inherit; color: inherit }\n\
table { width: 100%; border-collapse: collapse; font-variant-numeric: tabular-nums }\n\
th, td { padding: .25rem .4rem; border-bottom: 1px solid var(--line); text-align: left; vertical-align: top }\n\
thead th { color: var(--faint); font-weight: normal }\n\
thead button { border: 0; padding: 0; background: none; text-align: left; cursor: pointer }\n\
[aria-sort=ascending] button::after { content: ' \\2191' }\n\
[aria-sort=descending] button::after { content: ' \\2193' }\n\
tbody th { font-weight: normal; overflow-wrap: anywhere }\n\
td.value { font-weight: bold }\n\
td.quality { color: var(--wrong) }\n\
tr.fresh { background: var(--fresh) }\n\
td.fixed, td.moment { white-space: nowrap }\n\
.number { text-align: right }\n\
@media (max-width: 60rem) {\n\
thead { display: none }\n\
table, tbody { display: block }\n\
tr { display: grid; grid-template-columns: minmax(0, 1fr) minmax(0, 1fr); column-gap: .5rem; padding: .4rem 0;\n\
border-bottom: 1px solid var(--line) }\n\
th, td { border: 0; padding: .1rem 0 }\n\
tbody th, td.moment { grid-column: 1 / -1 }\n\
tbody th { font-weight: bold }\n\
td::before { content: attr(data-column) ': '; color: var(--faint); font-weight: normal }\n\
.number { text-align: left }\n\
}\n\
@media print {\n\
form, .screen { display: none }\n\
tr.fresh { background: none }\n\
tr { break-inside: avoid }\n\
}\n";

/// What the page does by itself: it asks for what changed each second, and renews the rows in place; it searches, filters and sorts;
/// it marks what changed for ten seconds, and keeps ticks in the browser.
pub(crate) const SCRIPT: &str = "\
'use strict';\n\
(() => {\n\
const of = (id) => document.getElementById(id);\n\
const rows = of('rows'), search = of('search'), only = of('only'), lately = of('lately'), state = of('state');\n\
const head = document.createElement('th');\n\
head.dataset.key = 'tried';\n\
head.textContent = 'Tried';\n\
document.querySelector('thead tr').append(head);\n\
const places = [...document.querySelectorAll('thead th')].map((it) => it.dataset.key);\n\
const names = [...document.querySelectorAll('thead th')].map((it) => it.textContent);\n\
const FRESH = 10000, MINUTE = 60000, FIRST = 500;\n\
const kept = 'gateway-points ' + document.body.dataset.settings;\n\
const points = new Map();\n\
let ticks = {}, now = 0, started = 0, limit = FIRST, sorted = '', isDown = false;\n\
try { ticks = JSON.parse(localStorage.getItem(kept)) || {}; } catch (why) { ticks = {}; }\n\
const looks = { value: 'value', quality: 'quality', changes: 'number', address: 'fixed', changed: 'moment', stamp: 'moment' };\n\
const collator = new Intl.Collator('en', { numeric: true });\n\
const moment = (ms) => ms === null ? '' : new Date(ms).toISOString();\n\
const texts = {\n\
name: (it) => it.name,\n\
outstation: (it) => String(it.outstation) + (only.names.get(it.outstation) ? ' ' + only.names.get(it.outstation) : ''),\n\
address: (it) => it.common_address + ' ' + it.address,\n\
type: (it) => it.type,\n\
value: (it) => String(it.value),\n\
quality: (it) => it.quality,\n\
changed: (it) => moment(it.changed),\n\
stamp: (it) => moment(it.stamp) + (it.stamp_doubtful ? ' ?' : ''),\n\
changes: (it) => String(it.changes),\n\
tried: (it) => ticks[it.key] || '',\n\
};\n\
only.names = new Map([...only.options].map((it) => [Number(it.value || -1), it.dataset.name]));\n\
const keep = () => { try { localStorage.setItem(kept, JSON.stringify(ticks)); } catch (why) { state.textContent = String(why); } };\n\
function makeRow(point) {\n\
const row = document.createElement('tr');\n\
point.cells = new Map();\n\
places.forEach((key, at) => {\n\
const cell = document.createElement(key === 'name' ? 'th' : 'td');\n\
if (key === 'name') cell.scope = 'row'; else cell.dataset.column = names[at];\n\
cell.className = looks[key] || '';\n\
if (key === 'tried') {\n\
const box = document.createElement('input'), told = document.createElement('small');\n\
box.type = 'checkbox';\n\
box.setAttribute('aria-label', 'tried');\n\
box.addEventListener('change', () => {\n\
if (box.checked) ticks[point.key] = new Date().toISOString(); else delete ticks[point.key];\n\
keep();\n\
render();\n\
});\n\
cell.append(box, ' ', told);\n\
} else {\n\
cell.append(document.createTextNode(''));\n\
}\n\
point.cells.set(key, cell);\n\
row.append(cell);\n\
});\n\
point.row = row;\n\
}\n\
function fill(point) {\n\
if (!point.row) makeRow(point);\n\
for (const [key, cell] of point.cells) {\n\
const text = texts[key](point);\n\
if (key === 'tried') {\n\
cell.firstChild.checked = text !== '';\n\
cell.lastChild.textContent = text.slice(0, 19).replace('T', ' ');\n\
} else if (cell.firstChild.data !== text) {\n\
cell.firstChild.data = text;\n\
}\n\
}\n\
point.row.classList.toggle('fresh', point.changed !== null && now - point.changed < FRESH);\n\
return point.row;\n\
}\n\
function isFound(point, words) {\n\
if (only.value !== '' && point.outstation !== Number(only.value)) return false;\n\
if (lately.checked && !(point.changed !== null && now - point.changed < MINUTE)) return false;\n\
const text = (point.name + ' ' + point.common_address + ' ' + point.address + ' ' + point.type).toLowerCase();\n\
return words.every((it) => text.includes(it));\n\
}\n\
function compare(one, other) {\n\
const left = one[sorted], right = other[sorted];\n\
if (typeof left === 'number' && typeof right === 'number') return left - right;\n\
return collator.compare(texts[sorted](one), texts[sorted](other));\n\
}\n\
function place(found) {\n\
let next = rows.firstChild;\n\
for (const point of found) {\n\
const row = fill(point);\n\
if (row === next) next = next.nextSibling; else rows.insertBefore(row, next);\n\
}\n\
while (next) {\n\
const behind = next.nextSibling;\n\
next.remove();\n\
next = behind;\n\
}\n\
}\n\
function render() {\n\
const words = search.value.toLowerCase().split(' ').filter((it) => it);\n\
const found = [...points.values()].filter((it) => isFound(it, words));\n\
if (sorted) {\n\
found.sort(compare);\n\
if (isDown) found.reverse();\n\
}\n\
place(found.slice(0, limit));\n\
of('more').hidden = of('all').hidden = found.length <= limit;\n\
of('count').textContent = Math.min(found.length, limit) + ' of ' + found.length + ' shown, ' + points.size + ' points, '\n\
+ [...points.keys()].filter((it) => ticks[it]).length + ' tried';\n\
}\n\
function take(told) {\n\
if (started && told.started !== started) {\n\
location.reload();\n\
return;\n\
}\n\
started = told.started;\n\
now = told.now;\n\
of('passed').hidden = told.passed_over === 0;\n\
of('passed').textContent = 'At least ' + told.passed_over + ' changes were passed over; counts are at least what they say.';\n\
for (const it of told.points) {\n\
it.key = it.common_address + ' ' + it.address;\n\
const known = points.get(it.key);\n\
if (known) Object.assign(known, it); else points.set(it.key, it);\n\
}\n\
}\n\
async function renew() {\n\
try {\n\
const answer = await fetch('points.json' + (now ? '?changed_since=' + now : ''), { cache: 'no-store' });\n\
if (!answer.ok) throw new Error(answer.status + ' ' + answer.statusText);\n\
take(await answer.json());\n\
state.className = '';\n\
state.textContent = 'At ' + moment(now) + '.';\n\
render();\n\
} catch (why) {\n\
state.className = 'wrong';\n\
state.textContent = 'Not renewed since ' + moment(now) + ': ' + why.message;\n\
}\n\
setTimeout(renew, 1000);\n\
}\n\
for (const head of document.querySelectorAll('thead th')) {\n\
const button = document.createElement('button');\n\
button.type = 'button';\n\
button.textContent = head.textContent;\n\
head.textContent = '';\n\
head.append(button);\n\
button.addEventListener('click', () => {\n\
isDown = sorted === head.dataset.key && !isDown;\n\
sorted = head.dataset.key;\n\
for (const it of document.querySelectorAll('thead th')) it.removeAttribute('aria-sort');\n\
head.setAttribute('aria-sort', isDown ? 'descending' : 'ascending');\n\
render();\n\
});\n\
}\n\
const begin = () => { limit = FIRST; render(); };\n\
search.addEventListener('input', begin);\n\
only.addEventListener('change', begin);\n\
lately.addEventListener('change', begin);\n\
of('choice').addEventListener('submit', (it) => it.preventDefault());\n\
of('more').addEventListener('click', () => { limit += FIRST; render(); });\n\
of('all').addEventListener('click', () => { limit = Infinity; render(); });\n\
of('forget').addEventListener('click', () => {\n\
if (!confirm('Forget all ticks of this site in this browser?')) return;\n\
ticks = {};\n\
keep();\n\
render();\n\
});\n\
addEventListener('beforeprint', () => { limit = Infinity; render(); });\n\
of('choice').hidden = false;\n\
of('pages').hidden = true;\n\
renew();\n\
})();\n";

/// What the page may do (Content Security Policy Level 3), as a field of its answer: run this script, look so, and ask its own host
/// for values; nothing else. Script and style go by their SHA-256 in base64, which has to be told anew where their texts change.
pub const POLICY: &str = "Content-Security-Policy: default-src 'none'; \
    script-src 'sha256-LDyAZgK66+HK8vYKZEBvh1CNuZm1mMhjXMl9szgh5CA='; \
    style-src 'sha256-3hJbkhVWizgE2dM8boQqn6RU6r7bEa8ypTtb24H79k0='; \
    connect-src 'self'; img-src data:; base-uri 'none'; form-action 'none'; frame-ancestors 'none'\r\n";
