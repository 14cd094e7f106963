//! The page behind its data: its script.

/// What stands behind the data. The script shows what the data says, and computes nothing of the machine.
pub const TAIL: &str = r#"</script>
<script>
'use strict';

// The data, line by line: the machine, the places of its queues, which stages combine, the components, the wires, and then a
// line for each cycle. All that is drawn stands there.
const at = id => document.getElementById(id);
const lines = at('run').textContent.trim().split('\n');
const words = n => lines[n].split(' ').slice(1);
const [k, horizon, first, last] = words(0).map(Number);
const places = words(1).map(Number);
const combining = words(2);
const names = words(3);
const wires = words(4).map(wire => wire.split(','));

// The states of all components in a cycle, each as its fields.
const read = [];
function states(cycle) {
  const n = cycle - first;
  if (!read[n]) read[n] = lines[5 + n].split(';').slice(1).map(state => state.split(','));
  return read[n];
}

// A queue: the references of its messages, the one that leaves first in front, and whether it is full.
const refs = queue => queue.match(/[0-9.>]+/g) || [];
const isFull = queue => queue.endsWith('!');

// The references whose messages a component holds.
function held(name, state) {
  if (name[0] === 'p') return [state[2].slice(1), state[3], state[4]];
  if (name[0] === 'm') return state.slice(1, 5).flatMap(refs);
  return state.slice(0, 4).flatMap(refs);
}

// By reference, the one that it was combined into, as the wait buffers say.
function combined(all) {
  const into = {};
  all.forEach((state, c) => {
    if (names[c][0] !== 'c') return;
    for (const entry of refs(state[4])) {
      const [second, one] = entry.split('>');
      if (!into[second]) into[second] = one;
    }
  });
  return into;
}

// The reference whose message goes for this one.
function carrier(into, ref) {
  for (let stage = 0; stage < k && into[ref]; stage++) ref = into[ref];
  return ref;
}

// Where a reference was in the cycles of this page, as `lab trace` says it.
function trace(ref) {
  const spans = [];
  for (let t = first; t <= last; t++) {
    const all = states(t);
    const by = carrier(combined(all), ref);
    const place = names.find((name, c) => held(name, all[c]).includes(by));
    const span = spans[spans.length - 1];
    if (!place) continue;
    if (span && span.place === place && span.by === by && span.to === t - 1) span.to = t;
    else spans.push({ place, by, from: t, to: t });
  }
  const said = ({ place, by, from, to }) => `${place} ${from === to ? from : from + '-' + to}${by === ref ? '' : ' in p' + by}`;
  return spans.map(said).join(', ') || 'none';
}

// What is shown: a cycle, a network, and the reference that was chosen.
const shown = { cycle: first, net: 'l', ref: '' };

// Where components stand: processors on the left, modules on the right, a column of switches for each stage.
const PITCH = 72, BOX = 64, SIDE = 92, PLACES = { l: [0, 1], c: [2, 3] };
let width, height, boxWidth;
const lineCount = 2 ** k, switchCount = lineCount / 2;
function measure() {
  width = Math.max(at('bar').clientWidth, 2 * SIDE + 92 * k);
  height = Math.max(PITCH * switchCount, 34 * lineCount) + 18;
  boxWidth = Math.min(110, (width - 2 * SIDE) / (k + 0.6) - 34);
}
const lineY = line => 18 + (line + 0.5) * (height - 18) / lineCount;
const stageX = stage => SIDE + (stage + 0.8) * (width - 2 * SIDE) / (k + 0.6) - boxWidth / 2;
function spot(name) {
  if (name[0] === 'p') return { x: 0, y: lineY(+name.slice(1)), width: SIDE };
  if (name[0] === 'm') return { x: width - SIDE, y: lineY(+name.slice(1)), width: SIDE };
  const [stage, index] = name.slice(1).split('.').map(Number);
  return { x: stageX(stage), y: 18 + (index + 0.5) * (height - 18) / switchCount, width: boxWidth };
}
const isSwitch = name => name[0] === 'l' || name[0] === 'c';
const portY = (name, port) => spot(name).y + (isSwitch(name) ? (port - 0.5) * (height - 18) / lineCount : 0);

function wire([net, upper, output, lower, input]) {
  if (net !== shown.net) return '';
  const from = spot(upper), to = spot(lower);
  return `<path class="wire" d="M${from.x + from.width} ${portY(upper, output)}L${to.x} ${portY(lower, input)}"/>`;
}

// A message in its place. One that carries others has a mark.
function cell(x, y, wide, high, kind, ref, now) {
  const own = ref.split('>')[0];
  const chosen = kind !== 'waiting' && now.chosen === own || kind === 'waiting' && shown.ref === own;
  const mark = kind === 'waiting' || !now.carriers.has(own) ? '' : `<circle class="carries" cx="${x + wide / 2}" cy="${y + high / 2}" r="2.4"/>`;
  return `<g data-ref="${own}"><title>${kind} ${ref}</title><rect class="${chosen ? 'chosen' : kind}" x="${x}" y="${y}" width="${wide}" height="${high}"/>${mark}</g>`;
}

// A queue as a bar of places, of which as many are filled as it has messages.
function bar(x, y, wide, many, queue, kind, now) {
  const each = wide / many, left = kind !== 'request';
  let drawn = '';
  for (let n = 0; n < many; n++) drawn += `<rect class="place" x="${x + n * each}" y="${y}" width="${each}" height="8"/>`;
  refs(queue).forEach((ref, n) => { drawn += cell(x + (left ? n : many - 1 - n) * each + 0.5, y + 0.5, each - 1, 7, kind, ref, now); });
  return drawn + (isFull(queue) ? `<rect class="full" x="${x - 1}" y="${y - 1}" width="${wide + 2}" height="10"/>` : '');
}

function processor(name, state, now) {
  const { x, y } = spot(name), [issued, open, out, ...got] = state;
  const reply = got[shown.net === 'l' ? 0 : 1];
  return `<rect class="box" x="${x + 1}" y="${y - 14}" width="${SIDE - 1}" height="28"/><text class="name" x="${x + 5}" y="${y - 3}">${name}</text>`
    + `<text x="${x + 5}" y="${y + 10}">${issued} issued, ${open} open</text>`
    + (reply ? cell(x + SIDE - 45, y - 11, 18, 9, 'reply', reply, now) : '')
    + (out[0] === shown.net ? cell(x + SIDE - 22, y - 11, 18, 9, 'request', out.slice(1), now) : '');
}

function memory(name, state, now) {
  const { x, y } = spot(name), low = shown.net === 'l';
  return `<rect class="box" x="${x}" y="${y - 14}" width="${SIDE - 1}" height="28"/>`
    + bar(x + 5, y - 10, 52, places[4], state[low ? 1 : 2], 'request', now) + bar(x + 5, y + 3, 52, places[4], state[low ? 3 : 4], 'reply', now)
    + `<text class="name" x="${x + 64}" y="${y - 3}">${name}</text>`
    + (state[0] === '1' ? `<rect class="served" x="${x + 64}" y="${y + 2}" width="10" height="9"><title>served a request</title></rect>` : '');
}

function exchange(name, state, now) {
  const { x, y } = spot(name), top = y - BOX / 2, [forward, reverse] = PLACES[name[0]].map(n => places[n]);
  const may = name[0] === 'c' && combining[name.slice(1).split('.')[0]] === 'on';
  const drawn = (queue, row, many, kind) => bar(x + 4, top + row, boxWidth - 8, many, queue, kind, now);
  return `<rect class="box${may ? ' combining' : ''}" x="${x}" y="${top}" width="${boxWidth}" height="${BOX}"/><text class="name" x="${x + 4}" y="${top + 10}">${name}</text>`
    + drawn(state[0], 14, forward, 'request') + drawn(state[2], 24, reverse, 'reply')
    + (may ? drawn(state[4], 34, places[5], 'waiting') : '')
    + drawn(state[1], 44, forward, 'request') + drawn(state[3], 54, reverse, 'reply');
}

const PARTS = { p: processor, m: memory, l: exchange, c: exchange };
function draw() {
  measure();
  const all = states(shown.cycle), into = combined(all);
  const now = { chosen: shown.ref && carrier(into, shown.ref), carriers: new Set(Object.values(into)) };
  const part = (name, c) => !isSwitch(name) || name[0] === shown.net ? PARTS[name[0]](name, all[c], now) : '';
  const stages = combining.map((on, stage) => `<text x="${stageX(stage)}" y="11">stage ${stage}</text>`).join('');
  at('machine').setAttribute('width', width);
  at('machine').setAttribute('height', height);
  at('machine').innerHTML = `<text x="2" y="11">processors</text>${stages}<text x="${width - SIDE}" y="11">modules</text>${wires.map(wire).join('')}${names.map(part).join('')}`;
  at('cycle').value = shown.cycle;
  at('now').textContent = `cycle ${shown.cycle} of ${horizon}, ${shown.net === 'l' ? 'low' : 'combining'} network`;
  at('net').textContent = `Show the ${shown.net === 'l' ? 'combining' : 'low'} network`;
}

function choose(ref) {
  shown.ref = ref;
  at('reference').value = ref;
  at('trace').textContent = ref ? `${ref}: ${trace(ref)}` : 'Click on a message, or name a reference, to see where it was.';
  draw();
}

function go(cycle) {
  shown.cycle = Math.min(last, Math.max(first, cycle));
  draw();
}

let timer = 0;
function play(on) {
  clearInterval(timer);
  timer = on ? setInterval(() => shown.cycle < last ? go(shown.cycle + 1) : play(false), 400) : 0;
  at('play').textContent = on ? 'Pause' : 'Play';
}

// `#cycle=20&net=comb&ref=3.0` opens the page there. Without a network it opens the low one, if a message of it is there.
function usesLow(all) {
  return all.some((state, c) => names[c][0] === 'p' && state[2][0] === 'l' || names[c][0] === 'l' && held(names[c], state).length);
}
function open() {
  const asked = new URLSearchParams(location.hash.slice(1));
  let net = 'c';
  for (let t = first; t <= last && net === 'c'; t++) if (usesLow(states(t))) net = 'l';
  shown.net = { low: 'l', comb: 'c' }[asked.get('net')] || net;
  shown.cycle = Math.min(last, Math.max(first, Number(asked.get('cycle')) || first));
  choose(asked.get('ref') || '');
}

const KEYS = { ArrowLeft: () => go(shown.cycle - 1), ArrowRight: () => go(shown.cycle + 1), Home: () => go(first), End: () => go(last), ' ': () => play(!timer) };
document.addEventListener('keydown', event => {
  const types = event.target.id === 'reference' || event.target.tagName === 'BUTTON' && event.key === ' ';
  if (types || !KEYS[event.key]) return;
  event.preventDefault();
  KEYS[event.key]();
});
at('cycle').addEventListener('input', () => go(Number(at('cycle').value)));
at('play').addEventListener('click', () => play(!timer));
at('net').addEventListener('click', () => { shown.net = shown.net === 'l' ? 'c' : 'l'; draw(); });
at('reference').addEventListener('change', () => choose(at('reference').value.trim()));
at('machine').addEventListener('click', event => { const found = event.target.closest('[data-ref]'); if (found) choose(found.dataset.ref); });
window.addEventListener('resize', draw);
window.addEventListener('hashchange', open);

// What the colours and marks are.
const swatch = (kind, text, inside = '') => `<span><svg width="20" height="12" style="display:inline"><rect class="${kind}" x="2" y="2" width="15" height="8"/>${inside}</svg> ${text}</span>`;
at('legend').innerHTML = swatch('request', 'request') + swatch('request', 'one that carries others', '<circle class="carries" cx="9.5" cy="6" r="2.4"/>') + swatch('reply', 'reply')
  + swatch('waiting', 'combined request that waits') + swatch('place', 'free place') + swatch('full', 'full queue') + swatch('served', 'module that served') + swatch('chosen', 'the reference chosen');
at('title').textContent = `A machine of ${lineCount} ${lineCount === 1 ? 'processor' : 'processors'}, cycles ${first} to ${last}`;
at('cycle').min = first;
at('cycle').max = last;
open();
</script>
</body>
</html>
"#;
